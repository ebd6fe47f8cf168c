// All the lines of an input, and all that is answered.
ghost use Rattle.std.specs.Prelude.{◌≡◌, ◌++◌, map, IfOk, OnOk, string_bytes};
ghost use Rattle.console.specs.Acts.{entries_for};
ghost use Rattle.console.specs.Lines.{asked_at, asked_from, lines_of};
ghost use Rattle.console.specs.Numbered.{numbered};
ghost use Rattle.console.specs.Transcripts.{Hands, Prints, Tells, printed};
ghost use Rattle.console.specs.Views.{view};

use crate::answer::Answer;
use crate::desk::Desk;
use crate::line::{Line, parse_line};
use crate::reply::write_reply;
use memchr::memchr;
use std::alloc::{AllocError, Global};
use std::io::{self, Write};

// Answers are handed on in pieces of at least so many bytes, but for the last. All of them at once would be as much new memory as they take.
const PIECE: usize = 65536;

// A line that asks for something, with its number from 1. Blank ones and remarks take no memory.
#[derive(Drop)]
pub(crate) struct Numbered<'a> {
    number: u64,
    line: Line<'a>,
}

// Writes what the console prints for all of an input, whose lines are decoded where they stand.
pub fn transcript<W: Write>(heap: Global, input: &mut [u8], out: &mut W) -> io::Result<()>
    ensures { OnOk result (Prints (lines_of input.old) (W.Write.contents out.old) (W.Write.contents out.new)) }
{
    let asked = parse_lines(heap, input)?;
    answer_lines(heap, &asked, out)
}

fn parse_lines<'a>(heap: Global, input: &'a mut [u8]) -> Result<Vec<Numbered<'a>>, AllocError>
    ensures { IfOk result (λ v. map numbered v.items ≡ asked_from 1 (lines_of input.old)) }
{
    let mut asked = Vec::new(heap);
    let mut number = 1;
    let mut rest = input;
    // `split` would test byte after byte
    while let Some(end) = memchr(b'\n', rest) {
        let (row, after) = rest.split_at_mut(end);
        let line = parse_line(heap, row)?;
        keep(&mut asked, number, line)?;
        number += 1;
        rest = &mut after[1..];
    }
    let line = parse_line(heap, rest)?;
    keep(&mut asked, number, line)?;
    Ok(asked)
}

fn keep<'a>(asked: &mut Vec<Numbered<'a>>, number: u64, line: Line<'a>) -> Result<(), AllocError>
    ensures { OnOk result (map numbered asked.new.items ≡ map numbered asked.old.items ++ asked_at number (view line.entry)) }
{
    if line.is_some() {
        asked.push(Numbered { number, line })?;
    }
    Ok(())
}

// What is held borrows from the lines: all are parsed before the first is answered.
fn answer_lines<'a, W: Write>(
    heap: Global,
    asked: &'a [Numbered<'a>],
    out: &mut W,
) -> io::Result<()>
    ensures { OnOk result (Tells (map numbered asked.now) (W.Write.contents out.old) (W.Write.contents out.new)) }
{
    let mut desk = Desk::new();
    let mut text = String::new(heap);
    for next in asked {
        let answer = desk.answer(heap, next.number, &next.line)?;
        write_answer(&mut text, &desk, answer)?;
        hand_on(&mut text, out)?;
    }
    out.write_all(text.as_bytes())
}

// Hands on the text once it is long enough.
fn hand_on<W: Write>(text: &mut String, out: &mut W) -> io::Result<()>
    ensures { OnOk result (Hands (string_bytes text.old) (string_bytes text.new) (W.Write.contents out.old) (W.Write.contents out.new)) }
{
    if text.len() >= PIECE {
        out.write_all(text.as_bytes())?;
        text.clear();
    }
    Ok(())
}

fn write_answer(text: &mut String, desk: &Desk, answer: Option<Answer>) -> Result<(), AllocError>
    ensures { OnOk result (string_bytes text.new ≡ string_bytes text.old ++ printed answer (entries_for desk.now answer)) }
{
    match answer {
        Some(answer) => write_reply(text, &answer, desk.entries(&answer)),
        None => Ok(()),
    }
}
