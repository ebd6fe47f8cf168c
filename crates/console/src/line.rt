// What a line of input asks for.
ghost use Rattle.std.specs.Prelude.{◌≡◌, IfOk, map};
ghost use Rattle.std.specs.Option.{option_map};
ghost use Rattle.console.specs.Commands.{stage_command};
ghost use Rattle.console.specs.Lines.{book, bytes_line, known_line, line_of, rig_of, script, stage, verb_of, worded};
ghost use Rattle.console.specs.Plans.{planned};
ghost use Rattle.console.specs.Views.{commanded, view};
ghost use Rattle.console.specs.Words.{after_word, first_word};

use crate::devices::parse_devices;
use crate::digits::spaced_bytes;
use crate::plan::Plan;
use crate::stage::{StageCommand, stage_command};
use crate::words::{REMARK, count_blanks, count_letters};
use device::PORTS;
use std::alloc::{AllocError, Global};

#[derive(Drop)]
pub enum Command<'a> {
    // borrowed from the line, whose digits the bytes have replaced
    Book(&'a [u8]),
    Script(&'a [u8]),
    Rig(Vec<Plan>),
    Stage(StageCommand),
}

// A line that is no command: it is answered, and the console goes on.
#[derive(Clone, Copy, Debug, PartialEq, Eq)]
pub struct NotUnderstood;

// What a line asks for, if anything.
pub type Line<'a> = Option<Result<Command<'a>, NotUnderstood>>;

// The bytes of a book or a script are decoded where their digits stand.
pub fn parse_line<'a>(heap: Global, line: &'a mut [u8]) -> Result<Line<'a>, AllocError>
    ensures { IfOk result (λ l. view l ≡ line_of line.old) }
{
    let blanks = count_blanks(line);
    match &line[blanks..] {
        [] | [REMARK, ..] => Ok(None),
        _ => {
            let command = parse_words(heap, &mut line[blanks..])?;
            Ok(Some(command.ok_or(NotUnderstood)))
        }
    }
}

fn parse_words<'a>(heap: Global, text: &'a mut [u8]) -> Result<Option<Command<'a>>, AllocError>
    ensures { IfOk result (λ o. known_line (option_map commanded o) ≡ worded (first_word text.old) (after_word text.old)) }
{
    let letters = count_letters(text);
    let (word, rest) = text.split_at_mut(letters);
    parse_command(heap, word, rest)
}

// The first word of a command that is kept in memory.
#[derive(Clone, Copy)]
enum Verb {
    Book,
    Script,
    Rig,
}

fn verb_of(word: &[u8]) -> Option<Verb>
    ensures { result ≡ verb_of word.now }
{
    if word == b"book".as_slice() {
        Some(Verb::Book)
    } else if word == b"script".as_slice() {
        Some(Verb::Script)
    } else if word == b"rig".as_slice() {
        Some(Verb::Rig)
    } else {
        None
    }
}

fn parse_command<'a>(
    heap: Global,
    word: &[u8],
    rest: &'a mut [u8],
) -> Result<Option<Command<'a>>, AllocError>
    ensures { IfOk result (λ o. known_line (option_map commanded o) ≡ worded word.now rest.old) }
{
    match verb_of(word) {
        Some(Verb::Book) => Ok(book_of(rest)),
        Some(Verb::Script) => Ok(script_of(rest)),
        Some(Verb::Rig) => Ok(rig_of(parse_devices(heap, rest)?)),
        None => Ok(stage_of(word, rest)),
    }
}

fn book_of<'a>(digits: &'a mut [u8]) -> Option<Command<'a>>
    ensures { known_line (option_map commanded result) ≡ bytes_line book digits.old }
{
    let bytes = spaced_bytes(digits)?;
    Some(Command::Book(bytes))
}

fn script_of<'a>(digits: &'a mut [u8]) -> Option<Command<'a>>
    ensures { known_line (option_map commanded result) ≡ bytes_line script digits.old }
{
    let bytes = spaced_bytes(digits)?;
    Some(Command::Script(bytes))
}

fn stage_of<'a>(word: &[u8], rest: &[u8]) -> Option<Command<'a>>
    ensures { option_map commanded result ≡ option_map stage (stage_command word.now rest.now) }
{
    let command = stage_command(word, rest)?;
    Some(Command::Stage(command))
}

// A rig is of at most eight devices.
fn rig_of<'a>(plans: Option<Vec<Plan>>) -> Option<Command<'a>>
    ensures { option_map commanded result ≡ rig_of (option_map (λ v. map planned v.items) plans) }
{
    let plans = plans?;
    if plans.len() <= PORTS as usize {
        Some(Command::Rig(plans))
    } else {
        None
    }
}
