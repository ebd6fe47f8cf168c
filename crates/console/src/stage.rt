// What a line asks of the player and the rig. None of it borrows from the line.
ghost use Rattle.std.specs.Prelude.{◌≡◌};
ghost use Rattle.console.specs.Commands.{go_command, last_number, nothing_after, port_in, room_in, stage_command, stage_line};
ghost use Rattle.console.specs.Numbers.{at_most};

use crate::line::NotUnderstood;
use crate::numbers::parse_number;
use crate::words::{REMARK, skip_blanks, split_word};

#[derive(Clone, Copy, Debug, PartialEq, Eq)]
pub enum StageCommand {
    Player,
    Begin,
    // at most so many steps, with a log of so many entries
    Go { steps: u32, room: u16 },
    // at a port
    Look(u8),
    // with a log of so many entries
    Strike { room: u16 },
    Ports,
}

// The longest log.
pub(crate) const MOST_ROOM: u16 = 4096;

// The log of a line that names none.
const ROOM: u16 = 2000;

// What a line asks of the player and the rig, if it asks for anything.
pub fn parse_stage(line: &[u8]) -> Option<Result<StageCommand, NotUnderstood>>
    ensures { result ≡ stage_line line.now }
{
    match skip_blanks(line) {
        [] | [REMARK, ..] => None,
        text => {
            let (word, rest) = split_word(text);
            Some(stage_command(word, rest).ok_or(NotUnderstood))
        }
    }
}

// By its first word, and what follows it.
pub(crate) fn stage_command(word: &[u8], rest: &[u8]) -> Option<StageCommand>
    ensures { result ≡ stage_command word.now rest.now }
{
    if word == b"player".as_slice() {
        nothing_after(StageCommand::Player, rest)
    } else if word == b"begin".as_slice() {
        nothing_after(StageCommand::Begin, rest)
    } else if word == b"go".as_slice() {
        go_command(skip_blanks(rest))
    } else if word == b"look".as_slice() {
        let port = parse_port(rest)?;
        Some(StageCommand::Look(port))
    } else if word == b"strike".as_slice() {
        let room = parse_room(rest)?;
        Some(StageCommand::Strike { room })
    } else if word == b"ports".as_slice() {
        nothing_after(StageCommand::Ports, rest)
    } else {
        None
    }
}

fn go_command(text: &[u8]) -> Option<StageCommand>
    ensures { result ≡ go_command text.now }
{
    let (word, rest) = split_word(text);
    let steps = parse_number(word)?;
    let room = parse_room(rest)?;
    Some(StageCommand::Go { steps, room })
}

fn parse_port(rest: &[u8]) -> Option<u8>
    ensures { result ≡ port_in rest.now }
{
    let port = last_number(skip_blanks(rest))?;
    if port <= u8::MAX as u32 {
        Some(port as u8)
    } else {
        None
    }
}

// The length of the log.
fn parse_room(rest: &[u8]) -> Option<u16>
    ensures { result ≡ room_in rest.now }
{
    match skip_blanks(rest) {
        [] => Some(ROOM),
        text => room_of(last_number(text)?),
    }
}

fn room_of(number: u32) -> Option<u16>
    ensures { result ≡ at_most 4096 number }
{
    if number <= MOST_ROOM as u32 {
        Some(number as u16)
    } else {
        None
    }
}

// The number that is the last word.
fn last_number(text: &[u8]) -> Option<u32>
    ensures { result ≡ last_number text.now }
{
    let (word, rest) = split_word(text);
    nothing_after(parse_number(word)?, rest)
}

// The value, unless more words follow.
fn nothing_after<T: Copy>(value: T, rest: &[u8]) -> Option<T>
    ensures { result ≡ nothing_after value rest.now }
{
    if skip_blanks(rest).is_empty() {
        Some(value)
    } else {
        None
    }
}
