// The commands of a body, read from the front of a block.
ghost use Rattle.std.specs.Prelude.{◌≡◌};
ghost use Rattle.rules.specs.Lists.{joined};
ghost use Rattle.rules.specs.Script.{code_of, read_operands};
ghost use Rattle.script.specs.Commands.{Begins, Reads, ask_at, repeat_at};
ghost use Rattle.script.specs.Pieces.{piece};

use crate::answers::ByAnswer;
use crate::block::Block;
use crate::blocks::Blocks;
use crate::part::HANDLES;
use faults::{Fault, Layer, LayoutCause};

// The first byte of a command.
const SEND: u8 = 0x20;

const ASK: u8 = 0x21;

const REPEAT: u8 = 0x23;

const RUN: u8 = 0x24;

const SET: u8 = 0x25;

const DEC: u8 = 0x26;

const CUE: u8 = 0x27;

const FAIL: u8 = 0x28;

#[derive(Clone, Copy)]
pub enum Command<'a> {
    Send {
        handle: u8,
        letter: u8,
        register: u8,
    },
    Ask {
        handle: u8,
        letter: u8,
        blocks: Blocks<'a>,
    },
    Repeat {
        register: u8,
        block: Block<'a>,
    },
    Run {
        part: u8,
        bindings: &'a [u8; HANDLES],
    },
    Set {
        register: u8,
        value: u8,
    },
    Dec {
        register: u8,
    },
    Cue {
        number: u16,
    },
    Fail {
        code: u8,
    },
}

// An operand of two bytes, the low one first.
pub(crate) fn word(low: u8, high: u8) -> u16
    ensures { result ≡ joined low high }
{
    u16::from_le_bytes([low, high])
}

// An ASK whose blocks are cut, one after the other, from the front of the tail.
fn read_ask<'a>(
    handle: u8,
    letter: u8,
    lengths: ByAnswer<u16>,
    tail: Block<'a>,
) -> Option<(Command<'a>, Block<'a>)>
    ensures { Reads result (ask_at handle letter lengths (piece tail.entry)) }
{
    let [zero, one, two, three] = lengths;
    let (zero, tail) = tail.cut(zero)?;
    let (one, tail) = tail.cut(one)?;
    let (two, tail) = tail.cut(two)?;
    let (three, rest) = tail.cut(three)?;
    let blocks = Blocks {
        zero,
        one,
        two,
        three,
    };
    let ask = Command::Ask {
        handle,
        letter,
        blocks,
    };
    Some((ask, rest))
}

fn read_repeat<'a>(register: u8, len: u16, tail: Block<'a>) -> Option<(Command<'a>, Block<'a>)>
    ensures { Reads result (repeat_at register len (piece tail.entry)) }
{
    let (block, rest) = tail.cut(len)?;
    Some((Command::Repeat { register, block }, rest))
}

// The command of that first byte whose operands stand at the front of the block, and the rest; None where it is not whole. The byte is
// tested before the length, which cannot be foreseen where a block is short. The operands of each are one pattern, so that none is named
// before all of them are there; a RUN's bindings are taken as they lie, not copied one by one.
#[inline(always)]
fn read_operands<'a>(opcode: u8, operands: Block<'a>) -> Option<(Command<'a>, Block<'a>)>
    ensures { Reads result (read_operands (code_of opcode) operands.entry.place operands.entry.bytes.now) }
{
    match opcode {
        SEND => {
            let [handle, letter, register, rest @ ..] = operands.bytes else {
                return None;
            };
            let send = Command::Send {
                handle: *handle,
                letter: *letter,
                register: *register,
            };
            Some((send, operands.behind(rest)))
        }
        ASK => {
            let [handle, letter, a0, a1, b0, b1, c0, c1, d0, d1, tail @ ..] = operands.bytes else {
                return None;
            };
            let lengths = [
                word(*a0, *a1),
                word(*b0, *b1),
                word(*c0, *c1),
                word(*d0, *d1),
            ];
            read_ask(*handle, *letter, lengths, operands.behind(tail))
        }
        REPEAT => {
            let [register, w0, w1, tail @ ..] = operands.bytes else {
                return None;
            };
            read_repeat(*register, word(*w0, *w1), operands.behind(tail))
        }
        RUN => {
            let [part, tail @ ..] = operands.bytes else {
                return None;
            };
            let (bindings, rest) = tail.split_first_chunk::<HANDLES>()?;
            let run = Command::Run {
                part: *part,
                bindings,
            };
            Some((run, operands.behind(rest)))
        }
        SET => {
            let [register, value, rest @ ..] = operands.bytes else {
                return None;
            };
            let set = Command::Set {
                register: *register,
                value: *value,
            };
            Some((set, operands.behind(rest)))
        }
        DEC => {
            let [register, rest @ ..] = operands.bytes else {
                return None;
            };
            let dec = Command::Dec {
                register: *register,
            };
            Some((dec, operands.behind(rest)))
        }
        CUE => {
            let [w0, w1, rest @ ..] = operands.bytes else {
                return None;
            };
            let cue = Command::Cue {
                number: word(*w0, *w1),
            };
            Some((cue, operands.behind(rest)))
        }
        FAIL => {
            let [code, rest @ ..] = operands.bytes else {
                return None;
            };
            Some((Command::Fail { code: *code }, operands.behind(rest)))
        }
        _ => None,
    }
}

impl<'a> Block<'a> {
    // Its first command and the rest, unless it is empty.
    #[inline(always)]
    pub fn first(self) -> Option<Result<(Command<'a>, Block<'a>), Fault>>
        ensures { Begins self.entry result }
    {
        let [opcode, operands @ ..] = self.bytes else {
            return None;
        };
        let read = read_operands(*opcode, self.behind(operands));
        Some(read.ok_or(LayoutCause::BadCommand.at(self.place as u16)))
    }
}
