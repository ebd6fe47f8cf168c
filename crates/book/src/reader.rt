// Reads a book command by command.
ghost use Rattle.std.specs.Prelude.{◌<◌, length, OnSome};
ghost use Rattle.std.proofs.Props.{props};

use crate::automaton::{Automata, Retreat};
use crate::draft::Draft;
use faults::{BookCause, Fault, Layer, NOWHERE};
use protocol::Edge;

// The bytes of the longest book.
const MOST_BYTES: usize = 8192;

// The first bytes of the commands.
const KIND: u8 = 0x01;

const EDGE: u8 = 0x02;

const RETREAT: u8 = 0x03;

// The kinds that are closed, and the one that is being declared, for which there is room.
#[derive(Drop)]
pub struct Reader {
    pub(crate) kinds: Automata,
    draft: Option<Draft>,
    ghost room: { OnSome draft (length kinds.items < 8) } by { Prim.hlevel props },
}

impl Reader {
    ghost use Rattle.std.specs.Prelude.{suc, take, None};
    ghost use Rattle.book.specs.Automata.{Listed};
    ghost use Rattle.book.specs.Commands.{code_of, width};
    ghost use Rattle.book.specs.Reading.{Reading, closed, declare, read_book, start};
    ghost use Rattle.book.specs.Shown.{Gives, Reads, Took, declare_first, first_code};

    pub(crate) fn new() -> Reader
        ensures { Reads result start }
    {
        Reader {
            kinds: Automata::new(),
            draft: None,
        }
    }

    // Closes the kind that is being declared, if there is one.
    fn close(&mut self) -> Result<(), Fault>
        ensures { (x : Reading) → Reads self.old x → Gives (λ _ ks. Reads self.new (record { kinds = ks; draft = None })) result (closed x) }
    {
        if let Some(draft) = self.draft.take() {
            self.kinds.push(draft.close()?);
        }
        Ok(())
    }

    fn kind<'a>(&mut self, place: u16, operands: &'a [u8]) -> Result<&'a [u8], Fault>
        ensures { (x : Reading) → Reads self.old x → Gives (Took self.new 1 operands.now) result (declare x place (code_of KIND) (take 1 operands.now)) }
    {
        self.close()?;
        let &[number, ref rest @ ..] = operands else {
            return Err(BookCause::MissingOperands.at(place));
        };
        if usize::from(number) != self.kinds.len() || self.kinds.is_full() {
            return Err(BookCause::OutOfRange.at(place));
        }
        self.draft = Some(Draft::new(place));
        Ok(rest)
    }

    fn edge<'a>(&mut self, place: u16, operands: &'a [u8]) -> Result<&'a [u8], Fault>
        ensures { (x : Reading) → Reads self.old x → Gives (Took self.new 4 operands.now) result (declare x place (code_of EDGE) (take 4 operands.now)) }
    {
        let &[from, letter, answer, to, ref rest @ ..] = operands else {
            return Err(BookCause::MissingOperands.at(place));
        };
        let edge = Edge {
            from,
            letter,
            answer,
            to,
        };
        self.draft
            .as_mut()
            .ok_or(BookCause::OutOfRange.at(place))?
            .add_edge(place, edge)?;
        Ok(rest)
    }

    // Beside edge, since the operands of a command are a pattern, and no function takes one.
    fn retreat<'a>(&mut self, place: u16, operands: &'a [u8]) -> Result<&'a [u8], Fault>
        ensures { (x : Reading) → Reads self.old x → Gives (Took self.new 3 operands.now) result (declare x place (code_of RETREAT) (take 3 operands.now)) }
    {
        let &[station, letter, rank, ref rest @ ..] = operands else {
            return Err(BookCause::MissingOperands.at(place));
        };
        let retreat = Retreat {
            station,
            letter,
            rank,
        };
        self.draft
            .as_mut()
            .ok_or(BookCause::OutOfRange.at(place))?
            .add_retreat(place, retreat)?;
        Ok(rest)
    }

    // Takes the first command of the bytes, which stands at the place, and gives the rest.
    fn declare<'a>(&mut self, place: u16, bytes: &'a [u8]) -> Result<&'a [u8], Fault>
        ensures { (x : Reading) → Reads self.old x → Gives (Took self.new (suc (width (first_code bytes.now))) bytes.now) result (declare_first x place bytes.now) }
    {
        match bytes {
            [KIND, operands @ ..] => self.kind(place, operands),
            [EDGE, operands @ ..] => self.edge(place, operands),
            [RETREAT, operands @ ..] => self.retreat(place, operands),
            _ => Err(BookCause::UnknownCommand.at(place)),
        }
    }

    // Takes all the commands of a book. A new reader has the automata of their kinds then, or names the first fault; they are
    // large, so they stay where they were made until they are held.
    pub(crate) fn read(&mut self, bytes: &[u8]) -> Result<(), Fault>
        requires { Reads self.old start }
        ensures { Gives (λ _ ks. Listed self.new.kinds.items ks) result (read_book bytes.now) }
    {
        if bytes.len() > MOST_BYTES {
            return Err(BookCause::TooLong.at(NOWHERE));
        }
        // each command says itself how long it is, so no iterator can step over them
        let mut rest = bytes;
        while !rest.is_empty() {
            let place = (bytes.len() - rest.len()) as u16;
            rest = self.declare(place, rest)?;
        }
        self.close()
    }
}
