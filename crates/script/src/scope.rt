// Where a body is checked.
ghost use Rattle.std.specs.Prelude.{◌+◌, ◌≤◌, length};

use crate::answers::ANSWERS;
use crate::block::Block;
use crate::command::Command;
use crate::draft::Draft;
use crate::part::{HANDLES, Part};
use crate::run::Run;
use crate::successors::Successors;
use book::Leads;
use protocol::LETTERS;

// Registers are 0 to 7.
const REGISTERS: u8 = 8;

// In a part of the draft, behind the parts below it.
#[derive(Clone, Copy)]
pub struct Scope<'a> {
    pub draft: Draft<'a>,
    pub below: &'a [Part],
    pub running: Part,
    ghost lies: { running.place + 28 + running.len ≤ length draft.bytes.now },
}

impl<'a> Scope<'a> {
    ghost use Rattle.std.specs.Prelude.{◌≡◌};
    ghost use Rattle.protocol.specs.Tables.{successors as successors_of};
    ghost use Rattle.book.specs.Leads.{joint};
    ghost use Rattle.rules.specs.Script.{table_at};
    ghost use Rattle.script.specs.Commands.{in_range_so, said};
    ghost use Rattle.script.specs.Pieces.{piece};
    ghost use Rattle.script.specs.Scopes.{IsRun, scope_of};

    // The body of the running part.
    pub(crate) fn body(&self) -> Block<'a>
        ensures { piece result ≡ (scope_of self.now).running.body }
    {
        self.running.body(self.draft.bytes)
    }

    // Where each answer to a letter leads the device of a handle.
    pub(crate) fn successors(&self, handle: u8, station: u8, letter: u8) -> Successors
        ensures { result ≡ successors_of (table_at (scope_of self.now) handle) station letter }
    {
        match self.draft.book.table(self.running.kind(handle)) {
            Some(table) => table.successors(station, letter),
            None => [None; ANSWERS],
        }
    }

    // Where all the answers to a letter lead the device of a handle.
    pub(crate) fn leads(&self, handle: u8, station: u8, letter: u8) -> Leads
        ensures { result ≡ joint (successors_of (table_at (scope_of self.now) handle) station letter) }
    {
        let kind = self.running.kind(handle);
        self.draft.book.leads(kind, station, letter)
    }

    // The RUN of a part that may be run, with bindings that fit.
    pub(crate) fn run(&self, number: u8, bindings: [u8; HANDLES]) -> Option<Run<'_>>
        ensures { IsRun self.now number bindings result }
    {
        let part = self.below.get(number as usize)?;
        let run = Run {
            running: &self.running,
            part,
            bindings,
        };
        run.fits().then_some(run)
    }

    // Whether the operands are in range. A RUN passes here; `run` tests its part and bindings.
    pub(crate) fn in_range(&self, command: &Command) -> bool
        ensures { result ≡ in_range_so (scope_of self.now) (said command.now) }
    {
        let handles = self.running.own;
        match command {
            Command::Send {
                handle,
                letter,
                register,
            } => *handle < handles && *letter < LETTERS && *register < REGISTERS,
            Command::Ask { handle, letter, .. } => *handle < handles && *letter < LETTERS,
            Command::Repeat { register, .. }
            | Command::Set { register, .. }
            | Command::Dec { register } => *register < REGISTERS,
            Command::Run { .. } | Command::Cue { .. } | Command::Fail { .. } => true,
        }
    }
}
