// The check of keys: a block checks its commands, and a command the blocks that it holds.
ghost use Rattle.std.specs.Prelude.{◌≡◌, map};
ghost use Rattle.rules.specs.Check.{check_body};
ghost use Rattle.script.specs.Commands.{said};
ghost use Rattle.script.specs.Levels.{scope_at};
ghost use Rattle.script.specs.Scopes.{scope_of};
ghost use Rattle.script.specs.Pieces.{piece, pieces};
ghost use Rattle.script.specs.Walk.{GivesEnds, Leaves, allowed_at, ask_keys, block_keys, branch_ends, command_after, repeat_keys, send_keys};

use crate::answers::{ANSWERS, ByAnswer};
use crate::block::Block;
use crate::blocks::Blocks;
use crate::command::Command;
use crate::keys::{Keys, at, set_key};
use crate::level::Level;
use crate::scope::Scope;
use crate::successors::{Successors, common, some_declared, undeclared_empty};
use arrayvec::ArrayVec;
use book::Leads;
use faults::{Fault, KeyCause, Layer, LayoutCause};

impl Scope<'_> {
    // Where the answers to a letter lead, if it is allowed. (Place, handle, letter and keys go by themselves: a struct of them would be
    // made of a command for one call, and taken apart in it.)
    fn allowed(&self, place: u16, handle: u8, letter: u8, keys: &Keys) -> Result<Successors, Fault>
        ensures { result ≡ allowed_at (scope_of self.now) place handle letter keys.now }
    {
        let to = self.successors(handle, at(keys, handle), letter);
        if some_declared(&to) {
            Ok(to)
        } else {
            Err(KeyCause::NotAllowed.at(place))
        }
    }

    fn check_send(&self, place: u16, handle: u8, letter: u8, keys: &mut Keys) -> Result<(), Fault>
        ensures { Leaves result keys.new (send_keys (scope_of self.now) place handle letter keys.old) }
    {
        match self.leads(handle, at(keys, handle), letter) {
            Leads::Nowhere => Err(KeyCause::NotAllowed.at(place)),
            Leads::Apart => Err(KeyCause::AnswersDiffer.at(place)),
            Leads::To(station) => {
                set_key(keys, handle, station);
                Ok(())
            }
        }
    }
}

impl Level<'_> {
    // The keys at the ends of the blocks of the declared answers.
    #[cycle(blocks)]
    fn check_branches(
        &self,
        handle: u8,
        to: &Successors,
        blocks: &ByAnswer<Block>,
        keys: &Keys,
    ) -> Result<ArrayVec<Keys, ANSWERS>, Fault>
        ensures { GivesEnds result (branch_ends (scope_at self.now) self.now.depth handle to.now (map piece blocks.now) keys.now) }
    {
        let mut ends = ArrayVec::new();
        for (to, block) in to.iter().zip(blocks) {
            if let Some(station) = to {
                let mut end = *keys;
                set_key(&mut end, handle, *station);
                self.check_block(*block, &mut end)?;
                ends.push(end);
            }
        }
        Ok(ends)
    }

    // After an ASK at the place, whose blocks stand here.
    #[cycle(blocks)]
    fn check_ask(
        &self,
        place: u16,
        handle: u8,
        letter: u8,
        blocks: Blocks,
        keys: &mut Keys,
    ) -> Result<(), Fault>
        ensures { Leaves result keys.new (ask_keys (scope_at self.now) self.now.depth place handle letter (pieces blocks.entry) keys.old) }
    {
        let to = self.scope.allowed(place, handle, letter, keys)?;
        let blocks = blocks.by_answer();
        if !undeclared_empty(&to, &blocks) {
            return Err(KeyCause::UndeclaredBlock.at(place));
        }
        let ends = self.check_branches(handle, &to, &blocks, keys)?;
        *keys = common(&ends).ok_or(KeyCause::EndsDiffer.at(place))?;
        Ok(())
    }

    // A REPEAT at the place, whose block stands here, leaves the keys as they are.
    #[cycle(blocks)]
    fn check_repeat(&self, place: u16, block: Block, keys: &Keys) -> Result<(), Fault>
        ensures { Leaves result keys.now (repeat_keys (scope_at self.now) self.now.depth place (piece block.entry) keys.now) }
    {
        let mut end = *keys;
        self.check_block(block, &mut end)?;
        if end == *keys {
            Ok(())
        } else {
            Err(KeyCause::RepeatDiffers.at(place))
        }
    }

    #[cycle(blocks)]
    fn check_command(&self, place: u16, command: Command, keys: &mut Keys) -> Result<(), Fault>
        ensures { Leaves result keys.new (command_after (scope_at self.now) self.now.depth place (said command.entry) keys.old) }
    {
        let scope = self.scope;
        if !scope.in_range(&command) {
            return Err(LayoutCause::OutOfRange.at(place));
        }
        match command {
            Command::Send { handle, letter, .. } => scope.check_send(place, handle, letter, keys),
            Command::Ask {
                handle,
                letter,
                blocks,
            } => {
                let inner = self.deeper(place)?;
                inner.check_ask(place, handle, letter, blocks, keys)
            }
            Command::Repeat { block, .. } => {
                let inner = self.deeper(place)?;
                inner.check_repeat(place, block, keys)
            }
            Command::Run { part, bindings } => {
                let Some(run) = scope.run(part, *bindings) else {
                    return Err(LayoutCause::OutOfRange.at(place));
                };
                run.check(place, keys)
            }
            Command::Set { .. }
            | Command::Dec { .. }
            | Command::Cue { .. }
            | Command::Fail { .. } => Ok(()),
        }
    }

    // The keys are those at the start of a block, and then those at its end.
    #[cycle(blocks)]
    fn check_block(&self, block: Block, keys: &mut Keys) -> Result<(), Fault>
        ensures { Leaves result keys.new (block_keys (scope_at self.now) self.now.depth (piece block.entry) keys.old) }
    {
        // each command says itself how long it is, so no iterator can step over them
        let mut rest = block;
        while let Some(first) = rest.first() {
            let (command, after) = first?;
            self.check_command(rest.place as u16, command, keys)?;
            rest = after;
        }
        Ok(())
    }
}

// The body of the running part leads from its stations in to its stations out.
pub(crate) fn check_body<'a>(scope: &'a Scope<'a>) -> Result<(), Fault>
    ensures { result ≡ check_body (scope_of scope.now) }
{
    let part = scope.running;
    let level = Level { scope, depth: 1 };
    let mut end = part.stations_in();
    level.check_block(scope.body(), &mut end)?;
    if end == part.stations_out() {
        Ok(())
    } else {
        Err(KeyCause::BodyEnd.at(part.place))
    }
}
