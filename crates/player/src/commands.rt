// One step: the first command of the topmost open block.
ghost use Rattle.std.specs.Prelude.{◌≡◌, ◌≤◌, [], Some, None, length, option_to_list};
ghost use Rattle.rules.specs.Script as rules;
ghost use Rattle.machine.specs.declared.report.Outcome.TheVariants.{Ran};
ghost use Rattle.machine.specs.Dialogue.{Plays};
ghost use Rattle.machine.specs.Player.{with_frames};
ghost use Rattle.machine.specs.Steps.{step};
ghost use Rattle.machine.proofs.Open.{Always};
ghost use Rattle.script.specs.Commands.{said};
ghost use Rattle.script.specs.Pieces.{piece};
ghost use Rattle.player.specs.Loaded.{held};
ghost use Rattle.player.specs.Room.{Room};
ghost use Rattle.player.specs.Runs.{runs};
ghost use Rattle.player.specs.Seen.{seen};

use crate::loaded::Loaded;
use crate::open_blocks::Frame;
use crate::ports::{handed, port_of};
use crate::stage::Stage;
use device::Rig;
use machine::Outcome;
use protocol::Entry;
use script::{Block, Command};

// What a command did, and the letter that it sent.
#[derive(Clone, Copy)]
pub struct Step {
    pub outcome: Outcome,
    pub sent: Option<Entry>,
}

impl Step {
    fn silent(outcome: Outcome) -> Step
        ensures outcome { result.outcome ≡ outcome }
        ensures sent { result.sent ≡ None }
    {
        Step {
            outcome,
            sent: None,
        }
    }

    // A SEND or an ASK.
    fn told(entry: Entry) -> Step
        ensures outcome { result.outcome ≡ Ran 1 }
        ensures sent { result.sent ≡ Some entry }
    {
        Step {
            outcome: Outcome::Ran(1),
            sent: Some(entry),
        }
    }
}

impl<'a> Stage<'a> {
    // The command with which the topmost block begins, and what is left of the block behind it.
    #[inline(always)]
    fn run<R: Rig>(
        &mut self,
        loaded: &Loaded<'a>,
        rig: &mut R,
        place: u16,
        ports: [u8; 8],
        command: Command<'a>,
        rest: Block<'a>,
    ) -> Step
        requires few { Always (λ v. length v.1.frames ≤ 128) (runs (seen (held loaded.now) self.old) place ports (piece rest) (said command)) }
        ensures { Plays (runs (seen (held loaded.now) self.old) place ports (piece rest.entry) (said command.entry)) (R.Rig.ports rig.old) (option_to_list result.sent) (R.Rig.ports rig.new) (result.outcome, seen (held loaded.now) self.new) }
    {
        match command {
            Command::Send {
                handle,
                letter,
                register,
            } => {
                self.open.pass(rest);
                let entry = self.tell(loaded, rig, port_of(&ports, handle), letter);
                self.set_register(register, entry.answer);
                Step::told(entry)
            }
            Command::Ask {
                handle,
                letter,
                blocks,
            } => {
                self.open.pass(rest);
                let entry = self.tell(loaded, rig, port_of(&ports, handle), letter);
                self.open.push(Frame {
                    block: blocks.block(entry.answer),
                    ports,
                });
                Step::told(entry)
            }
            // it stays below its block, whose end comes back to it
            Command::Repeat { register, block } => {
                if self.register(register) == 0 {
                    self.open.pass(rest);
                } else {
                    self.open.push(Frame { block, ports });
                }
                Step::silent(Outcome::Ran(0))
            }
            Command::Run { part, bindings } => {
                self.open.pass(rest);
                self.open.push(Frame {
                    block: loaded.body(part),
                    ports: handed(&ports, bindings),
                });
                Step::silent(Outcome::Ran(0))
            }
            Command::Set { register, value } => {
                self.open.pass(rest);
                self.set_register(register, value);
                Step::silent(Outcome::Ran(0))
            }
            Command::Dec { register } => {
                self.open.pass(rest);
                self.set_register(register, self.register(register).saturating_sub(1));
                Step::silent(Outcome::Ran(0))
            }
            Command::Cue { number } => {
                self.open.pass(rest);
                Step::silent(Outcome::Cued(number))
            }
            Command::Fail { code } => {
                self.open.pass(rest);
                Step::silent(Outcome::Faulted { code, place })
            }
        }
    }

    // A block that does not begin with a command is the end; no passed script has one.
    fn stuck(&mut self) -> Step
        ensures outcome { result.outcome ≡ Ran 0 }
        ensures sent { result.sent ≡ None }
        ensures empty { (s : rules.Script) → seen s self.new ≡ with_frames (seen s self.old) [] }
        ensures room { (s : rules.Script) → Room s self.new }
    {
        self.open.clear();
        Step::silent(Outcome::Ran(0))
    }

    // Does nothing where no block is open.
    pub(crate) fn step<R: Rig>(&mut self, loaded: &Loaded<'a>, rig: &mut R) -> Step
        requires room { Room (held loaded.now) self.old }
        ensures plays { Plays (step (seen (held loaded.now) self.old)) (R.Rig.ports rig.old) (option_to_list result.sent) (R.Rig.ports rig.new) (result.outcome, seen (held loaded.now) self.new) }
        ensures room { Room (held loaded.now) self.new }
    {
        let Some(top) = self.open.top() else {
            return Step::silent(Outcome::Ran(0));
        };
        let Some(first) = top.block.first() else {
            return self.stuck();
        };
        let Ok((command, rest)) = first else {
            return self.stuck();
        };
        self.run(
            loaded,
            rig,
            top.block.place as u16,
            top.ports,
            command,
            rest,
        )
    }
}
