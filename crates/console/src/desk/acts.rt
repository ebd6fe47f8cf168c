// The calls of the player on the desk's rig, and a look at its ports.
ghost use Rattle.std.specs.Prelude.{◌≡◌, ◌≤◌, take, OnErr};
ghost use Rattle.player.specs.View.{view};
ghost use Rattle.console.specs.declared.answer.Answer.TheVariants.{Went, Struck};
ghost use Rattle.console.specs.Acts.{Acts, BeginsOn, GoesIn, GoesOn, LeavesLog, LeavesRig, StrikesIn, StrikesOn, entries_of, letters_in, room_of};
ghost use Rattle.console.specs.Answers.{ports_answer};
ghost use Rattle.console.specs.Held.{held_of};

use super::{Desk, ROOM};
use crate::answer::Answer;
use crate::ports::{by_port, port_lines};
use crate::stage::StageCommand;
use device::Rig;
use faults::Fault;
use machine::Report;
use player::Player;
use protocol::Entry;

// How many entries of the log are the answer's.
fn letters_in(answer: &Answer) -> usize
    ensures { result ≡ letters_in answer.now }
{
    match answer {
        Answer::Went(Ok(report)) => report.letters as usize,
        Answer::Struck(Ok(letters)) => *letters as usize,
        _ => 0,
    }
}

fn room_of(room: u16) -> usize
    ensures { result ≡ room_of room }
{
    let room = room as usize;
    if room <= ROOM { room } else { ROOM }
}

// A go whose log is so much of this one. By itself: put into the rest of the desk, its loop is slower by a tenth.
#[inline(never)]
fn go_in<R: Rig>(
    player: &mut Player<'_>,
    rig: &mut R,
    log: &mut [Entry; ROOM],
    steps: u32,
    room: usize,
) -> Result<Report, Fault>
    requires { room ≤ 4096 }
    ensures goes { GoesIn (view player.old) steps room (R.Rig.ports rig.old) result (take (letters_in (Went result)) log.new) (view player.new) (R.Rig.ports rig.new) }
    ensures refused { OnErr result (rig.new ≡ rig.old) }
    ensures unwritten { OnErr result (log.new ≡ log.old) }
{
    player.go(steps, rig, &mut log[..room])
}

// A strike whose log is so much of this one.
fn strike_in<R: Rig>(
    player: &mut Player<'_>,
    rig: &mut R,
    log: &mut [Entry; ROOM],
    room: usize,
) -> Result<u32, Fault>
    requires { room ≤ 4096 }
    ensures strikes { StrikesIn (view player.old) room (R.Rig.ports rig.old) result (take (letters_in (Struck result)) log.new) (view player.new) (R.Rig.ports rig.new) }
    ensures refused { OnErr result (rig.new ≡ rig.old) }
    ensures unwritten { OnErr result (log.new ≡ log.old) }
{
    player.strike(rig, &mut log[..room])
}

impl<'a> Desk<'a> {
    // The answer to a command in the line of that number. Nothing is borrowed from the line.
    pub fn act(&mut self, number: u64, command: StageCommand) -> Answer
        ensures acts { Acts number (held_of self.old) command result (entries_of self.new result) (held_of self.new) }
        ensures rig { LeavesRig result self.old.rig self.new.rig }
        ensures log { LeavesLog result self.old.log self.new.log }
    {
        match command {
            StageCommand::Player => {
                self.player = Player::new();
                Answer::Player
            }
            StageCommand::Begin => self.begin(number),
            StageCommand::Go { steps, room } => self.go(number, steps, room_of(room)),
            StageCommand::Look(port) => Answer::Looked(self.player.look(port)),
            StageCommand::Strike { room } => self.strike(number, room_of(room)),
            StageCommand::Ports => self.ports(number),
        }
    }

    // The entries of an answer to the last command.
    pub fn entries(&self, answer: &Answer) -> &[Entry]
        ensures { result.now ≡ entries_of self.now answer.now }
    {
        let letters = letters_in(answer);
        if letters <= ROOM {
            &self.log[..letters]
        } else {
            &self.log
        }
    }

    fn begin(&mut self, number: u64) -> Answer
        ensures begins { BeginsOn number (held_of self.old) (held_of self.old).rig result (entries_of self.new result) (held_of self.new) }
        ensures rig { LeavesRig result self.old.rig self.new.rig }
        ensures log { LeavesLog result self.old.log self.new.log }
    {
        match &self.rig {
            Some(rig) => Answer::Begun(self.player.begin(&self.script, rig)),
            None => Answer::NotUnderstood(number),
        }
    }

    fn go(&mut self, number: u64, steps: u32, room: usize) -> Answer
        requires { room ≤ 4096 }
        ensures goes { GoesOn number (held_of self.old) steps room (held_of self.old).rig result (entries_of self.new result) (held_of self.new) }
        ensures rig { LeavesRig result self.old.rig self.new.rig }
        ensures log { LeavesLog result self.old.log self.new.log }
    {
        match &mut self.rig {
            Some(rig) => Answer::Went(go_in(&mut self.player, rig, &mut self.log, steps, room)),
            None => Answer::NotUnderstood(number),
        }
    }

    fn strike(&mut self, number: u64, room: usize) -> Answer
        requires { room ≤ 4096 }
        ensures strikes { StrikesOn number (held_of self.old) room (held_of self.old).rig result (entries_of self.new result) (held_of self.new) }
        ensures rig { LeavesRig result self.old.rig self.new.rig }
        ensures log { LeavesLog result self.old.log self.new.log }
    {
        match &mut self.rig {
            Some(rig) => Answer::Struck(strike_in(&mut self.player, rig, &mut self.log, room)),
            None => Answer::NotUnderstood(number),
        }
    }

    // What the ports show, if there is a rig.
    fn ports(&self, number: u64) -> Answer
        ensures shown { result ≡ ports_answer number (held_of self.now).rig }
        ensures letters { letters_in result ≡ 0 }
    {
        match &self.rig {
            Some(rig) => Answer::Ports(by_port(&port_lines(rig))),
            None => Answer::NotUnderstood(number),
        }
    }
}
