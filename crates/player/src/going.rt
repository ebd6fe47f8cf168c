// Going: step after step, until nothing is left, the steps are spent, or a command stops it.
ghost use Rattle.std.specs.Prelude.{◌≡◌, ◌+◌, ◌<◌, ◌≤◌, ◌++◌, drop, length, option_to_list, take};
ghost use Rattle.machine.specs.Calls.{written};
ghost use Rattle.player.specs.Loaded.{held};
ghost use Rattle.player.specs.Room.{Room};
ghost use Rattle.player.specs.Seen.{seen};
ghost use Rattle.player.specs.Told.{Went};

use crate::loaded::Loaded;
use crate::stage::Stage;
use device::Rig;
use machine::{Outcome, Reason, Report};
use protocol::Entry;

impl<'a> Stage<'a> {
    pub(crate) fn go_on<R: Rig>(
        &mut self,
        loaded: &Loaded<'a>,
        n: u32,
        rig: &mut R,
        log: &mut [Entry],
    ) -> Report
        requires few { n ≤ 1000 }
        requires log { n + 120 ≤ length log.old }
        requires room { Room (held loaded.now) self.old }
        ensures went { Went n (seen (held loaded.now) self.old) (R.Rig.ports rig.old) log.old result (seen (held loaded.now) self.new) (R.Rig.ports rig.new) log.new }
        ensures room { Room (held loaded.now) self.new }
    {
        let mut steps: u32 = 0;
        let mut letters: usize = 0;
        loop {
            self.open.unwind();
            if self.open.is_empty() {
                self.finish();
                return report(Reason::End, steps, letters);
            }
            if steps == n {
                return report(Reason::Spent, steps, letters);
            }
            let step = self.step(loaded, rig);
            letters = note(log, letters, step.sent);
            steps += 1;
            match step.outcome {
                Outcome::Ran(_) => {}
                Outcome::Cued(number) => return report(Reason::Cue(number), steps, letters),
                Outcome::Faulted { code, place } => {
                    letters += self.fault_exit(loaded, rig, &mut log[letters..]);
                    return report(Reason::Failed { code, place }, steps, letters);
                }
            }
        }
    }
}

// Writes the letter of a step behind the others, and counts it.
fn note(log: &mut [Entry], letters: usize, sent: Option<Entry>) -> usize
    requires { letters < length log.old }
    ensures count { result ≡ letters + length (option_to_list sent) }
    ensures few { result ≤ letters + 1 }
    ensures noted { log.new ≡ take letters log.old ++ written (option_to_list sent) (drop letters log.old) }
{
    match sent {
        Some(entry) => {
            log[letters] = entry;
            letters + 1
        }
        None => letters,
    }
}

fn report(reason: Reason, steps: u32, letters: usize) -> Report
    requires { letters ≤ 1120 }
    ensures { result ≡ record { reason = reason; steps = steps; letters = letters } }
{
    Report {
        reason,
        steps,
        letters: letters as u32,
    }
}
