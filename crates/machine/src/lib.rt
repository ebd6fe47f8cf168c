// The player as a definition: its machine, its calls and runs of calls, and that every run keeps the protocols of its ports.
#![tactic(auto)]

ghost use Rattle.machine.specs.Evening.{Evening};
ghost use Rattle.machine.specs.Examples.{Examples};
ghost use Rattle.machine.specs.Going.{AnswersSettle};
ghost use Rattle.machine.specs.Promise.{RunsKeepProtocols};
ghost use Rattle.machine.specs.Refusals.{Refusals};

mod report;

pub use report::{Outcome, Reason, Report};

// Every run of calls, from a new player on a rig whose ports are all away, keeps the protocols of its ports,
// whatever the devices answer.
pub fn runs_keep_protocols()
    ensures { RunsKeepProtocols }
{}

// There is such a run, with a go that fails, a second begin and a strike.
pub fn evening_runs()
    ensures { Evening }
{}

// The worked examples hold of the definitions: scripts that are checked, begun and gone through.
pub fn examples_hold()
    ensures { Examples }
{}

// Each refusal of a call, by its number and place, in a case where it applies.
pub fn refusals_hold()
    ensures { Refusals }
{}

// What a go comes to is settled by the answers that the devices chose.
pub fn answers_settle()
    ensures { AnswersSettle }
{}
