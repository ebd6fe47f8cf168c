// Many calls, one after the other.
ghost use Rattle.std.specs.Prelude.{◌≡◌, ◌+◌, ◌≤◌, map, length, take, vec_items, OnOk, OnErr};
ghost use Rattle.machine.specs.Runs.{Does, joins};
ghost use Rattle.player.specs.Performing.{Answers, Leaves, Makes, Performed, longest_log, request};
ghost use Rattle.player.specs.View.{scene, view};

use crate::player::Player;
use device::Rig;
use faults::Fault;
use machine::Report;
use protocol::Entry;
use script::Script;
use std::alloc::{AllocError, Global};

// One call of a player. The scripts and all that they borrow have one lifetime.
#[derive(Clone, Copy)]
pub enum Call<'a> {
    Begin(&'a Script<'a>),
    // at most so many steps
    Go(u32),
    // at a port
    Look(u8),
    Strike,
}

// What a call answers.
#[derive(Clone, Copy, PartialEq, Eq, Debug)]
pub enum Answer {
    Begun(Result<u8, Fault>),
    Went(Result<Report, Fault>),
    // the station of the port, and whether the player is over
    Looked(Result<(u8, bool), Fault>),
    // so many letters
    Struck(Result<u32, Fault>),
}

// What the calls answered, and the joined log: the entries of each go and strike, in the order of the calls.
#[derive(Drop)]
pub struct Performance {
    pub answers: Vec<Answer>,
    pub log: Vec<Entry>,
}

// The entries of the longest log that a call may need.
const ROOM: usize = 1120;

const BLANK: Entry = Entry {
    port: 0,
    letter: 0,
    answer: 0,
    station: 0,
};

impl Answer {
    ghost use Rattle.player.specs.Performing.{letters_in};

    // How many entries the call wrote.
    fn letters(&self) -> usize
        ensures { result ≡ letters_in self.now }
    {
        match self {
            Answer::Went(Ok(report)) => report.letters as usize,
            Answer::Struck(Ok(letters)) => *letters as usize,
            _ => 0,
        }
    }
}

impl<'a> Player<'a> {
    ghost use Rattle.player.specs.Performing.{letters_in};

    fn answer<R: Rig>(&mut self, rig: &mut R, call: Call<'a>, log: &mut [Entry]) -> Answer
        requires { longest_log ≤ length log.old }
        ensures answers { Answers (scene self.old (R.Rig.ports rig.old)) (request call.entry) result (take (letters_in result) log.new) (scene self.new (R.Rig.ports rig.new)) }
        ensures few { letters_in result ≤ length log.new }
        ensures leaves { Leaves result rig.old rig.new }
    {
        match call {
            Call::Begin(script) => Answer::Begun(self.begin(script, rig)),
            Call::Go(steps) => Answer::Went(self.go(steps, rig, log)),
            Call::Look(port) => Answer::Looked(self.look(port)),
            Call::Strike => Answer::Struck(self.strike(rig, log)),
        }
    }
}

impl Performance {
    // Makes a call, unless there is no memory for what it may answer.
    fn make<'a, R: Rig>(
        &mut self,
        player: &mut Player<'a>,
        rig: &mut R,
        call: Call<'a>,
        log: &mut [Entry],
    ) -> Result<(), AllocError>
        requires { longest_log ≤ length log.old }
        ensures made { OnOk result (Makes self.old (scene player.old (R.Rig.ports rig.old)) rig.old (request call.entry) self.new (scene player.new (R.Rig.ports rig.new)) rig.new) }
        ensures kept { OnErr result ((vec_items self.new.answers ≡ vec_items self.old.answers) × (vec_items self.new.log ≡ vec_items self.old.log) × (view player.new ≡ view player.old) × (rig.new ≡ rig.old)) }
    {
        self.answers.reserve(1)?;
        self.log.reserve(log.len())?;
        let answer = player.answer(rig, call, log);
        self.answers.push_reserved(answer);
        self.log.extend_from_slice(&log[..answer.letters()])
    }
}

// Makes the calls one after the other, from a new player. Where memory does not suffice it ends between two calls.
pub fn perform<'a, R: Rig>(
    heap: Global,
    rig: &mut R,
    calls: &[Call<'a>],
) -> (Performance, Result<(), AllocError>)
    ensures { Performed R.Rig.ports rig.old (map request calls.now) result.0 result.1 rig.new }
{
    let mut player = Player::new();
    let mut show = Performance {
        answers: Vec::new(heap),
        log: Vec::new(heap),
    };
    let mut log = [BLANK; ROOM];
    for call in calls {
        if let Err(error) = show.make(&mut player, rig, *call, &mut log) {
            return (show, Err(error));
        }
    }
    (show, Ok(()))
}
