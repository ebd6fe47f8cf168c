// What a step does, and what a go answers. None of the cases is an error: a refused call answers an `Err` in their place.
#[derive(Clone, Copy, PartialEq, Eq, Debug)]
pub enum Outcome {
    // The command ran, with so many letters sent: one for a SEND or an ASK, else none.
    Ran(u8),
    // A cue of this number.
    Cued(u16),
    // A FAIL with its code, and its place in the script.
    Faulted { code: u8, place: u16 },
}

// Why a go stopped.
#[derive(Clone, Copy, PartialEq, Eq, Debug)]
pub enum Reason {
    // Nothing is left of the script.
    End,
    // As many steps are done as were asked for.
    Spent,
    // A cue of this number.
    Cue(u16),
    // A FAIL with its code, and its place in the script; every port was led away.
    Failed { code: u8, place: u16 },
}

// What a go answers: why it stopped, and how many steps it did and letters it sent.
#[derive(Clone, Copy, PartialEq, Eq, Debug)]
pub struct Report {
    pub reason: Reason,
    pub steps: u32,
    pub letters: u32,
}
