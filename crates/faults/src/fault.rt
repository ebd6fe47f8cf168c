// A refusal: its cause, its place and its number.
ghost use Rattle.std.specs.Prelude.{◌≡◌};
ghost use Rattle.faults.specs.Numbers.{number_of};

use crate::causes::{Cause, StageCause};

// The place of a refusal that has none: by the formats a place is always a number.
pub const NOWHERE: u16 = 65535;

#[derive(Clone, Copy, PartialEq, Eq, Debug)]
pub struct Fault {
    pub cause: Cause,
    pub place: u16,
}

impl Fault {
    // The number by which a refusal is known, 1 to 31.
    pub fn number(&self) -> u8
        ensures { result ≡ number_of self.now.cause }
    {
        match self.cause {
            Cause::Book(cause) => cause as u8,
            Cause::Layout(cause) => cause as u8,
            Cause::Keys(cause) => cause as u8,
            Cause::Stage(StageCause::BadMap) => StageCause::NoSuchPort as u8,
            Cause::Stage(cause) => cause as u8,
        }
    }

    // The byte offset or the port where the fault lies, or NOWHERE.
    pub fn place(&self) -> u16
        ensures { result ≡ self.now.place }
    {
        self.place
    }
}
