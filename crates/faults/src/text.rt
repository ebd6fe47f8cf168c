// A refusal in words.
ghost use Rattle.std.specs.Prelude.{◌≡◌, Some};
ghost use Rattle.faults.specs.Texts.{reason_of, text_of};

use crate::causes::{BookCause, Cause, KeyCause, LayoutCause, StageCause};
use crate::fault::{Fault, NOWHERE};
use std::fmt;

impl Fault {
    // What is wrong, for a technician.
    pub fn reason(&self) -> &'static str
        ensures { result.now ≡ reason_of self.now.cause }
    {
        match self.cause {
            Cause::Book(cause) => cause.reason(),
            Cause::Layout(cause) => cause.reason(),
            Cause::Keys(cause) => cause.reason(),
            Cause::Stage(cause) => cause.reason(),
        }
    }
}

// One table for each enum; one for all of `Cause` would only be longer.
impl BookCause {
    fn reason(self) -> &'static str
        ensures { result.now ≡ reason_of (Cause.Book self) }
    {
        match self {
            BookCause::TooLong => "the book has more than 8192 bytes",
            BookCause::UnknownCommand => "this is no command of a book",
            BookCause::MissingOperands => "the book ends before the operands of this command do",
            BookCause::OutOfRange =>
                "an operand is out of range, the kind is not the next number, or no kind is declared yet",
            BookCause::DeclaredTwice =>
                "this kind has this edge, or a retreat of this station, already",
            BookCause::NoRetreat => "a station that an edge of this kind names has no retreat",
            BookCause::BadRetreat =>
                "the retreat letter is not allowed at its station, or an answer to it leads to a rank that is not smaller",
        }
    }
}

impl LayoutCause {
    fn reason(self) -> &'static str
        ensures { result.now ≡ reason_of (Cause.Layout self) }
    {
        match self {
            LayoutCause::TooLong => "the script has more than 16384 bytes",
            LayoutCause::NoPart => "no part begins here, or the script ends before its header does",
            LayoutCause::BadHeader =>
                "the header of this part is broken, its body runs past the end, or it is one part too many",
            LayoutCause::BadCommand =>
                "this is no command of a body, or its operands or blocks run past its block",
            LayoutCause::OutOfRange =>
                "a handle, letter, register, part number or binding is out of range",
            LayoutCause::TooDeep => "blocks stand too deep in each other",
        }
    }
}

impl KeyCause {
    fn reason(self) -> &'static str
        ensures { result.now ≡ reason_of (Cause.Keys self) }
    {
        match self {
            KeyCause::NotAllowed => "the letter is not allowed at the station of its handle",
            KeyCause::AnswersDiffer => "the answers to the letter lead to different stations",
            KeyCause::UndeclaredBlock =>
                "an answer that is not declared has a block that is not empty",
            KeyCause::EndsDiffer => "the blocks end with the handles at different stations",
            KeyCause::RepeatDiffers =>
                "the block ends with the handles at other stations than it began with",
            KeyCause::BoundTwice => "one handle is bound twice",
            KeyCause::BoundWrong => "a bound handle differs in kind or in station",
            KeyCause::BodyEnd => "the body does not end at the stations out of its part",
            KeyCause::MainHeld => "the last part has a station in or out that is not away",
        }
    }
}

impl StageCause {
    fn reason(self) -> &'static str
        ensures { result.now ≡ reason_of (Cause.Stage self) }
    {
        match self {
            StageCause::NotOver => "the player is not over",
            StageCause::OtherCount => "the rig has not as many ports as the last part has handles",
            StageCause::OtherTable => "the device of this port has not the table of its kind",
            StageCause::NotAway => "the device of this port is not away",
            StageCause::Over => "the player is over",
            StageCause::BadBudget => "the number of steps is 0 or above 1000",
            StageCause::ShortLog => "the log has too few entries",
            StageCause::RigChanged =>
                "the ports, or the table or station of one, are not as the player keeps them",
            StageCause::NoSuchPort => "the player has no such port",
            StageCause::BadMap => "the map of a patch is not sixteen letters or marks for none",
        }
    }
}

impl fmt::Display for Fault {
    ghost output = { λ f. Some (text_of f) };

    fn fmt<W: fmt::Write>(&self, f: &mut fmt::Formatter<W>) -> fmt::Result {
        let number = self.number();
        let reason = self.reason();
        let place = self.place;
        if place == NOWHERE {
            return write!(f, "refusal {number}: {reason}");
        }
        match self.cause {
            Cause::Stage(_) => write!(f, "refusal {number} at port {place}: {reason}"),
            _ => write!(f, "refusal {number} at byte {place}: {reason}"),
        }
    }
}
