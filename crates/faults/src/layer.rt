// The layers of causes: a cause of any layer makes a refusal, at a place.
ghost use Rattle.std.specs.Prelude.{◌≡◌};
ghost use Rattle.faults.specs.declared.causes.Cause.{Cause};
ghost use Rattle.faults.specs.declared.causes.Cause.TheVariants.{Book, Keys, Layout, Stage};

use crate::causes::{BookCause, Cause, KeyCause, LayoutCause, StageCause};
use crate::fault::Fault;

pub trait Layer: Into<Cause> {
    ghost cause: { Self → Cause };

    final fn at(self, place: u16) -> Fault
    where
        Self: Sized,
        ensures { result ≡ record { cause = cause self; place = place } }
    {
        Fault {
            cause: self.into(),
            place,
        }
    }

    // `into` gives exactly that cause.
    ghost sole: { (c : Self) (r : Cause) → Self.converts c r → r ≡ cause c };
}

impl Layer for BookCause {
    ghost cause = { Book };

    ghost sole = { λ c r e. e };
}

impl Layer for LayoutCause {
    ghost cause = { Layout };

    ghost sole = { λ c r e. e };
}

impl Layer for KeyCause {
    ghost cause = { Keys };

    ghost sole = { λ c r e. e };
}

impl Layer for StageCause {
    ghost cause = { Stage };

    ghost sole = { λ c r e. e };
}
