// Why the program ends without success, in words.
ghost use Rattle.std.specs.Prelude.{◌≡◌};
ghost use Rattle.surtitle.specs.declared.failure.Failure.TheVariants.{Io, Refused};
ghost use Rattle.surtitle.specs.Failures.{failure_text};

use faults::Fault;
use std::{fmt, io};

// What thiserror derives has no contract: the text and the conversions are written out.
#[derive(Drop)]
pub enum Failure {
    Usage,
    Refused(Fault),
    Io(io::Error),
}

impl fmt::Display for Failure {
    ghost output = { λ f. failure_text f };

    fn fmt<W: fmt::Write>(&self, f: &mut fmt::Formatter<W>) -> fmt::Result {
        match self {
            Failure::Usage => write!(
                f,
                "usage: surtitle [check BOOK [SCRIPT] | play BOOK SCRIPT DEVICE .. | evening]"
            ),
            Failure::Refused(fault) => write!(f, "{fault}"),
            Failure::Io(error) => write!(f, "{error}"),
        }
    }
}

impl From<Fault> for Failure {
    ghost from_gives = { λ fault r. r ≡ Refused fault };

    fn from(refusal: Fault) -> Failure {
        Failure::Refused(refusal)
    }
}

impl From<io::Error> for Failure {
    ghost from_gives = { λ e r. r ≡ Io e };

    fn from(error: io::Error) -> Failure {
        Failure::Io(error)
    }
}
