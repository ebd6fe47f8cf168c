// A simulated projector.
ghost use Rattle.std.specs.Prelude.{◌<◌};

use crate::tally::Tally;

#[derive(Drop)]
pub struct Projector<'a> {
    // what it will answer to the lamp's letter
    replies: &'a [u8],
    station: u8,
    tally: Tally,
    ghost standing: { station < 17 },
}

mod asked;
