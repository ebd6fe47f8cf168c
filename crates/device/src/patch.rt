// A layer over a device that renames letters.
use crate::letter_map::LetterMap;
use crate::tally::Tally;

#[derive(Drop)]
pub struct Patch<D> {
    map: LetterMap,
    below: D,
    // it heard a letter that was not allowed, which the device below never heard; no value goes with it
    stuck: bool,
    tally: Tally,
}

mod renaming;
