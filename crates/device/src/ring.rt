// The last pairs of letter and answer, in a ring.
ghost use Rattle.std.specs.Prelude.{◌≡◌, ◌≤◌, [], ◌∷◌, ◌++◌, length};
ghost use Rattle.std.specs.List.{slice_get};
ghost use Rattle.device.specs.Rings.{last};

use arrayvec::ArrayVec;
use std::marker::Model;

const ROOM: usize = 32;

#[derive(Clone, Copy, PartialEq, Eq, Debug, Default)]
pub struct Pair {
    pub letter: u8,
    pub answer: u8,
}

// Once it is full, a pair takes the place of the oldest.
#[derive(Drop)]
pub struct Ring {
    pairs: ArrayVec<Pair, ROOM>,
    oldest: usize,
}

// Clauses see the pairs, oldest first.
impl Model for Ring {
    ghost use Rattle.std.specs.Prelude.{List};
    ghost use Rattle.device.specs.declared.ring.Pair.{Pair};
    ghost use Rattle.device.specs.Rings.{IsRing, from_place};

    ghost Value = { List Pair };

    ghost view = { λ r. from_place r.oldest r.pairs.items };

    ghost invariant = { λ r. IsRing 32 r.oldest r.pairs.items };
}

impl Ring {
    pub fn new() -> Ring
        ensures { result ≡ [] }
    {
        Ring {
            pairs: ArrayVec::new(),
            oldest: 0,
        }
    }

    // In constant time.
    pub fn push(&mut self, pair: Pair)
        ensures { self.new ≡ last 32 (self.old ++ (pair ∷ [])) }
    {
        if self.pairs.is_full() {
            self.pairs[self.oldest] = pair;
            self.oldest = (self.oldest + 1) % ROOM;
        } else {
            self.pairs.push(pair);
        }
    }

    pub fn count(&self) -> u8
        ensures value { result ≡ length self.now }
        ensures few { result ≤ 32 }
    {
        self.pairs.len() as u8
    }

    // The pair at this place, from the oldest on.
    pub fn pair(&self, place: u8) -> Option<Pair>
        ensures { result ≡ slice_get self.now place }
    {
        let place = place as usize;
        if place < self.pairs.len() {
            // until it is full, the oldest is the first: `% len()` would be the same, and divide
            Some(self.pairs[(self.oldest + place) % ROOM])
        } else {
            None
        }
    }
}
