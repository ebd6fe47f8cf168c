// The edges of a letter are looked up and declared.
ghost use Rattle.std.specs.Prelude.{◌≡◌, ℕ, ◌<◌, [], ◌∷◌, ◌&&◌, if◌then◌else◌, count_by, is_some, length, Some, None, nat_eq};
ghost use Rattle.protocol.specs.Slots.{led_in, slot_of};

use super::LetterEdges;
use crate::edges::{ANSWERS, STATIONS};

fn slot(station: u8, answer: u8) -> usize
    requires { (station < 16) × (answer < 4) }
    ensures value { result ≡ slot_of station answer }
    ensures within { result < 64 }
{
    4 * usize::from(station) + usize::from(answer)
}

impl LetterEdges {
    pub(crate) fn new() -> LetterEdges
        ensures { (s a : ℕ) → led_in result s a ≡ None }
    {
        LetterEdges {
            to: [None; 64],
            count: 0,
        }
    }

    pub(crate) fn count(&self) -> u8
        ensures value { result ≡ count_by is_some self.now.to }
        ensures room { length self.now.to ≡ 64 }
    {
        self.count
    }

    // Where the edge leads; none outside the ranges.
    pub(crate) fn edge(&self, station: u8, answer: u8) -> Option<u8>
        ensures { result ≡ led_in self.now station answer }
    {
        if station < STATIONS && answer < ANSWERS {
            self.to[slot(station, answer)]
        } else {
            None
        }
    }

    // Where the edges of a station lead, by their answers.
    pub(crate) fn successors(&self, station: u8) -> [Option<u8>; 4]
        ensures { result ≡ led_in self.now station 0 ∷ led_in self.now station 1 ∷ led_in self.now station 2 ∷ led_in self.now station 3 ∷ [] }
    {
        if station >= STATIONS {
            return [None; 4];
        }
        let first = slot(station, 0);
        [
            self.to[first],
            self.to[first + 1],
            self.to[first + 2],
            self.to[first + 3],
        ]
    }

    // Takes in an edge that is in range and new.
    pub(crate) fn declare(&mut self, station: u8, answer: u8, to: u8)
        requires in_range { (station < 16) × (answer < 4) }
        requires new { led_in self.old station answer ≡ None }
        ensures { (s a : ℕ) → led_in self.new s a ≡ (if nat_eq station s && nat_eq answer a then Some to else led_in self.old s a) }
    {
        self.to[slot(station, answer)] = Some(to);
        self.count += 1;
    }
}
