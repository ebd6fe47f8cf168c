// A layer over a device that keeps the last letters and answers.
ghost use Rattle.std.specs.Prelude.{◌≡◌, ◌≤◌, [], ◌∷◌, ◌++◌, length};
ghost use Rattle.std.specs.List.{slice_get};
ghost use Rattle.device.specs.Meaning.{Hears};
ghost use Rattle.device.specs.Rings.{last};

use crate::device::Device;
use crate::ring::{Pair, Ring};
use protocol::EdgeTable;

#[derive(Drop)]
pub struct Trail<D> {
    below: D,
    ring: Ring,
    ghost few: { length ring ≤ 32 },
}

impl<D> Trail<D> {
    ghost use Rattle.device.specs.Trail.{trail_of};

    pub fn new(below: D) -> Trail<D>
        ensures below { result.below ≡ below }
        ensures empty { trail_of result ≡ [] }
    {
        Trail {
            below,
            ring: Ring::new(),
        }
    }

    // How many pairs it shows, at most 32.
    pub fn pairs(&self) -> u8
        ensures value { result ≡ length (trail_of self.now) }
        ensures few { result ≤ 32 }
    {
        self.ring.count()
    }

    // The pair at this place, from the oldest on.
    pub fn pair(&self, place: u8) -> Option<Pair>
        ensures { result ≡ slice_get (trail_of self.now) place }
    {
        self.ring.pair(place)
    }

    // The device below. (A trait for layers would save nothing: each would still write both bodies.)
    pub fn below(&self) -> &D
        ensures { result.now ≡ self.now.below }
    {
        &self.below
    }

    pub fn into_below(self) -> D
        ensures { result ≡ self.below }
    {
        self.below
    }
}

impl<D: Device> Device for Trail<D> {
    ghost use Rattle.device.specs.Trail.{trail_of};

    ghost meaning = { λ t. D.Device.meaning t.below };

    ghost lawful = { λ t. D.Device.lawful t.below };

    fn edge(&self, station: u8, letter: u8, answer: u8) -> Option<u8> {
        self.below.edge(station, letter, answer)
    }

    #[inline(never)]
    fn station(&self) -> u8 {
        self.below.station()
    }

    fn heard(&self) -> u32 {
        self.below.heard()
    }

    fn letter_fits(&self, letter: u8, table: &EdgeTable, named: u8) -> bool {
        self.below.letter_fits(letter, table, named)
    }

    fn has_table(&self, table: &EdgeTable) -> bool {
        self.below.has_table(table)
    }

    #[inline(never)]
    fn ask(&mut self, letter: u8) -> u8
        ensures hears { Hears (D.Device.meaning self.old.below) letter result (D.Device.meaning self.new.below) }
        ensures shows { trail_of self.new ≡ last 32 (trail_of self.old ++ (record { letter = letter; answer = result } ∷ [])) }
    {
        let answer = self.below.ask(letter);
        self.ring.push(Pair { letter, answer });
        answer
    }
}
