// The patch as a device: a letter that is allowed goes down renamed, any other stays here and jams the patch.
ghost use Rattle.std.specs.Prelude.{◌≡◌, false};
ghost use Rattle.device.specs.Kept.{patch_lawful};
ghost use Rattle.device.specs.Meaning.{Hears};
ghost use Rattle.device.specs.Patch.{HeardBelow, passed, patch_meaning, patched};

use super::Patch;
use crate::answers::REFUSED;
use crate::device::Device;
use crate::letter_map::LetterMap;
use crate::tally::Tally;
use protocol::{EdgeTable, JAMMED};

impl<D: Device> Patch<D> {
    pub fn new(map: LetterMap, below: D) -> Patch<D>
        ensures first { patch_meaning D.Device.meaning result ≡ patched map false 0 0 0 (D.Device.meaning below) }
        ensures below { result.below ≡ below }
    {
        Patch {
            map,
            below,
            stuck: false,
            tally: Tally::new(0, 0),
        }
    }

    // The device below. (As of `Trail`, and for the same reason.)
    pub fn below(&self) -> &D
        ensures { result.now ≡ self.now.below }
    {
        &self.below
    }

    pub fn into_below(self) -> D
        ensures { result ≡ self.below }
    {
        self.below
    }

    // The letter that goes down for this one; none where it stays here.
    fn passes(&self, letter: u8) -> Option<u8>
        ensures { result ≡ passed D.Device.meaning self.now letter }
    {
        if self.stuck {
            return None;
        }
        self.map
            .down(letter)
            .filter(|below| self.below.allows(*below))
    }
}

impl<D: Device> Device for Patch<D> {
    ghost meaning = { patch_meaning D.Device.meaning };

    ghost lawful = { λ p. patch_lawful p.map p.stuck p.tally.heard p.tally.letter p.tally.answer (D.Device.meaning p.below) (D.Device.lawful p.below) p.tally.counted };

    fn edge(&self, station: u8, letter: u8, answer: u8) -> Option<u8> {
        let below = self.map.down(letter)?;
        self.below.edge(station, below, answer)
    }

    #[inline(never)]
    fn station(&self) -> u8 {
        if self.stuck {
            JAMMED
        } else {
            self.below.station()
        }
    }

    fn heard(&self) -> u32 {
        self.tally.heard()
    }

    fn letter_fits(&self, letter: u8, table: &EdgeTable, named: u8) -> bool {
        match self.map.down(letter) {
            Some(below) => self.below.letter_fits(below, table, named),
            None => table.edge_count(named) == 0,
        }
    }

    #[inline(never)]
    fn ask(&mut self, letter: u8) -> u8
        ensures hears { Hears (patch_meaning D.Device.meaning self.old) letter result (patch_meaning D.Device.meaning self.new) }
        ensures map { self.new.map ≡ self.old.map }
        ensures below { HeardBelow D.Device.meaning (passed D.Device.meaning self.old letter) self.old.below result self.new.below }
    {
        match self.passes(letter) {
            Some(below) => {
                let answer = self.below.ask(below);
                self.tally.note(letter, answer);
                answer
            }
            None => {
                self.stuck = true;
                self.tally.note(letter, REFUSED);
                REFUSED
            }
        }
    }
}
