// What every device shows, and what it means.
ghost use Rattle.std.specs.Prelude.{◌≡◌};
ghost use Rattle.protocol.specs.Slots.{table_in};
ghost use Rattle.protocol.specs.Tables.{allowed, same_answers, same_letter, same_table};
ghost use Rattle.device.specs.Meaning.{Hears, Lawful, Meaning};

use crate::lookup::{leads_on, same_successor};
use protocol::{ANSWERS, EdgeTable, LETTERS, STATIONS};

pub trait Device {
    ghost meaning: { Self → Meaning };

    // Where an edge leads; none outside the ranges. No struct for the three: callers hold station and letter apart and try each answer.
    fn edge(&self, station: u8, letter: u8, answer: u8) -> Option<u8>
        ensures { result ≡ (meaning self.now).table station letter answer };

    // 0 to 15, or 16 where it is jammed.
    fn station(&self) -> u8
        ensures { result ≡ (meaning self.now).station };

    // How many letters it has heard, modulo 2^32.
    fn heard(&self) -> u32
        ensures { result ≡ (meaning self.now).heard };

    // Sends a letter: one declared answer, or 255 and the device is jammed.
    fn ask(&mut self, letter: u8) -> u8
        ensures { Hears (meaning self.old) letter result (meaning self.new) };

    // Whether a letter has the edges here that another letter has in the table: the letter itself, or where it was renamed
    // the one that it stands for. To write it is no duty: a device that lists its edges, or asks the one below, is faster.
    fn letter_fits(&self, letter: u8, table: &EdgeTable, named: u8) -> bool
        ensures { result ≡ same_letter (meaning self.now).table letter (table_in table.now) named }
    {
        (0..STATIONS).all(|station| {
            (0..ANSWERS).all(|answer| {
                let here = self.edge(station, letter, answer);
                let there = table.edge(station, named, answer);
                same_successor(here, there)
            })
        })
    }

    // Whether its table is the one given. (Again no duty.)
    fn has_table(&self, table: &EdgeTable) -> bool
        ensures { result ≡ same_table (meaning self.now).table (table_in table.now) }
    {
        (0..LETTERS).all(|letter| self.letter_fits(letter, table, letter))
    }

    // What each device proves of its own meaning.
    ghost lawful: { (d : Self) → Lawful (meaning d) };

    // Whether the letter has an answer where the device stands.
    final fn allows(&self, letter: u8) -> bool
        ensures { result ≡ allowed (meaning self.now).table (meaning self.now).station letter }
    {
        let station = self.station();
        (0..ANSWERS).any(|answer| leads_on(self.edge(station, letter, answer)))
    }
}
