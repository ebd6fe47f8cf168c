// A lamp behind a dimmer: a small device, to be copied.
#![tactic(auto)]

ghost use Rattle.std.specs.Prelude.{◌≡◌, ◌<◌};
ghost use Rattle.dimmer.specs.Lamp.{dimmer_ranged, dimmer_table, level_after, reply_of};

use device::{Device, REFUSED, Tally};
use protocol::{AWAY, JAMMED};

// Stations besides away and jammed. They, letters and answers are numbers, as the formats have them and `ask` takes them.
pub const DARK: u8 = 1;

pub const LIT: u8 = 2;

// Letters.
pub const TAKE: u8 = 0;

pub const RELEASE: u8 = 1;

pub const BRIGHTER: u8 = 2;

pub const DARKER: u8 = 3;

// The answer of every letter, and the other one of brighter.
pub const DONE: u8 = 0;

pub const STAYS_DARK: u8 = 1;

// The level at which it is lit.
pub const FULL: u8 = 3;

// Its last letter and answer before it has heard one.
pub const NONE: u8 = 255;

#[derive(Drop)]
pub struct Dimmer {
    // first, so that the two bytes behind it need no room of their own
    tally: Tally,
    station: u8,
    level: u8,
    ghost standing: { station < 17 },
}

// Where an edge leads.
fn edge(station: u8, letter: u8, answer: u8) -> Option<u8>
    ensures { result ≡ dimmer_table station letter answer }
{
    match (station, letter, answer) {
        (AWAY, TAKE, DONE) => Some(DARK),
        (DARK | LIT, RELEASE, DONE) => Some(AWAY),
        (DARK, BRIGHTER, STAYS_DARK) => Some(DARK),
        (DARK | LIT, BRIGHTER, DONE) => Some(LIT),
        (LIT, DARKER, DONE) => Some(DARK),
        _ => None,
    }
}

// The level after a letter that was answered.
fn level_after(level: u8, letter: u8, answer: u8) -> u8
    ensures { result ≡ level_after level letter answer }
{
    match (letter, answer) {
        (BRIGHTER, DONE) => FULL,
        (BRIGHTER, _) => level.min(FULL - 2) + 1,
        _ => 0,
    }
}

impl Dimmer {
    pub fn new() -> Dimmer
        ensures away { result.station ≡ 0 }
        ensures heard { result.tally.heard ≡ 0 }
        ensures letter { result.tally.letter ≡ 255 }
        ensures answer { result.tally.answer ≡ 255 }
        ensures level { result.level ≡ 0 }
    {
        Dimmer {
            tally: Tally::new(NONE, NONE),
            station: AWAY,
            level: 0,
        }
    }

    pub fn level(&self) -> u8
        ensures { result ≡ self.now.level }
    {
        self.level
    }

    // Its answer, where the letter is allowed: a dark lamp is lit by the third brighter.
    fn reply(&self, letter: u8) -> u8
        ensures { result ≡ reply_of self.now.station self.now.level letter }
    {
        match (self.station, letter) {
            (DARK, BRIGHTER) if self.level < FULL - 1 => STAYS_DARK,
            _ => DONE,
        }
    }
}

impl Device for Dimmer {
    ghost use Rattle.device.specs.Meaning.{Hears};
    ghost use Rattle.dimmer.specs.Dimmer.{answer_of, dimmer_meaning};

    ghost meaning = { dimmer_meaning };

    ghost lawful = { λ d. record { ranged = dimmer_ranged; standing = d.standing; counted = d.tally.counted } };

    fn edge(&self, station: u8, letter: u8, answer: u8) -> Option<u8> {
        edge(station, letter, answer)
    }

    fn station(&self) -> u8 {
        self.station
    }

    fn heard(&self) -> u32 {
        self.tally.heard()
    }

    // The first clause is the trait's. Which declared answer it gives is the second.
    fn ask(&mut self, letter: u8) -> u8
        ensures hears { Hears (dimmer_meaning self.old) letter result (dimmer_meaning self.new) }
        ensures answer { result ≡ answer_of self.old letter }
    {
        let answer = self.reply(letter);
        match edge(self.station, letter, answer) {
            Some(station) => {
                self.station = station;
                self.level = level_after(self.level, letter, answer);
                self.tally.note(letter, answer);
                answer
            }
            None => {
                self.station = JAMMED;
                self.tally.note(letter, REFUSED);
                REFUSED
            }
        }
    }
}

#[cfg(test)]
mod tests;
