// Edges of a protocol, and letters as they were sent.
ghost use Rattle.std.specs.Prelude.{◌≡◌};
ghost use Rattle.protocol.specs.Tables.{edge_in_range};

// The station at which nobody holds the device.
pub const AWAY: u8 = 0;
// The station of a device that heard a letter that was not allowed: a number as the formats give it.
pub const JAMMED: u8 = 16;
// Stations are 0 to 15, letters 0 to 15, answers 0 to 3.
pub const STATIONS: u8 = 16;

pub const LETTERS: u8 = 16;

pub const ANSWERS: u8 = 4;

// At a station a letter may be answered so, and then leads on.
#[derive(Clone, Copy, PartialEq, Eq, Debug)]
pub struct Edge {
    pub from: u8,
    pub letter: u8,
    pub answer: u8,
    pub to: u8,
}

impl Edge {
    pub fn in_range(&self) -> bool
        ensures { result ≡ edge_in_range self.now }
    {
        self.from < STATIONS && self.letter < LETTERS && self.answer < ANSWERS && self.to < STATIONS
    }
}

// One letter that was sent: the port, the letter, its answer, and the station after it.
#[derive(Clone, Copy, PartialEq, Eq, Debug)]
pub struct Entry {
    pub port: u8,
    pub letter: u8,
    pub answer: u8,
    pub station: u8,
}
