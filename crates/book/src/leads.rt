// Where all the answers to a letter lead, kept so that no one has to look them up answer by answer.
ghost use Rattle.std.specs.Prelude.{◌≡◌, ℕ, ◌+◌, ◌*◌, ◌<◌, ◌&&◌, if◌then◌else◌, nat_eq};
ghost use Rattle.book.specs.Leads.{joined_with, leads_in, shown, slot_of};
ghost use Rattle.book.specs.declared.leads.Leads.TheVariants.{Nowhere as nowhere};

use protocol::{LETTERS, STATIONS};

// Where the declared answers to a letter lead.
#[derive(Clone, Copy, PartialEq, Eq, Debug)]
pub enum Leads {
    // none is declared
    Nowhere,
    // all to this station
    To(u8),
    // to more stations than one
    Apart,
}

// The same, while edges come. Which variant of the enum it is could not be foreseen then; these fields are joined without a jump.
#[derive(Clone, Copy)]
struct Joint {
    declared: bool,
    // they lead to more stations than one
    apart: bool,
    // where the last of them leads
    to: u8,
}

impl Joint {
    // All zeros: tables of it are cleared at once.
    fn new() -> Joint
        ensures { shown result ≡ nowhere }
    {
        Joint {
            declared: false,
            apart: false,
            to: 0,
        }
    }

    fn leads(self) -> Leads
        ensures { result ≡ shown self }
    {
        if !self.declared {
            Leads::Nowhere
        } else if self.apart {
            Leads::Apart
        } else {
            Leads::To(self.to)
        }
    }

    // With an answer more, which leads to the station.
    fn joined_with(self, to: u8) -> Joint
        ensures { shown result ≡ joined_with to (shown self) }
    {
        Joint {
            declared: true,
            apart: self.declared & (self.apart | (self.to != to)),
            to,
        }
    }
}

// By letter and station, in one row: the checker takes no array of arrays here.
#[derive(Clone, Copy)]
pub struct LeadsTable {
    row: [Joint; 256],
}

fn slot(station: u8, letter: u8) -> usize
    requires { (station < 16) × (letter < 16) }
    ensures value { result ≡ slot_of station letter }
    ensures within { result < 256 }
{
    16 * usize::from(letter) + usize::from(station)
}

impl LeadsTable {
    pub(crate) fn new() -> LeadsTable
        ensures { (s l : ℕ) → leads_in result s l ≡ nowhere }
    {
        LeadsTable {
            row: [Joint::new(); 256],
        }
    }

    // Nowhere outside the ranges.
    pub(crate) fn leads(&self, station: u8, letter: u8) -> Leads
        ensures { result ≡ leads_in self.now station letter }
    {
        if station < STATIONS && letter < LETTERS {
            self.row[slot(station, letter)].leads()
        } else {
            Leads::Nowhere
        }
    }

    // Takes in an answer to the letter at the station, which leads to the other.
    pub(crate) fn join(&mut self, station: u8, letter: u8, to: u8)
        requires { (station < 16) × (letter < 16) }
        ensures { (s l : ℕ) → leads_in self.new s l ≡ (if nat_eq station s && nat_eq letter l then joined_with to (leads_in self.old s l) else leads_in self.old s l) }
    {
        let slot = slot(station, letter);
        self.row[slot] = self.row[slot].joined_with(to);
    }
}
