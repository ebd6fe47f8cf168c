// A kind of device as an automaton, by tables.
ghost use Rattle.std.specs.Prelude.{◌≡◌, ℕ, ◌+◌, ◌≤◌, not, ◌&&◌, is_some, if◌then◌else◌, Some, ◌==◌};
ghost use Rattle.protocol.specs.Slots.{table_in};
ghost use Rattle.protocol.specs.Tables.{edge_in_range, leads, successors};
ghost use Rattle.book.specs.Kinds.{falls, nearer, rank_of, retreat_in_range};
ghost use Rattle.book.specs.Leads.{joint, leads_in};

use crate::leads::{Leads, LeadsTable};
use arrayvec::ArrayVec;
use protocol::{ANSWERS, Edge, EdgeTable, LETTERS, STATIONS};

// Ranks are 0 to 15.
const RANKS: u8 = 16;

// The letter that leads a station towards away, and a bound on how many letters it takes from there.
#[derive(Clone, Copy, Default, PartialEq, Eq, Debug)]
pub struct Retreat {
    pub station: u8,
    pub letter: u8,
    pub rank: u8,
}

impl Retreat {
    pub(crate) fn in_range(&self) -> bool
        ensures { result ≡ retreat_in_range self.now }
    {
        (1..STATIONS).contains(&self.station)
            && self.letter < LETTERS
            && (1..RANKS).contains(&self.rank)
    }
}

#[derive(Clone, Copy)]
pub struct Automaton {
    pub edges: EdgeTable,
    // joined as the edges come
    leads: LeadsTable,
    // by station
    pub retreats: [Option<Retreat>; 16],
    ghost joined: { (s l : ℕ) → leads_in leads s l ≡ joint (successors (table_in edges) s l) },
}

// By the numbers of their kinds.
pub type Automata = ArrayVec<Automaton, 8>;

// By hand: its contract says that there are no edges and no retreats, where a derived one would list field values.
impl Default for Automaton {
    ghost use Rattle.book.specs.Automata.{IsEmpty};

    ghost is_default = { IsEmpty };

    fn default() -> Automaton {
        Automaton {
            edges: EdgeTable::new(),
            leads: LeadsTable::new(),
            retreats: [None; 16],
        }
    }
}

impl Automaton {
    ghost use Rattle.book.specs.Automata.{edges_of, retreat_count, retreats_of};

    pub(crate) fn retreat(&self, station: u8) -> Option<Retreat>
        ensures { result ≡ retreats_of self.now station }
    {
        *self.retreats.get(usize::from(station))?
    }

    // The rank of a station; 0 at away, and where there is no retreat, as the definition has it.
    fn rank(&self, station: u8) -> u8
        ensures { result ≡ rank_of (retreats_of self.now station) }
    {
        self.retreat(station).map_or(0, |retreat| retreat.rank)
    }

    fn nears(&self, retreat: Retreat, answer: u8) -> bool
        ensures { result ≡ nearer (retreats_of self.now) retreat (edges_of self.now retreat.station retreat.letter answer) }
    {
        self.edges
            .edge(retreat.station, retreat.letter, answer)
            .is_none_or(|to| self.rank(to) < retreat.rank)
    }

    // The letter is allowed, and every answer to it leads to a smaller rank.
    pub(crate) fn falls(&self, retreat: Retreat) -> bool
        ensures { result ≡ falls (edges_of self.now) (retreats_of self.now) retreat }
    {
        self.edges.allowed(retreat.station, retreat.letter)
            && (0..ANSWERS).all(|answer| self.nears(retreat, answer))
    }

    // Where all the answers to a letter lead; nowhere outside the ranges.
    pub(crate) fn leads(&self, station: u8, letter: u8) -> Leads
        ensures { result ≡ joint (successors (edges_of self.now) station letter) }
    {
        self.leads.leads(station, letter)
    }

    // Takes in an edge as a table does.
    pub(crate) fn add_edge(&mut self, edge: Edge) -> bool
        ensures answer { result ≡ (edge_in_range edge && not (is_some (edges_of self.old edge.from edge.letter edge.answer))) }
        ensures after { (s l a : ℕ) → edges_of self.new s l a ≡ (if result && leads edge s l a then Some edge.to else edges_of self.old s l a) }
        ensures retreats { self.new.retreats ≡ self.old.retreats }
    {
        let new = self.edges.declare(edge);
        if new {
            self.leads.join(edge.from, edge.letter, edge.to);
        }
        new
    }

    // Takes in a retreat that is in range and new; any other changes nothing. True where it was taken in, as of a set's
    // `insert`.
    pub(crate) fn add_retreat(&mut self, retreat: Retreat) -> bool
        ensures answer { result ≡ (retreat_in_range retreat && not (is_some (retreats_of self.old retreat.station))) }
        ensures edges { self.new.edges ≡ self.old.edges }
        ensures after { (s : ℕ) → retreats_of self.new s ≡ (if result && retreat.station == s then Some retreat else retreats_of self.old s) }
        ensures counted { retreat_count self.new ≡ retreat_count self.old + (if result then 1 else 0) }
        ensures few { retreat_count self.new ≤ 16 }
    {
        let new = retreat.in_range() && self.retreat(retreat.station).is_none();
        if new {
            self.retreats[usize::from(retreat.station)] = Some(retreat);
        }
        new
    }
}
