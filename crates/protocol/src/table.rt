// The edges of a protocol, to be looked up in constant time.
ghost use Rattle.std.specs.Prelude.{◌≡◌, ℕ, not, ◌&&◌, is_some, if◌then◌else◌, Some, None};
ghost use Rattle.protocol.specs.Tables.{allowed, edge_count, edge_in_range, leads, successors};
ghost use Rattle.protocol.specs.Slots.{table_in};

use crate::edges::Edge;
use crate::letter_edges::LetterEdges;

// By letter: two tables are compared letter by letter.
#[derive(Clone, Copy)]
pub struct EdgeTable {
    letters: [LetterEdges; 16],
}

impl EdgeTable {
    pub fn new() -> EdgeTable
        ensures { (s l a : ℕ) → table_in result s l a ≡ None }
    {
        EdgeTable {
            letters: [LetterEdges::new(); 16],
        }
    }

    // Where an edge leads; none outside the ranges.
    pub fn edge(&self, station: u8, letter: u8, answer: u8) -> Option<u8>
        ensures { result ≡ table_in self.now station letter answer }
    {
        self.letters.get(usize::from(letter))?.edge(station, answer)
    }

    // Where the answers 0 to 3 to a letter lead from a station.
    pub fn successors(&self, station: u8, letter: u8) -> [Option<u8>; 4]
        ensures { result ≡ successors (table_in self.now) station letter }
    {
        match self.letters.get(usize::from(letter)) {
            Some(edges) => edges.successors(station),
            None => [None; 4],
        }
    }

    // Whether the letter has an answer at the station.
    pub fn allowed(&self, station: u8, letter: u8) -> bool
        ensures { result ≡ allowed (table_in self.now) station letter }
    {
        self.successors(station, letter).iter().any(Option::is_some)
    }

    // How many edges the letter has; none outside the range.
    pub fn edge_count(&self, letter: u8) -> u8
        ensures { result ≡ edge_count (table_in self.now) letter }
    {
        match self.letters.get(usize::from(letter)) {
            Some(edges) => edges.count(),
            None => 0,
        }
    }

    // Takes in an edge that is in range and new; any other changes nothing. True where it was taken in, as of a set's
    // `insert`.
    pub fn declare(&mut self, edge: Edge) -> bool
        ensures answer { result ≡ (edge_in_range edge && not (is_some (table_in self.old edge.from edge.letter edge.answer))) }
        ensures after { (s l a : ℕ) → table_in self.new s l a ≡ (if result && leads edge s l a then Some edge.to else table_in self.old s l a) }
    {
        if !edge.in_range() || self.edge(edge.from, edge.letter, edge.answer).is_some() {
            return false;
        }
        self.letters[usize::from(edge.letter)].declare(edge.from, edge.answer, edge.to);
        true
    }
}
