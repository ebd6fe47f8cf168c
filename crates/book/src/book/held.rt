// The book that is held: at first empty and passed, later what its checks put in its place.
ghost use Rattle.std.specs.Prelude.{◌≡◌, ℕ, ◌≤◌, [], length, is_ok, is_some, if◌then◌else◌, Ok, MatchOption, OnErr, nat_lt};
ghost use Rattle.std.specs.Option.{option_map};
ghost use Rattle.protocol.specs.Slots.{table_in};
ghost use Rattle.protocol.specs.Tables.{successors, table_of};
ghost use Rattle.book.specs.Automata.{Shows};
ghost use Rattle.book.specs.Held.{bytes_of, kind_held, kinds_held, rank_held};
ghost use Rattle.book.specs.Kinds.{no_kind, retreat_of};
ghost use Rattle.book.specs.Leads.{joint};
ghost use Rattle.book.specs.Lawful.{BookDecides};
ghost use Rattle.book.specs.Home.{RetreatsLeadHome};
ghost use Rattle.book.specs.Reading.{read_book, verdict};

use super::Book;
use crate::automaton::{Automata, Automaton};
use crate::leads::Leads;
use crate::reader::Reader;
use faults::Fault;
use protocol::{AWAY, EdgeTable};

impl<'a> Book<'a> {
    // The empty book.
    pub fn new() -> Book<'a>
        ensures { bytes_of result ≡ [] }
    {
        Book {
            bytes: &[],
            kinds: Automata::new(),
        }
    }

    // Puts other bytes in the place of the held ones, or refuses and leaves the book as it was.
    pub fn check(&mut self, bytes: &'a [u8]) -> Result<(), Fault>
        ensures answer { result ≡ verdict (read_book bytes.now) }
        ensures held { bytes_of self.new ≡ (if is_ok result then bytes.now else bytes_of self.old) }
        ensures refused { OnErr result (self.new ≡ self.old) }
        ensures decides { BookDecides }
        ensures home { RetreatsLeadHome }
    {
        let mut reader = Reader::new();
        reader.read(bytes)?;
        *self = Book {
            bytes,
            kinds: reader.kinds,
        };
        Ok(())
    }

    // The bytes, which pass again with the same kinds.
    pub fn bytes(&self) -> &'a [u8]
        ensures value { result.now ≡ bytes_of self.now }
        ensures passes { read_book result.now ≡ Ok (kinds_held self.now) }
    {
        self.bytes
    }

    // How many kinds the book declares, at most 8.
    pub fn kinds(&self) -> u8
        ensures value { result ≡ length (kinds_held self.now) }
        ensures few { result ≤ 8 }
    {
        self.kinds.len() as u8
    }

    fn automaton(&self, kind: u8) -> Option<&Automaton>
        ensures known { is_some result ≡ nat_lt kind (length (kinds_held self.now)) }
        ensures shows { MatchOption result (kind_held self.now kind ≡ no_kind) (λ a. Shows a.now (kind_held self.now kind)) }
    {
        self.kinds.get(usize::from(kind))
    }

    // The edges of a kind as a table.
    pub fn table(&self, kind: u8) -> Option<&EdgeTable>
        ensures known { is_some result ≡ nat_lt kind (length (kinds_held self.now)) }
        ensures shows { MatchOption result (kind_held self.now kind ≡ no_kind) (λ t. (s l a : ℕ) → table_in t.now s l a ≡ table_of (kind_held self.now kind).edges s l a) }
    {
        Some(&self.automaton(kind)?.edges)
    }

    // Where all the answers to a letter lead from a station of a kind; nowhere outside the ranges.
    pub fn leads(&self, kind: u8, station: u8, letter: u8) -> Leads
        ensures { result ≡ joint (successors (table_of (kind_held self.now kind).edges) station letter) }
    {
        match self.automaton(kind) {
            Some(automaton) => automaton.leads(station, letter),
            None => Leads::Nowhere,
        }
    }

    // Where an edge of a kind leads; none outside the ranges.
    pub fn edge(&self, kind: u8, station: u8, letter: u8, answer: u8) -> Option<u8>
        ensures { result ≡ table_of (kind_held self.now kind).edges station letter answer }
    {
        self.table(kind)?.edge(station, letter, answer)
    }

    // The retreat letter of a station of a kind; none at away, and where there is no retreat.
    pub fn retreat_letter(&self, kind: u8, station: u8) -> Option<u8>
        ensures { result ≡ option_map (λ q. q.letter) (retreat_of (kind_held self.now kind).retreats station) }
    {
        let retreat = self.automaton(kind)?.retreat(station)?;
        Some(retreat.letter)
    }

    // The rank of a station of a kind: 0 at away, else that of its retreat.
    pub fn rank(&self, kind: u8, station: u8) -> Option<u8>
        ensures { result ≡ rank_held self.now kind station }
    {
        let automaton = self.automaton(kind)?;
        if station == AWAY {
            return Some(0);
        }
        let retreat = automaton.retreat(station)?;
        Some(retreat.rank)
    }
}
