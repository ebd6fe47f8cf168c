// The simulated projector as a device: where its edges lead, and what it answers.
ghost use Rattle.std.specs.Prelude.{◌≡◌, ◌<◌, drop, map};
ghost use Rattle.protocol.specs.Tables.{of_letter};
ghost use Rattle.device.specs.Meaning.{Hears};
ghost use Rattle.device.specs.Projector.{answer_of, arrived, edge, next_reply, projected, projector_edges, projector_meaning, projector_table, replies_after, replies_of};
ghost use Rattle.device.specs.Kept.{projector_lawful};

use super::Projector;
use crate::answers::REFUSED;
use crate::device::Device;
use crate::lookup::same_successor;
use crate::tally::Tally;
use protocol::{AWAY, EdgeTable, JAMMED};

// The letter that asks for the lamp's state, the one letter with several answers.
const LAMP: u8 = 3;

// The edges of the house book, one a line, with its numbers.
fn successor(station: u8, letter: u8, answer: u8) -> Option<u8>
    ensures { result ≡ projector_table station letter answer }
{
    match (station, letter, answer) {
        (0, 0, 0) => Some(1),
        (1, 1, 0) => Some(0),
        (1, 2, 0) => Some(2),
        (2, 3, 0) => Some(3),
        (2, 3, 1) => Some(2),
        (2, 3, 2) => Some(1),
        (3, 4, 0) => Some(4),
        (4, 5, 0) => Some(3),
        (2, 6, 0) => Some(1),
        (3, 6, 0) => Some(1),
        _ => None,
    }
}

// The same edges by their letter: from where, under which answer, and where to.
fn edges_of(letter: u8) -> &'static [(u8, u8, u8)]
    ensures { map (λ (from, answer, to). edge from letter answer to) result.now ≡ of_letter letter projector_edges }
{
    match letter {
        0 => &[(0, 0, 1)],
        1 => &[(1, 0, 0)],
        2 => &[(1, 0, 2)],
        3 => &[(2, 0, 3), (2, 1, 2), (2, 2, 1)],
        4 => &[(3, 0, 4)],
        5 => &[(4, 0, 3)],
        6 => &[(2, 0, 1), (3, 0, 1)],
        _ => &[],
    }
}

// The station after a letter and its answer.
fn arrival(station: u8, letter: u8, answer: u8) -> u8
    ensures value { result ≡ arrived station letter answer }
    ensures standing { result < 17 }
{
    successor(station, letter, answer).unwrap_or(JAMMED)
}

impl<'a> Projector<'a> {
    pub fn new(replies: &'a [u8]) -> Projector<'a>
        ensures first { projector_meaning result ≡ projected 0 0 0 0 }
        ensures replies { replies_of result ≡ replies.now }
    {
        Projector {
            replies,
            station: AWAY,
            tally: Tally::new(0, 0),
        }
    }

    // Takes the next reply, 0 past the end.
    fn next_reply(&mut self) -> u8
        ensures answer { result ≡ next_reply (replies_of self.old) }
        ensures left { replies_of self.new ≡ drop 1 (replies_of self.old) }
        ensures same { projector_meaning self.new ≡ projector_meaning self.old }
    {
        match self.replies.split_first() {
            Some((next, rest)) => {
                self.replies = rest;
                *next % 3
            }
            None => 0,
        }
    }

    // What it answers to a letter; only the lamp's letter takes a reply, and only where it is allowed.
    fn answer_to(&mut self, letter: u8) -> u8
        ensures answer { result ≡ answer_of self.old letter }
        ensures left { replies_of self.new ≡ replies_after self.old letter }
        ensures same { projector_meaning self.new ≡ projector_meaning self.old }
    {
        // each letter that is allowed has the answer 0, among others (the checker sees a cycle in a call of `allows` here)
        if successor(self.station, letter, 0).is_none() {
            REFUSED
        } else if letter == LAMP {
            self.next_reply()
        } else {
            0
        }
    }
}

impl Device for Projector<'_> {
    ghost meaning = { projector_meaning };

    ghost lawful = { projector_lawful };

    fn edge(&self, station: u8, letter: u8, answer: u8) -> Option<u8> {
        successor(station, letter, answer)
    }

    fn station(&self) -> u8 {
        self.station
    }

    fn heard(&self) -> u32 {
        self.tally.heard()
    }

    fn letter_fits(&self, letter: u8, table: &EdgeTable, named: u8) -> bool {
        let edges = edges_of(letter);
        usize::from(table.edge_count(named)) == edges.len()
            && edges.iter().all(|&(from, answer, to)| {
                let there = table.edge(from, named, answer);
                same_successor(there, Some(to))
            })
    }

    fn ask(&mut self, letter: u8) -> u8
        ensures hears { Hears (projector_meaning self.old) letter result (projector_meaning self.new) }
        ensures answer { result ≡ answer_of self.old letter }
        ensures left { replies_of self.new ≡ replies_after self.old letter }
    {
        let answer = self.answer_to(letter);
        self.station = arrival(self.station, letter, answer);
        self.tally.note(letter, answer);
        answer
    }
}
