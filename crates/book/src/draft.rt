// The kind that is being declared.
ghost use Rattle.std.specs.Prelude.{◌≡◌, length};
ghost use Rattle.book.specs.Automata.{retreat_count};

use crate::automaton::{Automaton, Retreat};
use arrayvec::ArrayVec;
use faults::{BookCause, Fault, Layer};
use protocol::Edge;

// A retreat, and the place of its command.
#[derive(Clone, Copy, Default)]
pub struct Placed {
    pub place: u16,
    pub retreat: Retreat,
}

#[derive(Drop)]
pub struct Draft {
    // of its KIND
    place: u16,
    automaton: Automaton,
    // by station, whether an edge begins or ends there: no part of the automaton, which outlives the draft
    named: [bool; 16],
    // in the order in which they came
    retreats: ArrayVec<Placed, 16>,
    ghost placed: { length retreats.items ≡ retreat_count automaton },
}

impl Draft {
    ghost use Rattle.std.specs.Prelude.{◌↔◌, [], IsTrue};
    ghost use Rattle.faults.specs.Results.{each};
    ghost use Rattle.book.specs.Automata.{Shows, edges_of, retreats_of};
    ghost use Rattle.book.specs.Reading.{Draft as ReadingDraft, add_edge, add_retreat, close_draft, placed_falls};
    ghost use Rattle.book.specs.Shown.{AllHomed, Drafts, Gives};

    pub(crate) fn new(place: u16) -> Draft
        ensures { Drafts result (record { place = place; edges = []; retreats = [] }) }
    {
        Draft {
            place,
            automaton: Automaton::default(),
            named: [false; 16],
            retreats: ArrayVec::new(),
        }
    }

    pub(crate) fn add_edge(&mut self, place: u16, edge: Edge) -> Result<(), Fault>
        ensures { (x : ReadingDraft) → Drafts self.old x → Gives (λ _ y. Drafts self.new y) result (add_edge x place edge) }
    {
        if !edge.in_range() {
            return Err(BookCause::OutOfRange.at(place));
        }
        if !self.automaton.add_edge(edge) {
            return Err(BookCause::DeclaredTwice.at(place));
        }
        self.named[usize::from(edge.from)] = true;
        self.named[usize::from(edge.to)] = true;
        Ok(())
    }

    // The tests and faults of an edge again, over another type and place: a trait for both would be longer.
    pub(crate) fn add_retreat(&mut self, place: u16, retreat: Retreat) -> Result<(), Fault>
        ensures { (x : ReadingDraft) → Drafts self.old x → Gives (λ _ y. Drafts self.new y) result (add_retreat x place retreat) }
    {
        if !retreat.in_range() {
            return Err(BookCause::OutOfRange.at(place));
        }
        if !self.automaton.add_retreat(retreat) {
            return Err(BookCause::DeclaredTwice.at(place));
        }
        self.retreats.push(Placed { place, retreat });
        Ok(())
    }

    // Whether every station that an edge names has a retreat, or is away, the first.
    fn all_homed(&self) -> bool
        ensures { IsTrue result ↔ AllHomed self.now }
    {
        self.named
            .iter()
            .zip(&self.automaton.retreats)
            .skip(1)
            .all(|(named, retreat)| !*named || retreat.is_some())
    }

    // The first retreat that does not fall.
    fn all_fall(&self) -> Result<(), Fault>
        ensures { result ≡ each (placed_falls (edges_of self.now.automaton) (retreats_of self.now.automaton)) self.now.retreats.items }
    {
        for placed in &self.retreats {
            if !self.automaton.falls(placed.retreat) {
                return Err(BookCause::BadRetreat.at(placed.place));
            }
        }
        Ok(())
    }

    pub(crate) fn close(self) -> Result<Automaton, Fault>
        ensures { (x : ReadingDraft) → Drafts self x → Gives Shows result (close_draft x) }
    {
        if !self.all_homed() {
            return Err(BookCause::NoRetreat.at(self.place));
        }
        self.all_fall()?;
        Ok(self.automaton)
    }
}
