// Books: kinds of device as automata with retreats, declared in bytes.
#![tactic(auto)]

mod automaton;
mod book;
mod draft;
mod laws;
mod leads;
mod reader;
#[cfg(test)]
mod tests;

pub use book::Book;
pub use laws::{book_decides, retreats_lead_home};
pub use leads::Leads;
