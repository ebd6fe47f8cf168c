// Protocols of devices: stations, letters, answers, and the edges between stations.
#![tactic(auto)]

ghost use Rattle.protocol.specs.Paths.{PathsBalance};

mod edges;
mod letter_edges;
mod table;

pub use edges::{ANSWERS, AWAY, Edge, Entry, JAMMED, LETTERS, STATIONS};
pub use table::EdgeTable;

// On every path from away the grants are the returns, and one more exactly where it ends at another station.
pub fn paths_balance()
    ensures { PathsBalance }
{}
