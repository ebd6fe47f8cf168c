// Devices by what they mean, layers over them, and rigs of ports.
#![tactic(auto)]

mod answers;
mod device;
mod laws;
mod letter_map;
mod lookup;
mod patch;
mod projector;
mod rig;
mod rigs;
mod ring;
mod row;
mod tally;
#[cfg(test)]
mod tests;
mod trail;

pub use answers::REFUSED;
pub use device::Device;
pub use laws::{layers_stack, rigs_compose};
pub use letter_map::LetterMap;
pub use patch::Patch;
pub use projector::Projector;
pub use rig::Rig;
pub use rigs::{Before, PORTS, Single};
pub use ring::Pair;
pub use row::Row;
pub use tally::Tally;
pub use trail::Trail;
