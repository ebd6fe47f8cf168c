// The player of passed scripts on any rig of devices.
#![tactic(auto)]

mod commands;
mod exits;
mod going;
mod kept;
mod loaded;
mod open_blocks;
mod performance;
mod player;
mod ports;
mod stage;
mod telling;
#[cfg(test)]
mod tests;

pub use performance::{Answer, Call, Performance, perform};
pub use player::Player;
