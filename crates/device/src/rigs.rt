// Rigs that are built of devices, one before the other.
mod before;
mod single;

pub use before::Before;
pub use single::Single;

// A rig has at most so many ports.
pub const PORTS: u8 = 8;

// What a missing port has heard; its station is JAMMED, and its answer is REFUSED. Numbers, by the rules for rigs.
pub(crate) const UNHEARD: u32 = 0;
