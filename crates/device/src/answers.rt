// What `ask` answers when a letter is not allowed or a port is missing. It, and 16 for the station of a jammed device or a missing
// port, are numbers by the rules for devices, and go into logs as such.
pub const REFUSED: u8 = 255;
