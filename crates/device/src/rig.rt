// Devices in a row of ports.
ghost use Rattle.std.specs.Prelude.{◌≡◌, ℕ, ◌<◌, ◌≤◌, length};
ghost use Rattle.protocol.specs.Lists.{Each};
ghost use Rattle.protocol.specs.Slots.{table_in};
ghost use Rattle.device.specs.Meaning.{Lawful};
ghost use Rattle.device.specs.Ports.{Ports, RigHears, edge_at, has_table_at, heard_at, station_at};

use crate::lookup::same_successor;
use protocol::{ANSWERS, EdgeTable, LETTERS, STATIONS};

pub trait Rig {
    ghost ports: { Self → Ports };

    // What a letter to a port may do to every device that it holds, as a value: those behind the eighth too.
    ghost asks: { Self → ℕ → ℕ → ℕ → Self → Type 0 };

    fn count(&self) -> u8
        ensures { result ≡ length (ports self.now) };

    fn edge(&self, port: u8, station: u8, letter: u8, answer: u8) -> Option<u8>
        ensures { result ≡ edge_at (ports self.now) port station letter answer };

    fn station(&self, port: u8) -> u8
        ensures { result ≡ station_at (ports self.now) port };

    fn heard(&self, port: u8) -> u32
        ensures { result ≡ heard_at (ports self.now) port };

    // Whether there is such a port, and its device has the table. To write it is no duty: it is faster to ask the device.
    fn has_table(&self, port: u8, table: &EdgeTable) -> bool
        ensures { result ≡ has_table_at (ports self.now) port (table_in table.now) }
    {
        port < self.count()
            && (0..LETTERS).all(|letter| {
                (0..STATIONS).all(|station| {
                    (0..ANSWERS).all(|answer| {
                        let here = self.edge(port, station, letter, answer);
                        let there = table.edge(station, letter, answer);
                        same_successor(here, there)
                    })
                })
            })
    }

    fn ask(&mut self, port: u8, letter: u8) -> u8
        ensures hears { RigHears (ports self.old) port letter result (ports self.new) }
        ensures asks { asks self.old port letter result self.new };

    // 1 to 8 ports, each of a lawful device.
    ghost lawful: { (r : Self) → Each Lawful (ports r) };

    ghost some: { (r : Self) → 0 < length (ports r) };

    ghost few: { (r : Self) → length (ports r) ≤ 8 };
}
