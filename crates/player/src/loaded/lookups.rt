// What the player looks up in a script and its book, each in constant time.
ghost use Rattle.std.specs.Prelude.{◌≡◌, ◌<◌, get_or, length};
ghost use Rattle.protocol.specs.Tables.{same_table};
ghost use Rattle.device.specs.Ports.{edge_at};
ghost use Rattle.rules.specs.Script.{empty_script, no_part};
ghost use Rattle.script.specs.Held.{script_held};
ghost use Rattle.script.specs.Pieces.{piece};
ghost use Rattle.machine.specs.Player.{main, port_kind, port_table};
ghost use Rattle.player.specs.Loaded.{held, homeward};

use super::Loaded;
use book::Book;
use device::Rig;
use protocol::EdgeTable;
use script::{Block, Script};

impl<'a> Loaded<'a> {
    pub(crate) fn new() -> Loaded<'a>
        ensures { held result ≡ empty_script }
    {
        Loaded {
            script: Script::new(),
            book: Book::new(),
        }
    }

    pub(crate) fn of(script: &Script<'a>) -> Loaded<'a>
        ensures { held result ≡ script_held script.now }
    {
        let mut book = Book::new();
        // a script that passed has a book that passes
        let _ = book.check(script.book());
        Loaded {
            script: *script,
            book,
        }
    }

    pub(crate) fn main(&self) -> Block<'a>
        ensures { piece result ≡ (main (held self.now)).body }
    {
        self.script.main()
    }

    pub(crate) fn body(&self, part: u8) -> Block<'a>
        ensures { piece result ≡ (get_or (held self.now).parts part no_part).body }
    {
        self.script.body(part)
    }

    // Where the answer to a letter leads the device of a port.
    pub(crate) fn edge(&self, port: u8, station: u8, letter: u8, answer: u8) -> Option<u8>
        ensures { result ≡ port_table (held self.now) port station letter answer }
    {
        self.book
            .edge(self.script.kind(port), station, letter, answer)
    }

    // The device of a port has the table of the port's kind, which has no edges where the book has no such kind.
    pub(crate) fn table_fits<R: Rig>(&self, rig: &R, port: u8) -> bool
        requires { port < length (R.Rig.ports rig.now) }
        ensures { result ≡ same_table (edge_at (R.Rig.ports rig.now) port) (port_table (held self.now) port) }
    {
        match self.book.table(self.script.kind(port)) {
            Some(table) => rig.has_table(port, table),
            None => rig.has_table(port, &EdgeTable::new()),
        }
    }

    // The letter by which a port at the station is led towards away; 0 where there is none.
    pub(crate) fn retreat_letter(&self, port: u8, station: u8) -> u8
        ensures { result ≡ homeward (port_kind (held self.now) port) station }
    {
        self.book
            .retreat_letter(self.script.kind(port), station)
            .unwrap_or_default()
    }
}
