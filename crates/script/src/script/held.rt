// The script that is held: at first empty and passed, later what its checks put in its place.
ghost use Rattle.std.specs.Prelude.{◌≡◌, [], length, get_or, slice_index, OnOk, OnErr};
ghost use Rattle.book.specs.Held.{bytes_of, kinds_held};
ghost use Rattle.rules.specs.Check.{check_script};
ghost use Rattle.rules.specs.Keys.{CheckDecides};
ghost use Rattle.rules.specs.Script.{main_of, no_part};
ghost use Rattle.script.specs.Held.{IsPart, book_of, parts_held, script_bytes, script_held, verdict};
ghost use Rattle.script.specs.Pieces.{piece};

use super::Script;
use crate::block::Block;
use crate::part::{MOST_PARTS, Part, filled};
use crate::reader::read;
use book::Book;
use faults::Fault;

impl<'a> Script<'a> {
    // The empty script, over the empty book.
    pub fn new() -> Script<'a>
        ensures book { book_of result ≡ [] }
        ensures bytes { script_bytes result ≡ [] }
    {
        Script {
            book: &[],
            bytes: &[],
            count: 0,
            parts: [Part::default(); MOST_PARTS],
        }
    }

    // Puts other bytes, over the book, in the place of the held ones, or refuses and leaves the script as it was.
    pub fn check(&mut self, book: &Book<'a>, bytes: &'a [u8]) -> Result<(), Fault>
        ensures answer { result ≡ verdict (check_script (kinds_held book.now) bytes.now) }
        ensures book { OnOk result (book_of self.new ≡ bytes_of book.now) }
        ensures bytes { OnOk result (script_bytes self.new ≡ bytes.now) }
        ensures refused { OnErr result (self.new ≡ self.old) }
        ensures decides { CheckDecides }
    {
        let parts = read(&*book, bytes)?;
        *self = Script {
            book: book.bytes(),
            bytes,
            count: parts.len() as u8,
            parts: filled(parts.as_slice()),
        };
        Ok(())
    }

    // How many parts it has; the empty script has none.
    pub fn parts(&self) -> u8
        ensures { result ≡ length (script_held self.now).parts }
    {
        self.count
    }

    // By number.
    fn held(&self) -> &[Part]
        ensures { result.now ≡ parts_held self.now }
    {
        &self.parts[..self.count as usize]
    }

    // The part of that number, if there is one.
    fn part(&self, number: u8) -> Option<&Part>
        ensures { IsPart self.now (get_or (script_held self.now).parts number no_part) result }
    {
        self.held().get(number as usize)
    }

    // The last, if there is one.
    fn main_part(&self) -> Option<&Part>
        ensures { IsPart self.now (main_of (script_held self.now).parts) result }
    {
        self.held().last()
    }

    // How many ports main has; the empty script needs none.
    pub fn ports(&self) -> u8
        ensures { result ≡ (main_of (script_held self.now).parts).handles }
    {
        match self.main_part() {
            Some(main) => main.own,
            None => 0,
        }
    }

    // The kind of main's handle at the port; 0 beyond its eight.
    pub fn kind(&self, port: u8) -> u8
        ensures { result ≡ slice_index (main_of (script_held self.now).parts).kinds port }
    {
        match self.main_part() {
            Some(main) => main.kind(port),
            None => 0,
        }
    }

    // The body of the part of that number; the empty block past the last.
    pub fn body(&self, part: u8) -> Block<'a>
        ensures { piece result ≡ (get_or (script_held self.now).parts part no_part).body }
    {
        match self.part(part) {
            Some(part) => part.body(self.bytes),
            None => Block::empty(),
        }
    }

    // The body of main; the empty block where there is none.
    pub fn main(&self) -> Block<'a>
        ensures { piece result ≡ (main_of (script_held self.now).parts).body }
    {
        match self.main_part() {
            Some(main) => main.body(self.bytes),
            None => Block::empty(),
        }
    }

    // The bytes of the book over which it passed.
    pub fn book(&self) -> &'a [u8]
        ensures { result.now ≡ book_of self.now }
    {
        self.book
    }

    // The bytes, which pass again over that book.
    pub fn bytes(&self) -> &'a [u8]
        ensures { result.now ≡ script_bytes self.now }
    {
        self.bytes
    }
}
