// Reads the parts of a script, and checks them.
ghost use Rattle.std.specs.Prelude.{◌≡◌, ◌<◌, ◌≤◌, [], map, length, drop, OnOk};
ghost use Rattle.book.specs.Held.{kinds_held};
ghost use Rattle.rules.specs.Check.{check_parts, check_script};
ghost use Rattle.script.specs.Headers.{GivesPart};
ghost use Rattle.script.specs.Parts.{shown};
ghost use Rattle.script.specs.Scripts.{GivesParts, GivesScript, check_main, next_part};

use crate::draft::Draft;
use crate::header::HEADER;
use crate::part::{Part, Parts};
use crate::scope::Scope;
use crate::walk::check_body;
use arrayvec::ArrayVec;
use book::Book;
use faults::{Fault, KeyCause, Layer, LayoutCause, NOWHERE};

// The bytes of the longest script.
const MOST_BYTES: usize = 16384;

impl<'a> Draft<'a> {
    // The part at the place, behind those below it, with its body checked.
    fn next(&self, below: &[Part], place: u16) -> Result<Part, Fault>
        requires { place ≤ length self.now.bytes.now }
        ensures gives { GivesPart self.now.bytes.now place result (next_part (kinds_held self.now.book.now) (map (shown self.now.bytes.now) below.now) place (drop place self.now.bytes.now)) }
        ensures few { OnOk result (length below.now < 16) }
    {
        let running = self.read_part(below.len(), place)?;
        let scope = Scope {
            draft: *self,
            below,
            running,
        };
        check_body(&scope)?;
        Ok(running)
    }

    fn read_parts(&self) -> Result<Parts, Fault>
        ensures { GivesParts self.now.bytes.now result (check_parts 17 (kinds_held self.now.book.now) [] 0 self.now.bytes.now) }
    {
        // each part says itself how long it is, so no iterator can step over them
        let mut parts = ArrayVec::new();
        let mut place: u16 = 0;
        while (place as usize) < self.bytes.len() {
            let part = self.next(parts.as_slice(), place)?;
            parts.push(part);
            place += HEADER + part.len;
        }
        Ok(parts)
    }
}

// Main, the last part, has its handles away.
fn check_main(parts: &[Part]) -> Result<(), Fault>
    ensures { result ≡ check_main parts.now }
{
    let [.., main] = parts else {
        return Ok(());
    };
    if !main.is_away() {
        return Err(KeyCause::MainHeld.at(main.place));
    }
    Ok(())
}

// The parts of a script that passes, or its first fault.
pub(crate) fn read<'a>(book: &'a Book<'a>, bytes: &'a [u8]) -> Result<Parts, Fault>
    ensures { GivesScript (kinds_held book.now) bytes.now result (check_script (kinds_held book.now) bytes.now) }
{
    if bytes.len() > MOST_BYTES {
        return Err(LayoutCause::TooLong.at(NOWHERE));
    }
    let draft = Draft { book, bytes };
    let parts = draft.read_parts()?;
    check_main(parts.as_slice())?;
    Ok(parts)
}
