// Reads a part by its header.
ghost use Rattle.std.specs.Prelude.{◌≡◌, ◌+◌, ◌<◌, ◌≤◌, length, map, drop, OnOk};
ghost use Rattle.book.specs.Held.{kinds_held};
ghost use Rattle.rules.specs.Script.{read_part, thirds};
ghost use Rattle.script.specs.Headers.{GivesPart, empty_handle, handles_fit, ranged};

use crate::command::word;
use crate::draft::Draft;
use crate::part::{HANDLES, Handle, MOST_PARTS, NONE, Part};
use book::Book;
use faults::{Fault, Layer, LayoutCause};
use protocol::STATIONS;
use std::array;

// The bytes of a header: a mark, the count of handles, eight triples of kind, station in
// and station out, and the length of the body.
pub(crate) const HEADER: u16 = 28;

const MARK: u8 = 0x10;
// The triple of a handle that the part does not have.
const EMPTY: Handle = Handle {
    kind: NONE,
    enters: NONE,
    leaves: NONE,
};

// The triples of a header.
fn triples(header: &[u8]) -> [Handle; HANDLES]
    requires { 28 ≤ length header.now }
    ensures kinds { map (λ h. h.kind) result ≡ thirds 8 (drop 2 header.now) }
    ensures ins { map (λ h. h.enters) result ≡ thirds 8 (drop 3 header.now) }
    ensures outs { map (λ h. h.leaves) result ≡ thirds 8 (drop 4 header.now) }
{
    array::from_fn(|i| Handle {
        kind: header[3 * i + 2],
        enters: header[3 * i + 3],
        leaves: header[3 * i + 4],
    })
}

impl Handle {
    fn is_ranged(&self, kinds: u8) -> bool
        ensures { result ≡ ranged kinds self.now }
    {
        self.kind < kinds && self.enters < STATIONS && self.leaves < STATIONS
    }

    fn is_empty(&self) -> bool
        ensures { result ≡ empty_handle self.now }
    {
        *self == EMPTY
    }
}

impl Part {
    // It has handles, which are in range, and those beyond are empty.
    fn handles_fit(&self, book: &Book) -> bool
        ensures { result ≡ handles_fit (length (kinds_held book.now)) self.now }
    {
        let own = self.own as usize;
        let kinds = book.kinds();
        own > 0
            && self.handles.iter().enumerate().all(|(i, handle)| {
                if i < own {
                    handle.is_ranged(kinds)
                } else {
                    handle.is_empty()
                }
            })
    }
}

impl Draft<'_> {
    // The part of that number, which stands at the place.
    pub(crate) fn read_part(&self, number: usize, place: u16) -> Result<Part, Fault>
        requires { place ≤ length self.now.bytes.now }
        ensures gives { GivesPart self.now.bytes.now place result (read_part (kinds_held self.now.book.now) number place (drop place self.now.bytes.now)) }
        ensures few { OnOk result (number < 16) }
    {
        let rest = &self.bytes[place as usize..];
        if rest.len() < HEADER as usize || rest[0] != MARK {
            return Err(LayoutCause::NoPart.at(place));
        }
        let own = rest[1];
        if number >= MOST_PARTS || own as usize > HANDLES {
            return Err(LayoutCause::BadHeader.at(place));
        }
        let part = Part {
            place,
            own,
            handles: triples(rest),
            len: word(rest[26], rest[27]),
        };
        if !part.handles_fit(self.book) || rest.len() < HEADER as usize + part.len as usize {
            return Err(LayoutCause::BadHeader.at(place));
        }
        Ok(part)
    }
}
