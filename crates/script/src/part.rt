// Parts of a script.
ghost use Rattle.std.specs.Prelude.{◌≡◌, ◌≤◌, length, take};

use crate::block::Block;
use crate::header::HEADER;
use crate::keys::Keys;
use arrayvec::ArrayVec;
use protocol::AWAY;

// The most handles of a part.
pub const HANDLES: usize = 8;
// Stands for a handle beyond those of a part, in a header and in bindings.
pub(crate) const NONE: u8 = 255;

// Its kind, and its stations where the body begins and ends.
#[derive(Clone, Copy, PartialEq, Eq, Default)]
pub struct Handle {
    pub kind: u8,
    pub enters: u8,
    pub leaves: u8,
}

// A part by its header: its body stands behind that in the script.
#[derive(Clone, Copy)]
pub struct Part {
    pub place: u16,
    // how many of the handles are its own
    pub own: u8,
    // A header has eight in any case, and the spare ones are checked and shown too: `own` is no count of what is filled.
    pub handles: [Handle; HANDLES],
    // of the body
    pub len: u16,
    ghost few: { own ≤ 8 },
}

// The most parts of a script.
pub const MOST_PARTS: usize = 16;

// By number.
pub type Parts = ArrayVec<Part, MOST_PARTS>;

// Written out: none is derived for a struct with a ghost field.
impl Default for Part {
    fn default() -> Part {
        Part {
            place: 0,
            own: 0,
            handles: [Handle::default(); HANDLES],
            len: 0,
        }
    }
}

impl Part {
    ghost use Rattle.std.specs.Prelude.{map, slice_index, slice_index_or};
    ghost use Rattle.script.specs.Parts.{Lies, away, no_handle, shown};
    ghost use Rattle.script.specs.Pieces.{piece};

    pub(crate) fn own_handles(&self) -> &[Handle]
        ensures { result.now ≡ take self.now.own self.now.handles }
    {
        &self.handles[..self.own as usize]
    }

    // The handle of that number, or one of zeros.
    fn handle(&self, number: u8) -> Handle
        ensures { result ≡ slice_index_or self.now.handles number no_handle }
    {
        self.handles
            .get(number as usize)
            .copied()
            .unwrap_or_default()
    }

    pub(crate) fn kind(&self, number: u8) -> u8
        ensures { result ≡ slice_index (map (λ h. h.kind) self.now.handles) number }
    {
        self.handle(number).kind
    }

    // The stations at either end, as key sets. One function that takes the field would be longer than these two.
    pub(crate) fn stations_in(&self) -> Keys
        ensures { result ≡ map (λ h. h.enters) self.now.handles }
    {
        self.handles.map(|handle| handle.enters)
    }

    pub(crate) fn stations_out(&self) -> Keys
        ensures { result ≡ map (λ h. h.leaves) self.now.handles }
    {
        self.handles.map(|handle| handle.leaves)
    }

    // The body, in the bytes of the script.
    pub(crate) fn body<'a>(&self, bytes: &'a [u8]) -> Block<'a>
        requires lies { Lies bytes.now self.now }
        requires short { length bytes.now ≤ 16384 }
        ensures { piece result ≡ (shown bytes.now self.now).body }
    {
        let place = (self.place + HEADER) as usize;
        let end = place + self.len as usize;
        Block {
            bytes: &bytes[place..end],
            place,
        }
    }

    // Every handle is away at both ends.
    pub(crate) fn is_away(&self) -> bool
        ensures { result ≡ away self.now }
    {
        self.own_handles()
            .iter()
            .all(|handle| handle.enters == AWAY && handle.leaves == AWAY)
    }
}

// The parts by number, and blank ones behind them.
pub(crate) fn filled(parts: &[Part]) -> [Part; MOST_PARTS]
    requires { length parts.now ≤ 16 }
    ensures { take (length parts.now) result ≡ parts.now }
{
    let mut all = [Part::default(); MOST_PARTS];
    all[..parts.len()].copy_from_slice(parts);
    all
}
