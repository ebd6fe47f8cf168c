// Runs of a script's bytes.
ghost use Rattle.std.specs.Prelude.{◌≡◌, ◌+◌, ◌≤◌, length};

#[derive(Clone, Copy)]
pub struct Block<'a> {
    pub bytes: &'a [u8],
    // of its first byte, from the start of the script; as wide as a length, since bytes that pad a struct cost a copy wherever it goes
    pub place: usize,
    // It lies within a script of the greatest length.
    ghost within: { place + length bytes.now ≤ 16384 },
}

impl<'a> Block<'a> {
    ghost use Rattle.rules.specs.Script.{no_block};
    ghost use Rattle.script.specs.Pieces.{Cuts, piece};

    // The block without bytes.
    pub fn empty() -> Block<'a>
        ensures { piece result ≡ no_block }
    {
        Block {
            bytes: &[],
            place: 0,
        }
    }

    // What is behind the front of the block.
    pub(crate) fn behind(self, rest: &'a [u8]) -> Block<'a>
        requires { length rest.now ≤ length (piece self).bytes }
        ensures bytes { (piece result).bytes ≡ rest.now }
        ensures place { (piece result).place + length rest.now ≡ (piece self.entry).place + length (piece self.entry).bytes }
    {
        Block {
            bytes: rest,
            place: self.place + (self.bytes.len() - rest.len()),
        }
    }

    // The first bytes, as many as the number, and what follows them; None where there are fewer.
    pub(crate) fn cut(self, len: u16) -> Option<(Block<'a>, Block<'a>)>
        ensures { Cuts len (piece self.entry) result }
    {
        let (bytes, rest) = self.bytes.split_at_checked(len as usize)?;
        let front = Block {
            bytes,
            place: self.place,
        };
        let rest = Block {
            bytes: rest,
            place: self.place + len as usize,
        };
        Some((front, rest))
    }
}
