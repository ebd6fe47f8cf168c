// The blocks of a script that are open.
ghost use Rattle.std.specs.Prelude.{◌≡◌, ◌-◌, ◌<◌, [], ◌∷◌, drop, length, option_map, slice_get, ◌==◌};
ghost use Rattle.machine.specs.Steps.{unwound};
ghost use Rattle.script.specs.Pieces.{piece};
ghost use Rattle.std.specs.Borrow.{sem};
ghost use Rattle.std.specs.List.{IsItemAtMut};
ghost use Rattle.player.specs.Frames.{at_end, frame_of, frames_of, passed};
ghost use Rattle.player.specs.Lending.{LendsTop};

use arrayvec::ArrayVec;
use script::Block;

// The most blocks that are open at once.
pub(crate) const MOST_OPEN: usize = 128;

// What is left of a block, and the port of each of eight handles there, 255 beyond its own.
#[derive(Clone, Copy)]
pub struct Frame<'a> {
    pub block: Block<'a>,
    pub ports: [u8; 8],
}

// A place of the table that holds no block.
impl Default for Frame<'_> {
    fn default() -> Self {
        Frame {
            block: Block {
                bytes: &[],
                place: 0,
            },
            ports: [255; 8],
        }
    }
}

// The last one is the topmost. A plain table, of any records, so that one of them may be lent: what is so of the blocks is
// said where the player is.
#[derive(Drop)]
pub struct OpenBlocks<F> {
    frames: ArrayVec<F, MOST_OPEN>,
}

impl<F> OpenBlocks<F> {
    // The topmost, lent.
    fn top_mut(&mut self) -> Option<&mut F>
        ensures* lends { sem 𝓛 (LendsTop F.row self.entry result) }
        ensures item { IsItemAtMut self.old.frames.items (length self.old.frames.items - 1) result }
    {
        let last = self.frames.len().checked_sub(1)?;
        self.frames.get_mut(last)
    }
}

impl<'a> OpenBlocks<Frame<'a>> {
    pub(crate) fn new() -> OpenBlocks<Frame<'a>>
        ensures { frames_of result ≡ [] }
    {
        OpenBlocks {
            frames: ArrayVec::new(),
        }
    }

    pub(crate) fn is_empty(&self) -> bool
        ensures { result ≡ (length (frames_of self.now) == 0) }
    {
        self.frames.is_empty()
    }

    pub(crate) fn top(&self) -> Option<Frame<'a>>
        ensures { option_map frame_of result ≡ slice_get (frames_of self.now) 0 }
    {
        self.frames.as_slice().last().copied()
    }

    // The topmost goes on behind a command.
    pub(crate) fn pass(&mut self, rest: Block<'a>)
        ensures { frames_of self.new ≡ passed (piece rest.entry) (frames_of self.old) }
    {
        if let Some(top) = self.top_mut() {
            top.block = rest;
        }
    }

    pub(crate) fn push(&mut self, frame: Frame<'a>)
        requires { length (frames_of self.old) < 128 }
        ensures { frames_of self.new ≡ frame_of frame.entry ∷ frames_of self.old }
    {
        self.frames.push(frame);
    }

    pub(crate) fn clear(&mut self)
        ensures { frames_of self.new ≡ [] }
    {
        self.frames.clear();
    }

    fn at_end(&self) -> bool
        ensures { result ≡ at_end (frames_of self.now) }
    {
        self.top().is_some_and(|frame| frame.block.bytes.is_empty())
    }

    fn pop(&mut self)
        ensures { frames_of self.new ≡ drop 1 (frames_of self.old) }
    {
        self.frames.pop();
    }

    // Leaves the blocks that are at their end.
    pub(crate) fn unwind(&mut self)
        ensures { frames_of self.new ≡ unwound (frames_of self.old) }
    {
        while self.at_end() {
            self.pop();
        }
    }
}
