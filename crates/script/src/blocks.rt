// The blocks of an ASK.
ghost use Rattle.std.specs.Prelude.{◌≡◌};

use crate::answers::ByAnswer;
use crate::block::Block;

// By answer. (The case of an enum takes no array of them today.)
#[derive(Clone, Copy)]
pub struct Blocks<'a> {
    // first, so that it lies in an ASK where a block lies in a REPEAT
    pub zero: Block<'a>,
    pub one: Block<'a>,
    pub two: Block<'a>,
    pub three: Block<'a>,
}

impl<'a> Blocks<'a> {
    ghost use Rattle.std.specs.Prelude.{map, slice_index_or};
    ghost use Rattle.rules.specs.Script.{no_block};
    ghost use Rattle.script.specs.Pieces.{piece, pieces};

    pub(crate) fn by_answer(&self) -> ByAnswer<Block<'a>>
        ensures { map piece result ≡ pieces self.now }
    {
        [self.zero, self.one, self.two, self.three]
    }

    // The block of an answer; the empty block past the last.
    pub fn block(&self, answer: u8) -> Block<'a>
        ensures { piece result ≡ slice_index_or (pieces self.now) answer no_block }
    {
        match answer {
            0 => self.zero,
            1 => self.one,
            2 => self.two,
            3 => self.three,
            _ => Block::empty(),
        }
    }
}
