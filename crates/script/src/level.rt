// Depths in the body of a part.
ghost use Rattle.std.specs.Prelude.{◌≤◌};

use crate::scope::Scope;
use faults::{Fault, Layer, LayoutCause};

// A body stands at depth 1, a block one deeper than its command, and none deeper than this.
const DEEPEST: u8 = 8;

// Where a block stands: in the scope of its body, at a depth.
#[derive(Clone, Copy)]
pub struct Level<'a> {
    pub scope: &'a Scope<'a>,
    pub depth: u8,
    ghost shallow: { depth ≤ 8 },
}

impl<'a> Level<'a> {
    ghost use Rattle.script.specs.Levels.{IsDeeper};

    // Where the blocks of a command at the place stand.
    pub(crate) fn deeper(&self, place: u16) -> Result<Level<'a>, Fault>
        ensures { IsDeeper self.now place result }
    {
        if self.depth < DEEPEST {
            Ok(Level {
                scope: self.scope,
                depth: self.depth + 1,
            })
        } else {
            Err(LayoutCause::TooDeep.at(place))
        }
    }
}
