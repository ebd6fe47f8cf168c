// Where the answers to a letter lead, and what values have in common.
ghost use Rattle.std.specs.Prelude.{◌≡◌, map, is_some};
ghost use Rattle.std.specs.List.{list_any};
ghost use Rattle.rules.specs.Check.{undeclared_empty};
ghost use Rattle.script.specs.Ends.{common_by};
ghost use Rattle.script.specs.Pieces.{piece};

use crate::answers::ByAnswer;
use crate::block::Block;

// By answer, the station to which it leads, if it is declared.
pub type Successors = ByAnswer<Option<u8>>;

pub(crate) fn some_declared(to: &Successors) -> bool
    ensures { result ≡ list_any is_some to.now }
{
    to.iter().any(|to| to.is_some())
}

// The block of an answer that is not declared is empty.
pub(crate) fn undeclared_empty(to: &Successors, blocks: &ByAnswer<Block>) -> bool
    ensures { result ≡ undeclared_empty to.now (map piece blocks.now) }
{
    to.iter()
        .zip(blocks)
        .all(|(to, block)| to.is_some() || block.bytes.is_empty())
}

// The one value that all of them are, if there are any.
pub(crate) fn common<T: Copy + PartialEq>(items: &[T]) -> Option<T>
    ensures { result ≡ common_by T.eq items.now }
{
    match items {
        [first, rest @ ..] => rest.iter().all(|item| item == first).then_some(*first),
        [] => None,
    }
}
