// A book that passed its check: its bytes, and the automata of its kinds.
ghost use Rattle.std.specs.Prelude.{IsOk};
ghost use Rattle.std.proofs.Props.{props};
ghost use Rattle.book.specs.Automata.{Listed, Listed-prop};
ghost use Rattle.book.specs.Reading.{kinds_of, read_book};

use crate::automaton::Automata;

#[derive(Drop)]
pub struct Book<'a> {
    bytes: &'a [u8],
    kinds: Automata,
    ghost passed: { IsOk (read_book bytes.now) },
    ghost shown: { Listed kinds.items (kinds_of (read_book bytes.now)) } by { Prim.hlevel (Listed-prop, props) },
}

mod held;
