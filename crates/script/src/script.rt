// A script that passed its check, over the bytes of a book that passed its own.
ghost use Rattle.std.specs.Prelude.{◌≡◌, ◌≤◌, true, length, map, take, is_ok};
ghost use Rattle.std.specs.List.{All};
ghost use Rattle.std.proofs.Props.{props};
ghost use Rattle.book.specs.Reading.{kinds_of, read_book};
ghost use Rattle.rules.specs.Check.{check_script};
ghost use Rattle.script.specs.Parts.{Lies, shown};
ghost use Rattle.script.specs.Scripts.{parts_of};

use crate::part::{MOST_PARTS, Part};

#[derive(Clone, Copy)]
pub struct Script<'a> {
    book: &'a [u8],
    bytes: &'a [u8],
    // how many parts it has
    count: u8,
    // These by number, and blank ones behind them: an array, since no ArrayVec can be copied.
    parts: [Part; MOST_PARTS],
    ghost lawful: { is_ok (read_book book.now) ≡ true },
    ghost passed: { is_ok (check_script (kinds_of (read_book book.now)) bytes.now) ≡ true },
    ghost short: { length bytes.now ≤ 16384 },
    ghost few: { count ≤ 16 },
    ghost shows: { map (shown bytes.now) (take count parts) ≡ parts_of (check_script (kinds_of (read_book book.now)) bytes.now) } by { Prim.hlevel props },
    ghost lie: { All (Lies bytes.now) (take count parts) },
}

mod held;
