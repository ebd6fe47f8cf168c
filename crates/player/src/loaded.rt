// A script that is ready to be played: beside it the tables of its book, made once when it is begun.
ghost use Rattle.std.specs.Prelude.{◌≡◌};
ghost use Rattle.book.specs.Held.{bytes_of};
ghost use Rattle.script.specs.Held.{book_of};

use book::Book;
use script::Script;

#[derive(Drop)]
pub struct Loaded<'a> {
    script: Script<'a>,
    book: Book<'a>,
    ghost same_book: { bytes_of book ≡ book_of script },
}

mod lookups;
