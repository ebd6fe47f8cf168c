// A script that is still to be checked: bytes, not too many, over a book.
ghost use Rattle.std.specs.Prelude.{◌≤◌, length};

use book::Book;

// All that it borrows has one lifetime.
#[derive(Clone, Copy)]
pub struct Draft<'a> {
    pub book: &'a Book<'a>,
    pub bytes: &'a [u8],
    ghost short: { length bytes.now ≤ 16384 },
}
