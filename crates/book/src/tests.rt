// The house book, and refusals that leave it held.
use crate::{Book, Leads};
use std::test::Fail;

const HOUSE: [u8; 68] = [
    1, 0, 2, 0, 0, 0, 1, 2, 1, 1, 0, 0, 2, 1, 2, 0, 2, 2, 2, 3, 0, 3, 2, 2, 3, 1, 2, 2, 2, 3, 2, 1,
    2, 3, 4, 0, 4, 2, 4, 5, 0, 3, 2, 2, 6, 0, 1, 2, 3, 6, 0, 1, 3, 1, 1, 1, 3, 2, 6, 2, 3, 3, 6, 2,
    3, 4, 5, 3,
];

#[test]
fn the_house_book(rt: HostRuntime) -> Result<(), Fail> {
    let mut book = Book::new();
    assert_eq!(rt; book.kinds(), 0);
    book.check(&HOUSE)?;
    assert_eq!(rt; book.kinds(), 1);
    assert_eq!(rt; book.edge(0, 2, 3, 2), Some(1));
    assert_eq!(rt; book.edge(0, 2, 3, 3), None);
    assert_eq!(rt; book.edge(1, 2, 3, 2), None);
    assert_eq!(rt; book.leads(0, 2, 3), Leads::Apart);
    assert_eq!(rt; book.leads(0, 4, 5), Leads::To(3));
    assert_eq!(rt; book.leads(0, 4, 3), Leads::Nowhere);
    assert_eq!(rt; book.leads(1, 2, 3), Leads::Nowhere);
    assert_eq!(rt; book.retreat_letter(0, 4), Some(5));
    assert_eq!(rt; book.retreat_letter(0, 0), None);
    assert_eq!(rt; book.rank(0, 4), Some(3));
    assert_eq!(rt; book.rank(0, 0), Some(0));
    assert_eq!(rt; book.rank(1, 0), None);
    Ok(())
}

// Station 2 retreats by the lamp query, whose first answer leads to a station of the same rank.
#[test]
fn a_refusal_keeps_the_held_book(rt: HostRuntime) -> Result<(), Fail> {
    let mut risen = HOUSE;
    risen[58] = 3;
    let mut book = Book::new();
    book.check(&HOUSE)?;
    let Err(fault) = book.check(&risen) else {
        return Err(Fail::new("passed"));
    };
    assert_eq!(rt; fault.number(), 7);
    assert_eq!(rt; fault.place(), 56);
    assert_eq!(rt; book.kinds(), 1);
    assert_eq!(rt; book.bytes().len(), 68);
    assert_eq!(rt; book.retreat_letter(0, 2), Some(6));
    Ok(())
}
