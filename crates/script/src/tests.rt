use crate::block::Block;
use crate::command::Command;
use crate::script::Script;
use book::Book;
use std::alloc::{AllocError, Global};
use std::process::Abort;
use std::test::Fail;

// A projector: granted by letter 0, returned by letter 1, queried by letter 3.
const BOOK: [u8; 68] = [
    1, 0, 2, 0, 0, 0, 1, 2, 1, 1, 0, 0, 2, 1, 2, 0, 2, 2, 2, 3, 0, 3, 2, 2, 3, 1, 2, 2, 2, 3, 2, 1,
    2, 3, 4, 0, 4, 2, 4, 5, 0, 3, 2, 2, 6, 0, 1, 2, 3, 6, 0, 1, 3, 1, 1, 1, 3, 2, 6, 2, 3, 3, 6, 2,
    3, 4, 5, 3,
];

// Main, with one projector that is away at both ends.
fn main_with(heap: Global, body: &[u8]) -> Result<Vec<u8>, AllocError> {
    let mut bytes = [0x10, 1, 0, 0, 0].to_vec(heap)?;
    for _ in 0..21 {
        bytes.push(0xff)?;
    }
    bytes.push((body.len() % 256) as u8)?;
    bytes.push(0)?;
    bytes.extend_from_slice(body)?;
    Ok(bytes)
}

// The number and the place at which a script is refused over the book.
fn refusal<'a>(
    rt: &impl Abort,
    book: &'a [u8],
    bytes: &'a [u8],
) -> Result<Option<(u8, u16)>, Fail> {
    let mut held = Book::new();
    assert!(rt; held.check(book).is_ok());
    match Script::new().check(&held, bytes) {
        Ok(()) => Ok(None),
        Err(fault) => Ok(Some((fault.number(), fault.place()))),
    }
}

fn refusal_of(rt: &impl Abort, heap: Global, body: &[u8]) -> Result<Option<(u8, u16)>, Fail> {
    let bytes = main_with(heap, body)?;
    refusal(rt, &BOOK, &bytes)
}

#[test]
fn keys_are_returned(rt: HostRuntime) -> Result<(), Fail> {
    let heap = rt.alloc();
    assert_eq!(rt;
        refusal_of(&rt, heap, &[0x20, 0, 0, 0, 0x20, 0, 1, 0])?,
        None
    );
    assert_eq!(rt; refusal_of(&rt, heap, &[0x20, 0, 0, 0])?, Some((21, 0)));
    assert_eq!(rt;
        refusal_of(&rt, heap, &[0x20, 0, 0, 0, 0x20, 0, 2, 0, 0x20, 0, 3, 0])?,
        Some((15, 36))
    );
    Ok(())
}

#[test]
fn every_answer_counts(rt: HostRuntime) -> Result<(), Fail> {
    let heap = rt.alloc();
    let all = [
        0x20, 0, 0, 0, 0x20, 0, 2, 0, 0x21, 0, 3, 4, 0, 4, 0, 0, 0, 0, 0, 0x20, 0, 6, 0, 0x20, 0,
        6, 0, 0x20, 0, 1, 0,
    ];
    let one_gone = [
        0x20, 0, 0, 0, 0x20, 0, 2, 0, 0x21, 0, 3, 4, 0, 0, 0, 0, 0, 0, 0, 0x20, 0, 6, 0, 0x20, 0,
        1, 0,
    ];
    assert_eq!(rt; refusal_of(&rt, heap, &all)?, None);
    assert_eq!(rt; refusal_of(&rt, heap, &one_gone)?, Some((17, 36)));
    Ok(())
}

fn keeps_the_first<'a>(rt: &impl Abort, book: &'a [u8], good: &'a [u8], bad: &'a [u8]) {
    let mut held = Book::new();
    assert!(rt; held.check(book).is_ok());
    let mut script = Script::new();
    assert_eq!(rt; script.parts(), 0);
    assert!(rt; script.check(&held, good).is_ok());
    assert!(rt; script.check(&held, bad).is_err());
    assert_eq!(rt; script.parts(), 1);
    assert_eq!(rt; script.bytes(), good);
}

#[test]
fn a_refusal_changes_nothing(rt: HostRuntime) -> Result<(), Fail> {
    let heap = rt.alloc();
    let good = main_with(heap, &[])?;
    let bad = main_with(heap, &[0x22])?;
    keeps_the_first(&rt, &BOOK, &good, &bad);
    Ok(())
}

// The letter of the SEND with which a block begins, and how many bytes stand behind it.
fn first_send(block: Block) -> Option<(u8, usize)> {
    match block.first() {
        Some(Ok((Command::Send { letter, .. }, rest))) => Some((letter, rest.bytes.len())),
        _ => None,
    }
}

fn reads_main<'a>(rt: &impl Abort, book: &'a [u8], bytes: &'a [u8]) {
    let mut held = Book::new();
    assert!(rt; held.check(book).is_ok());
    let mut script = Script::new();
    assert_eq!(rt; script.ports(), 0);
    assert!(rt; script.check(&held, bytes).is_ok());
    assert_eq!(rt; script.ports(), 1);
    assert_eq!(rt; script.kind(0), 0);
    assert_eq!(rt; first_send(script.main()), Some((0, 4)));
    assert_eq!(rt; first_send(script.body(0)), Some((0, 4)));
    assert_eq!(rt; first_send(script.body(1)), None);
}

#[test]
fn main_is_read_back(rt: HostRuntime) -> Result<(), Fail> {
    let heap = rt.alloc();
    let bytes = main_with(heap, &[0x20, 0, 0, 0, 0x20, 0, 1, 0])?;
    reads_main(&rt, &BOOK, &bytes);
    Ok(())
}
