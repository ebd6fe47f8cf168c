// The show that the program has with it: three projectors, each under other layers, whose lamps answer in three ways.
use crate::failure::Failure;
use book::Book;
use console::{Answer, by_port, port_lines};
use device::{Before, LetterMap, Patch, Projector, Rig, Single, Trail};
use player::{Call, Performance, perform};
use script::Script;
use std::io;

// The kind projector: 0 grants it, 1 returns it, 2 leads it on to the lamp, which 3 queries, and 6 leads it back.
const BOOK: [u8; 68] = [
    1, 0, 2, 0, 0, 0, 1, 2, 1, 1, 0, 0, 2, 1, 2, 0, 2, 2, 2, 3, 0, 3, 2, 2, 3, 1, 2, 2, 2, 3, 2, 1,
    2, 3, 4, 0, 4, 2, 4, 5, 0, 3, 2, 2, 6, 0, 1, 2, 3, 6, 0, 1, 3, 1, 1, 1, 3, 2, 6, 2, 3, 3, 6, 2,
    3, 4, 5, 3,
];

// A part that queries a lamp and leads each answer back by a branch of its own, and main, which grants each of three
// projectors, cues, runs the part on it, and returns it.
const SCRIPT: [u8; 150] = [
    0x10, 1, 0, 2, 1, 255, 255, 255, 255, 255, 255, 255, 255, 255, 255, 255, 255, 255, 255, 255,
    255, 255, 255, 255, 255, 255, 19, 0, 0x21, 0, 3, 4, 0, 4, 0, 0, 0, 0, 0, 0x20, 0, 6, 0, 0x20,
    0, 6, 0, 0x10, 3, 0, 0, 0, 0, 0, 0, 0, 0, 0, 255, 255, 255, 255, 255, 255, 255, 255, 255, 255,
    255, 255, 255, 255, 255, 75, 0, 0x20, 0, 0, 0, 0x20, 0, 2, 0, 0x27, 1, 0, 0x24, 0, 0, 255, 255,
    255, 255, 255, 255, 255, 0x20, 0, 1, 0, 0x20, 1, 0, 0, 0x20, 1, 2, 0, 0x27, 2, 0, 0x24, 0, 1,
    255, 255, 255, 255, 255, 255, 255, 0x20, 1, 1, 0, 0x20, 2, 0, 0, 0x20, 2, 2, 0, 0x27, 3, 0,
    0x24, 0, 2, 255, 255, 255, 255, 255, 255, 255, 0x20, 2, 1, 0,
];

// The letters of the kind go down as themselves, and no other does.
const OWN: [u8; 16] = [
    0, 1, 2, 3, 4, 5, 6, 255, 255, 255, 255, 255, 255, 255, 255, 255,
];

pub fn evening(rt: &HostRuntime) -> Result<(), Failure> {
    let mut book = Book::new();
    book.check(&BOOK)?;
    print!(rt; "{}", Answer::Book(Ok(book.kinds())))?;
    let mut script = Script::new();
    script.check(&book, &SCRIPT)?;
    print!(rt; "{}", Answer::Script(Ok(script.parts())))?;
    let map = LetterMap::new(&OWN)?;
    let mut rig = Before::new(
        Trail::new(Projector::new(&[0])),
        Before::new(
            Patch::new(map, Projector::new(&[1])),
            Single::new(Trail::new(Patch::new(map, Projector::new(&[2])))),
        ),
    );
    print!(rt; "{}", Answer::Rig(Ok(rig.count())))?;
    let calls = calls(rt, &script)?;
    let (show, done) = perform(rt.alloc(), &mut rig, &calls);
    print_show(rt, &show)?;
    print!(rt; "{}", Answer::Ports(by_port(&port_lines(&rig))))?;
    Ok(done.map_err(io::Error::from)?)
}

// Three cues, and on to the end.
fn calls<'a>(rt: &HostRuntime, script: &'a Script<'a>) -> io::Result<Vec<Call<'a>>> {
    let mut calls = Vec::new(rt.alloc());
    calls.push(Call::Begin(script))?;
    for _ in 0..4 {
        calls.push(Call::Go(1000))?;
    }
    Ok(calls)
}

// The answers, and then every letter of the evening.
fn print_show(rt: &HostRuntime, show: &Performance) -> io::Result<()> {
    for answer in &show.answers {
        print!(rt; "{}", in_words(*answer))?;
    }
    for entry in &show.log {
        println!(rt;
            "  {} {} {} {}",
            entry.port, entry.letter, entry.answer, entry.station
        )?;
    }
    Ok(())
}

// As the console answers it.
fn in_words(answer: player::Answer) -> Answer {
    match answer {
        player::Answer::Begun(ports) => Answer::Begun(ports),
        player::Answer::Went(report) => Answer::Went(report),
        player::Answer::Looked(station) => Answer::Looked(station),
        player::Answer::Struck(letters) => Answer::Struck(letters),
    }
}
