// Whole shows, on rigs of one, two and eight ports, bare and under layers.
use crate::performance::{Answer, Call, Performance, perform};
use book::Book;
use device::{Before, LetterMap, Patch, Projector, Rig, Row, Single, Trail};
use faults::{Layer, NOWHERE, StageCause};
use machine::{Reason, Report};
use protocol::Entry;
use script::Script;
use std::alloc::{AllocError, Global};
use std::test::Fail;

// A projector: granted by letter 0, returned by letter 1, its lamp queried by letter 3.
const BOOK: [u8; 68] = [
    1, 0, 2, 0, 0, 0, 1, 2, 1, 1, 0, 0, 2, 1, 2, 0, 2, 2, 2, 3, 0, 3, 2, 2, 3, 1, 2, 2, 2, 3, 2, 1,
    2, 3, 4, 0, 4, 2, 4, 5, 0, 3, 2, 2, 6, 0, 1, 2, 3, 6, 0, 1, 3, 1, 1, 1, 3, 2, 6, 2, 3, 3, 6, 2,
    3, 4, 5, 3,
];

// Granted and led to the lamp, which is queried; each answer is led back by its own branch, and the projector is returned.
const LAMP: [u8; 31] = [
    0x20, 0, 0, 0, 0x20, 0, 2, 0, 0x21, 0, 3, 4, 0, 4, 0, 0, 0, 0, 0, 0x20, 0, 6, 0, 0x20, 0, 6, 0,
    0x20, 0, 1, 0,
];

// Granted and led to the lamp, where the script fails with 7.
const FAIL: [u8; 18] = [
    0x20, 0, 0, 0, 0x20, 0, 2, 0, 0x28, 7, 0x20, 0, 6, 0, 0x20, 0, 1, 0,
];

// The second port is granted, then the first, which is led to the lamp and back; both are returned.
const PAIR: [u8; 24] = [
    0x20, 1, 0, 0, 0x20, 0, 0, 0, 0x20, 0, 2, 0, 0x20, 0, 6, 0, 0x20, 0, 1, 0, 0x20, 1, 1, 0,
];

// Register 0 counts down from 2.
const COUNTDOWN: [u8; 9] = [0x25, 0, 2, 0x23, 0, 2, 0, 0x26, 0];

// Every letter goes down as itself.
const SAME: [u8; 16] = [0, 1, 2, 3, 4, 5, 6, 7, 8, 9, 10, 11, 12, 13, 14, 15];

// Main, with so many projectors that are away at both ends.
fn main_with(heap: Global, ports: u8, body: &[u8]) -> Result<Vec<u8>, AllocError> {
    let mut bytes = [0x10, ports].to_vec(heap)?;
    for i in 0..8 {
        let byte = if i < ports { 0 } else { 0xff };
        bytes.extend_from_slice(&[byte, byte, byte])?;
    }
    bytes.push((body.len() % 256) as u8)?;
    bytes.push((body.len() / 256 % 256) as u8)?;
    bytes.extend_from_slice(body)?;
    Ok(bytes)
}

fn checked<'a>(book: &'a [u8], bytes: &'a [u8]) -> Result<Script<'a>, Fail> {
    let mut held = Book::new();
    held.check(book)?;
    let mut script = Script::new();
    script.check(&held, bytes)?;
    Ok(script)
}

// What a show comes to: why the last go stopped, its steps and its letters, and the letters sent in all.
fn last_go(show: &Performance) -> Option<(Reason, u32, u32)> {
    let Some(Answer::Went(Ok(report))) = show.answers.as_slice().last() else {
        return None;
    };
    Some((report.reason, report.steps, report.letters))
}

// Answered 0.
fn sent(port: u8, letter: u8, station: u8) -> Entry {
    Entry {
        port,
        letter,
        answer: 0,
        station,
    }
}

fn show<R: Rig>(rt: &HostRuntime, rig: &mut R, calls: &[Call]) -> Result<Performance, Fail> {
    let (show, done) = perform(rt.alloc(), rig, calls);
    done?;
    Ok(show)
}

// The calls that begin a script and then go so many steps.
fn begin_and_go<'a>(
    heap: Global,
    script: &'a Script<'a>,
    steps: &[u32],
) -> Result<Vec<Call<'a>>, AllocError> {
    let mut calls = Vec::new(heap);
    calls.push(Call::Begin(script))?;
    for n in steps {
        calls.push(Call::Go(*n))?;
    }
    Ok(calls)
}

// The calls that begin a script, go so many steps, strike, and then look at the ports 0 and 2 and would go on.
fn strike_after<'a>(
    heap: Global,
    script: &'a Script<'a>,
    steps: u32,
) -> Result<Vec<Call<'a>>, AllocError> {
    let mut calls = begin_and_go(heap, script, &[steps])?;
    calls.push(Call::Strike)?;
    calls.push(Call::Look(0))?;
    calls.push(Call::Look(2))?;
    calls.push(Call::Go(1))?;
    Ok(calls)
}

// Every answer to the lamp query on one port, bare and under layers.
#[test]
fn every_branch_comes_home(rt: HostRuntime) -> Result<(), Fail> {
    let bytes = main_with(rt.alloc(), 1, &LAMP)?;
    let script = checked(&BOOK, &bytes)?;
    let calls = begin_and_go(rt.alloc(), &script, &[10])?;
    for (reply, steps) in [(0, 5), (1, 5), (2, 4)] {
        let replies = [reply];
        let mut bare = Single::new(Projector::new(&replies));
        let played = show(&rt, &mut bare, &calls)?;
        assert_eq!(rt; last_go(&played), Some((Reason::End, steps, steps)));
        assert_eq!(rt; bare.station(0), 0);
        assert_eq!(rt; bare.heard(0), steps);
        let mut layered = Single::new(Trail::new(Patch::new(
            LetterMap::new(&SAME)?,
            Projector::new(&replies),
        )));
        let same = show(&rt, &mut layered, &calls)?;
        assert_eq!(rt; same.log.as_slice(), played.log.as_slice());
        assert_eq!(rt; layered.device().pairs() as u32, steps);
    }
    Ok(())
}

// A FAIL while the projector is held leads it home.
#[test]
fn a_fault_leads_home(rt: HostRuntime) -> Result<(), Fail> {
    let bytes = main_with(rt.alloc(), 1, &FAIL)?;
    let script = checked(&BOOK, &bytes)?;
    let calls = begin_and_go(rt.alloc(), &script, &[10])?;
    let mut rig = Single::new(Projector::new(&[]));
    let played = show(&rt, &mut rig, &calls)?;
    assert_eq!(rt;
        last_go(&played),
        Some((Reason::Failed { code: 7, place: 36 }, 3, 4))
    );
    let letters = [sent(0, 0, 1), sent(0, 2, 2), sent(0, 6, 1), sent(0, 1, 0)];
    assert_eq!(rt; played.log.as_slice(), letters.as_slice());
    Ok(())
}

// A countdown is done in ten steps, or in five and one.
#[test]
fn a_budget_is_spent(rt: HostRuntime) -> Result<(), Fail> {
    let bytes = main_with(rt.alloc(), 1, &COUNTDOWN)?;
    let script = checked(&BOOK, &bytes)?;
    let mut rig = Single::new(Projector::new(&[]));
    let at_once = show(&rt, &mut rig, &begin_and_go(rt.alloc(), &script, &[10])?)?;
    assert_eq!(rt; last_go(&at_once), Some((Reason::End, 6, 0)));
    let spent = show(&rt, &mut rig, &begin_and_go(rt.alloc(), &script, &[5])?)?;
    assert_eq!(rt; last_go(&spent), Some((Reason::Spent, 5, 0)));
    let ended = show(&rt, &mut rig, &begin_and_go(rt.alloc(), &script, &[5, 5])?)?;
    assert_eq!(rt; last_go(&ended), Some((Reason::End, 1, 0)));
    Ok(())
}

// Two ports of different make, both held, are led home in rising order.
#[test]
fn a_strike_goes_port_by_port(rt: HostRuntime) -> Result<(), Fail> {
    let bytes = main_with(rt.alloc(), 2, &PAIR)?;
    let script = checked(&BOOK, &bytes)?;
    let mut rig = Before::new(
        Trail::new(Projector::new(&[])),
        Single::new(Projector::new(&[])),
    );
    let calls = strike_after(rt.alloc(), &script, 3)?;
    let played = show(&rt, &mut rig, &calls)?;
    let letters = [
        sent(1, 0, 1),
        sent(0, 0, 1),
        sent(0, 2, 2),
        sent(0, 6, 1),
        sent(0, 1, 0),
        sent(1, 1, 0),
    ];
    assert_eq!(rt; played.log.as_slice(), letters.as_slice());
    let spent = Report {
        reason: Reason::Spent,
        steps: 3,
        letters: 3,
    };
    let answers = [
        Answer::Begun(Ok(2)),
        Answer::Went(Ok(spent)),
        Answer::Struck(Ok(3)),
        Answer::Looked(Ok((0, true))),
        Answer::Looked(Err(StageCause::NoSuchPort.at(2))),
        Answer::Went(Err(StageCause::Over.at(NOWHERE))),
    ];
    assert_eq!(rt; played.answers.as_slice(), answers.as_slice());
    Ok(())
}

fn row(heap: Global, ports: u8) -> Result<Row<Projector<'static>>, Fail> {
    let mut devices = Vec::new(heap);
    for _ in 0..ports {
        devices.push(Projector::new(&[]))?;
    }
    Row::new(devices).map_err(|_| Fail::new("no devices"))
}

// Eight ports of one make; a rig of seven is refused.
#[test]
fn eight_ports(rt: HostRuntime) -> Result<(), Fail> {
    let heap = rt.alloc();
    let mut body = Vec::new(heap);
    for letter in [0, 2, 6, 1] {
        for port in 0..8 {
            body.extend_from_slice(&[0x20, port, letter, 0])?;
        }
    }
    let bytes = main_with(heap, 8, &body)?;
    let script = checked(&BOOK, &bytes)?;
    let calls = strike_after(heap, &script, 20)?;
    let played = show(&rt, &mut row(heap, 8)?, &calls)?;
    assert_eq!(rt;
        played.answers.as_slice().get(2).copied(),
        Some(Answer::Struck(Ok(12)))
    );
    assert_eq!(rt; played.log.len(), 32);
    let refused = show(&rt, &mut row(heap, 7)?, &calls)?;
    assert_eq!(rt;
        refused.answers.as_slice().first().copied(),
        Some(Answer::Begun(Err(StageCause::OtherCount.at(NOWHERE))))
    );
    assert_eq!(rt; refused.log.len(), 0);
    Ok(())
}

// Where memory ends, the calls made until then are answered, and no other: `rt try --test --fail-alloc N` ends it at the Nth request.
#[test]
fn without_memory_a_show_ends_between_two_calls(rt: HostRuntime) -> Result<(), Fail> {
    let calls = [Call::Go(1), Call::Look(0), Call::Strike];
    let answers = [
        Answer::Went(Err(StageCause::Over.at(NOWHERE))),
        Answer::Looked(Err(StageCause::NoSuchPort.at(0))),
        Answer::Struck(Err(StageCause::Over.at(NOWHERE))),
    ];
    let (played, done) = perform(rt.alloc(), &mut Single::new(Projector::new(&[])), &calls);
    assert!(rt; answers.starts_with(played.answers.as_slice()));
    assert_eq!(rt; done.is_ok(), played.answers.len() == calls.len());
    Ok(())
}
