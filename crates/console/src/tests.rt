use crate::answer::Answer;
use crate::desk::Desk;
use crate::layered::Layered;
use crate::line::{Command, NotUnderstood, parse_line};
use crate::reply::write_reply;
use crate::session::transcript;
use crate::stage::{StageCommand, parse_stage};
use device::{Device, Projector, Trail};
use protocol::Entry;
use std::test::Fail;

#[test]
fn answers_line_by_line(rt: HostRuntime) -> Result<(), Fail> {
    let mut input = *b"# a remark\n\nbook 0\nbook\r\nplay";
    let mut text = Vec::new(rt.alloc());
    transcript(rt.alloc(), &mut input, &mut text)?;
    assert_eq!(rt;
        text.as_slice(),
        b"line 3: not understood\nbook passed, 0 kinds\nline 5: not understood\n".as_slice()
    );
    Ok(())
}

// So it is with `rt try --test --fail-alloc 1`, where there is no memory.
#[test]
fn an_empty_input_wants_no_memory(rt: HostRuntime) -> Result<(), Fail> {
    let mut text = Vec::new(rt.alloc());
    transcript(rt.alloc(), &mut [], &mut text)?;
    assert!(rt; text.is_empty());
    Ok(())
}

#[test]
fn digits_may_be_split(rt: HostRuntime) -> Result<(), Fail> {
    let mut line = *b"\tbook a B\tcD9 0";
    match parse_line(rt.alloc(), &mut line)? {
        Some(Ok(Command::Book(bytes))) => {
            assert_eq!(rt; bytes, [0xab, 0xcd, 0x90].as_slice());
            Ok(())
        }
        _ => Err(Fail::new("no book")),
    }
}

#[test]
fn a_long_book_is_refused(rt: HostRuntime) -> Result<(), Fail> {
    let bytes = [0; 8193];
    let answer = Answer::Book(Desk::new().check_book(&bytes));
    let text = answer.to_string(rt.alloc())?;
    assert_eq!(rt; text.as_str(), "book refused 1 at 65535\n");
    Ok(())
}

#[test]
fn a_rig_is_held_until_another_is(rt: HostRuntime) -> Result<(), Fail> {
    let mut input =
        *b"ports\nrig trail/projector:02 projector\nrig patch=10101010101010101010101010101010/projector\nports\n";
    let mut text = Vec::new(rt.alloc());
    transcript(rt.alloc(), &mut input, &mut text)?;
    assert_eq!(rt;
        text.as_slice(),
        b"line 1: not understood\nrig 2 ports\nrig refused 31 at 65535\nport 0 station 0, heard 0\nport 1 station 0, heard 0\n".as_slice()
    );
    Ok(())
}

#[test]
fn a_player_is_asked(rt: HostRuntime) -> Result<(), Fail> {
    let mut input = *b"player\nbegin\nrig projector\nbegin\nlook 0\ngo 1 120\nstrike 4097\n";
    let mut text = Vec::new(rt.alloc());
    transcript(rt.alloc(), &mut input, &mut text)?;
    assert_eq!(rt;
        text.as_slice(),
        b"player new\nline 2: not understood\nrig 1 ports\nbegin refused 24 at 65535\nlook refused 31 at 0\ngo refused 27 at 65535\nline 7: not understood\n".as_slice()
    );
    Ok(())
}

#[test]
fn a_line_is_parsed_without_memory(rt: HostRuntime) -> Result<(), Fail> {
    let go = StageCommand::Go {
        steps: 7,
        room: 2000,
    };
    assert_eq!(rt; parse_stage(b" go 007 "), Some(Ok(go)));
    assert_eq!(rt; parse_stage(b"look 256"), Some(Err(NotUnderstood)));
    assert_eq!(rt; parse_stage(b"# look 0"), None);
    Ok(())
}

#[test]
fn a_letter_has_its_own_line(rt: HostRuntime) -> Result<(), Fail> {
    let entries = [Entry {
        port: 1,
        letter: 3,
        answer: 2,
        station: 4,
    }];
    let mut text = String::new(rt.alloc());
    write_reply(&mut text, &Answer::Struck(Ok(1)), &entries)?;
    assert_eq!(rt; text.as_str(), "strike 1 letters\n  1 3 2 4\n");
    Ok(())
}

#[test]
fn a_layer_means_what_is_below(rt: HostRuntime) -> Result<(), Fail> {
    let mut device = Layered::Trailed(Trail::new(Projector::new(&[])));
    assert_eq!(rt; device.edge(0, 0, 0), Some(1));
    assert_eq!(rt; device.ask(0), 0);
    assert_eq!(rt; device.station(), 1);
    assert_eq!(rt; device.ask(0), 255);
    assert_eq!(rt; device.heard(), 2);
    Ok(())
}

// The three below hold too where memory ends at any request of the call that they are about: `rt try --test --fail-alloc N` ends it
// at the Nth.
#[test]
fn without_memory_a_line_counts_for_nothing(rt: HostRuntime) -> Result<(), Fail> {
    let mut text = *b"rig trail/projector:02";
    let line = parse_line(rt.alloc(), &mut text)?;
    let mut desk = Desk::new();
    let answered = desk.answer(rt.alloc(), 1, &line);
    let ports = desk.act(2, StageCommand::Ports);
    match answered {
        Ok(answer) => {
            assert!(rt; matches!(answer, Some(Answer::Rig(Ok(1)))));
            assert!(rt; matches!(ports, Answer::Ports(_)));
        }
        Err(_) => assert!(rt; matches!(ports, Answer::NotUnderstood(2))),
    }
    Ok(())
}

#[test]
fn without_memory_no_half_of_a_short_transcript_is_written(rt: HostRuntime) -> Result<(), Fail> {
    let mut input = *b"book\nplay";
    let mut text = Vec::new(rt.alloc());
    match transcript(rt.alloc(), &mut input, &mut text) {
        Ok(()) => assert_eq!(rt;
            text.as_slice(),
            b"book passed, 0 kinds\nline 2: not understood\n".as_slice()
        ),
        Err(_) => assert!(rt; text.is_empty()),
    }
    Ok(())
}

#[test]
fn without_memory_a_text_keeps_its_front(rt: HostRuntime) -> Result<(), Fail> {
    let mut text = String::from_str(rt.alloc(), "so far\n")?;
    match write_reply(&mut text, &Answer::Struck(Ok(0)), &[]) {
        Ok(()) => assert_eq!(rt; text.as_str(), "so far\nstrike 0 letters\n"),
        Err(_) => assert!(rt; text.as_str().starts_with("so far\n")),
    }
    Ok(())
}
