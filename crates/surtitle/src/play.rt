// A desk for one show: two files and a rig, and then line after line as it comes.
use crate::failure::Failure;
use console::{
    Answer, Desk, Line, NotUnderstood, StageCommand, parse_line, parse_stage, write_reply,
};
use protocol::Entry;
use std::io::{BufRead, Write};
use std::{fs, io};

pub fn play(rt: &HostRuntime, book: &str, script: &str, devices: &[String]) -> Result<(), Failure> {
    let book = fs::read(rt, book)?;
    let script = fs::read(rt, script)?;
    let mut rig = rig_line(rt, devices)?;
    let rig = parse_line(rt.alloc(), &mut rig).map_err(io::Error::from)?;
    let mut desk = Desk::new();
    load_book(rt, &mut desk, &book)?;
    load_script(rt, &mut desk, &script)?;
    load_rig(rt, &mut desk, &rig)?;
    Ok(answer_lines(rt, &mut desk)?)
}

// Each is answered as on the console; the first that is refused is the failure.
fn load_book<'a>(rt: &HostRuntime, desk: &mut Desk<'a>, bytes: &'a [u8]) -> Result<(), Failure> {
    let kinds = desk.check_book(bytes);
    print!(rt; "{}", Answer::Book(kinds))?;
    kinds?;
    Ok(())
}

fn load_script<'a>(rt: &HostRuntime, desk: &mut Desk<'a>, bytes: &'a [u8]) -> Result<(), Failure> {
    let parts = desk.check_script(bytes);
    print!(rt; "{}", Answer::Script(parts))?;
    parts?;
    Ok(())
}

fn load_rig<'a>(rt: &HostRuntime, desk: &mut Desk<'a>, rig: &'a Line<'a>) -> Result<(), Failure> {
    let answer = desk.answer(rt.alloc(), 0, rig).map_err(io::Error::from)?;
    let Some(Answer::Rig(ports)) = answer else {
        return Err(Failure::Usage);
    };
    print!(rt; "{}", Answer::Rig(ports))?;
    ports?;
    Ok(())
}

// The line that asks for the rig.
fn rig_line(rt: &HostRuntime, devices: &[String]) -> io::Result<Vec<u8>> {
    let mut line = b"rig".to_vec(rt.alloc())?;
    for device in devices {
        line.push(b' ')?;
        line.extend_from_slice(device.as_bytes())?;
    }
    Ok(line)
}

// Until the input ends. An operator waits for each answer, so each is written out at once.
fn answer_lines(rt: &HostRuntime, desk: &mut Desk) -> io::Result<()> {
    let mut line = Vec::new(rt.alloc());
    for number in 1..u64::MAX {
        line.clear();
        if rt.stdin().lock().read_until(b'\n', &mut line)? == 0 {
            break;
        }
        answer_line(rt, desk, number, &line)?;
        rt.stdout().flush()?;
    }
    Ok(())
}

fn answer_line(rt: &HostRuntime, desk: &mut Desk, number: u64, line: &[u8]) -> io::Result<()> {
    match answer(desk, number, line) {
        Some(answer) => print_reply(rt, &answer, desk.entries(&answer)),
        None => Ok(()),
    }
}

// The book, the script, the rig and the player stay for the whole show.
fn answer(desk: &mut Desk, number: u64, line: &[u8]) -> Option<Answer> {
    match parse_stage(line.strip_suffix(b"\n".as_slice()).unwrap_or(line))? {
        Err(NotUnderstood) | Ok(StageCommand::Player) => Some(Answer::NotUnderstood(number)),
        Ok(command) => Some(desk.act(number, command)),
    }
}

fn print_reply(rt: &HostRuntime, answer: &Answer, entries: &[Entry]) -> io::Result<()> {
    let mut text = String::new(rt.alloc());
    write_reply(&mut text, answer, entries)?;
    print!(rt; "{text}")
}
