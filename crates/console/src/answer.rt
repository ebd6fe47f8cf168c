// What the console answers, as it prints it.
ghost use Rattle.std.specs.Prelude.{Some};
ghost use Rattle.std.specs.Fmt.{DisplaysOnOk};
ghost use Rattle.std.specs.List.{flat_map};
ghost use Rattle.console.specs.Answers.{answer_text, look_text, port_text, refused, report_text};

use crate::ports::PortLine;
use faults::Fault;
use machine::{Reason, Report};
use std::fmt;

#[derive(Clone, Copy)]
pub enum Answer {
    // how many kinds the book has, or why it is refused
    Book(Result<u8, Fault>),
    // how many parts the script has, or why it is refused
    Script(Result<u8, Fault>),
    // how many ports the rig has, or why it is refused
    Rig(Result<u8, Fault>),
    Player,
    // how many ports the begun player has, or why begin is refused
    Begun(Result<u8, Fault>),
    Went(Result<Report, Fault>),
    // the station that the player keeps, and whether it is over
    Looked(Result<(u8, bool), Fault>),
    // how many letters were sent
    Struck(Result<u32, Fault>),
    // what the ports of the rig show, none behind the last: an array, since no ArrayVec can be copied
    Ports([Option<PortLine>; 8]),
    // the number of the line, from 1
    NotUnderstood(u64),
}

// Other programs read these texts. Each is whole lines, with their newlines.
impl fmt::Display for Answer {
    ghost output = { λ a. Some (answer_text a) };

    fn fmt<W: fmt::Write>(&self, f: &mut fmt::Formatter<W>) -> fmt::Result {
        match self {
            Answer::Book(Ok(kinds)) => writeln!(f, "book passed, {kinds} kinds"),
            Answer::Book(Err(fault)) => write_refused("book", fault, f),
            Answer::Script(Ok(parts)) => writeln!(f, "script passed, {parts} parts"),
            Answer::Script(Err(fault)) => write_refused("script", fault, f),
            Answer::Rig(Ok(ports)) => writeln!(f, "rig {ports} ports"),
            Answer::Rig(Err(fault)) => write_refused("rig", fault, f),
            Answer::Player => writeln!(f, "player new"),
            Answer::Begun(Ok(ports)) => writeln!(f, "begun, {ports} ports"),
            Answer::Begun(Err(fault)) => write_refused("begin", fault, f),
            Answer::Went(Ok(report)) => write_report(report, f),
            Answer::Went(Err(fault)) => write_refused("go", fault, f),
            Answer::Looked(Ok((station, over))) => write_look(*station, *over, f),
            Answer::Looked(Err(fault)) => write_refused("look", fault, f),
            Answer::Struck(Ok(letters)) => writeln!(f, "strike {letters} letters"),
            Answer::Struck(Err(fault)) => write_refused("strike", fault, f),
            Answer::Ports(lines) => write_ports(lines, f),
            Answer::NotUnderstood(line) => writeln!(f, "line {line}: not understood"),
        }
    }
}

fn write_refused<W: fmt::Write>(what: &str, fault: &Fault, f: &mut fmt::Formatter<W>) -> fmt::Result
    ensures { DisplaysOnOk W.write_str_gives f.old result (Some (refused what.now fault.now)) f.new }
{
    let number = fault.number();
    let place = fault.place();
    writeln!(f, "{what} refused {number} at {place}")
}

fn write_report<W: fmt::Write>(report: &Report, f: &mut fmt::Formatter<W>) -> fmt::Result
    ensures { DisplaysOnOk W.write_str_gives f.old result (Some (report_text report.now)) f.new }
{
    let Report {
        reason,
        steps,
        letters,
    } = *report;
    match reason {
        Reason::End => writeln!(f, "go end, {steps} steps, {letters} letters"),
        Reason::Spent => writeln!(f, "go spent, {steps} steps, {letters} letters"),
        Reason::Cue(number) => { writeln!(f, "go cue {number}, {steps} steps, {letters} letters") }
        Reason::Failed { code, place } => {
            writeln!(
                f,
                "go failed {code} at {place}, {steps} steps, {letters} letters"
            )
        }
    }
}

fn write_look<W: fmt::Write>(station: u8, over: bool, f: &mut fmt::Formatter<W>) -> fmt::Result
    ensures { DisplaysOnOk W.write_str_gives f.old result (Some (look_text station over)) f.new }
{
    if over {
        writeln!(f, "look station {station}, over")
    } else {
        writeln!(f, "look station {station}, begun")
    }
}

fn write_ports<W: fmt::Write>(lines: &[Option<PortLine>], f: &mut fmt::Formatter<W>) -> fmt::Result
    ensures { DisplaysOnOk W.write_str_gives f.old result (Some (flat_map port_text lines.now)) f.new }
{
    for line in lines {
        write_port(line, f)?;
    }
    Ok(())
}

fn write_port<W: fmt::Write>(line: &Option<PortLine>, f: &mut fmt::Formatter<W>) -> fmt::Result
    ensures { DisplaysOnOk W.write_str_gives f.old result (Some (port_text line.now)) f.new }
{
    match *line {
        Some(
            PortLine {
                port,
                station,
                heard,
            },
        ) => writeln!(f, "port {port} station {station}, heard {heard}"),
        None => Ok(()),
    }
}
