// Answers the lines of standard input, checks the book in a file and the script in another, plays them, or performs an evening.
#![tactic(auto)]

mod evening;
mod failure;
mod play;
mod request;

use console::{Answer, Desk, transcript};
use evening::evening;
use failure::Failure;
use play::play;
use request::{Request, request_of};
use std::io::Read;
use std::process::ExitCode;
use std::{env, fs, io};

// The text alone goes to standard error: a returned error would be printed in a form for programmers.
fn main(rt: HostRuntime) -> ExitCode {
    match run(&rt) {
        Ok(()) => ExitCode::SUCCESS,
        Err(failure) => {
            let _ = eprintln!(rt; "{failure}");
            ExitCode::FAILURE
        }
    }
}

fn run(rt: &HostRuntime) -> Result<(), Failure> {
    match request_of(&words(rt)?).ok_or(Failure::Usage)? {
        Request::Answer => answer_input(rt)?,
        Request::Check(book, script) => check_files(rt, book, script)?,
        Request::Play(book, script, devices) => play(rt, book, script, devices)?,
        Request::Evening => evening(rt)?,
    }
    Ok(())
}

// The words of the command line.
fn words(rt: &HostRuntime) -> io::Result<Vec<String>> {
    Ok(env::args(rt)?.collect(rt.alloc())?)
}

fn answer_input(rt: &HostRuntime) -> io::Result<()> {
    let heap = rt.alloc();
    let mut input = Vec::new(heap);
    rt.stdin().read_to_end(&mut input)?;
    transcript(heap, &mut input, &mut rt.stdout())
}

// Prints what the console would answer; the first refusal is the failure.
fn check_files(rt: &HostRuntime, book: &str, script: Option<&str>) -> Result<(), Failure> {
    let bytes = fs::read(rt, book)?;
    let script = match script {
        Some(script) => Some(fs::read(rt, script)?),
        None => None,
    };
    let mut desk = Desk::new();
    let mut passed = desk.check_book(&bytes);
    print!(rt; "{}", Answer::Book(passed))?;
    if let Some(bytes) = &script {
        let parts = desk.check_script(bytes);
        print!(rt; "{}", Answer::Script(parts))?;
        passed = passed.and(parts);
    }
    passed?;
    Ok(())
}
