// Tells staff how the record move stands: recordmove PLAN < BOOK
//
// The plan is a text file, the book comes on standard input. One line for each class list and one for each move go to standard output, or one line
// that says why the plan or the book is refused. What was not read, written or understood is said on standard error, and nothing else stands there.
#![tactic(auto)]

use std::env::Env;
use std::io;
use std::io::Read;
use std::process::ExitCode;
use std::rt::Files;
use telling::NotTold;

// Says what went wrong, if something did.
fn say_end(rt: &impl Eprint, told: Result<(), NotTold>) -> ExitCode {
    match told {
        Ok(()) => {}
        Err(NotTold::NotWritten(reason)) => {
            return input::not_written(
                rt,
                "recordmove: what there is to say was not written whole",
                reason,
            );
        }
        Err(NotTold::NotUnderstood(line)) => {
            let _ = eprintln!(rt; "recordmove: line {line} of the plan is not understood");
        }
        Err(NotTold::TooLong) => {
            let _ = eprintln!(rt; "recordmove: the plan is longer than 65536 bytes");
        }
    }
    ExitCode::SUCCESS
}

// Reads the book and tells what there is to say; a book that was not read gets no verdict. One byte more than a book may have is enough to know
// that it is too long.
fn tell(rt: &(impl Input + Print + Eprint), plan: &[u8]) -> ExitCode {
    let mut bytes = [0u8; 65537];
    match input::fill(&mut rt.reader(), &mut bytes) {
        Ok(n) => say_end(rt, telling::tell(rt, plan, &bytes[..n])),
        Err(reason) => input::fail(rt, "recordmove: the book was not read", reason),
    }
}

// The plan was not read, for this reason.
fn say_not_read(rt: &impl Eprint, reason: io::Error) -> ExitCode {
    input::fail(rt, "recordmove: the plan was not read", reason)
}

// Reads the plan, and then the rest. One byte more than a plan may have is enough, too.
fn tell_from(rt: &(impl Input + Print + Eprint), mut file: impl Read + Drop) -> ExitCode {
    let mut text = [0u8; 65537];
    let filled = input::fill(&mut file, &mut text);
    drop(file);
    match filled {
        Ok(n) => tell(rt, &text[..n]),
        Err(reason) => say_not_read(rt, reason),
    }
}

// Opens the plan of this name, and tells of it.
fn tell_named(rt: &(impl Files + Input + Print + Eprint), name: &[u8]) -> ExitCode {
    match input::open(rt, name) {
        Ok(file) => tell_from(rt, file),
        Err(reason) => say_not_read(rt, reason),
    }
}

// The plan's name is the one word on the command line. One that is longer than the system takes names no file.
fn tell_by_word(rt: &(impl Env + Files + Input + Print + Eprint)) -> ExitCode {
    if !input::is_word(rt.arg(1, &mut [])) || input::is_word(rt.arg(2, &mut [])) {
        let _ = eprintln!(rt; "usage: recordmove PLAN < BOOK");
        return ExitCode::SUCCESS;
    }
    let mut name = [0u8; 4096];
    match rt.arg(1, &mut name) {
        Ok(n) => tell_named(rt, &name[..n]),
        Err(_) => tell_named(rt, b""),
    }
}

fn main(rt: HostRuntime) -> ExitCode {
    tell_by_word(&rt)
}
