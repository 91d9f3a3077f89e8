// Makes a book of a text that says it line by line: writebook < TEXT > BOOK
//
// The book goes to standard output, if it is one that is accepted whole; else nothing does, and the line that is not understood, or refused, is said on standard error by its
// number. What could not be read or written is said there too, and nothing else.
#![tactic(auto)]

use script::NotRead;
use std::env::Env;
use std::process::ExitCode;
use terms::{Book, Refusal};

fn say_not_understood(rt: &impl Eprint, number: usize) {
    let _ = eprintln!(rt; "writebook: line {number} is not understood");
}

fn say_too_long(rt: &impl Eprint) {
    let _ = eprintln!(rt; "writebook: the book would be longer than 65536 bytes: refused by 1");
}

fn say_refused(rt: &impl Eprint, line: usize, refusal: Refusal) {
    let number = refusal.number();
    let _ = eprintln!(rt; "writebook: line {line} is refused by {number}");
}

fn say_ends(rt: &impl Eprint, refusal: Refusal) {
    let number = refusal.number();
    let _ = eprintln!(rt; "writebook: the text ends too early: refused by {number}");
}

// Says which line of the text is refused: the one with which there are more fields than stand before the place.
fn say_place(rt: &impl Eprint, text: &[u8], refusal: Refusal, place: usize, fields: &mut [u32]) {
    match script::read(text, place, fields) {
        Err(NotRead::More(number)) => say_refused(rt, number, refusal),
        _ => say_ends(rt, refusal),
    }
}

fn say_why(rt: &impl Eprint, text: &[u8], refusal: Refusal, place: usize, fields: &mut [u32]) {
    match refusal {
        Refusal::TooLong => say_too_long(rt),
        _ => say_place(rt, text, refusal, place, fields),
    }
}

// Writes the book at the front of a room.
fn hand_out(rt: &(impl Print + Eprint), room: &[u8], n: usize) -> ExitCode {
    match input::write_front(rt, room, Some(n)) {
        Ok(()) => ExitCode::SUCCESS,
        Err(reason) => input::not_written(rt, "writebook: the book was not written whole", reason),
    }
}

// Makes the book of the first fields, which a text says.
fn make(rt: &(impl Print + Eprint), text: &[u8], n: usize, fields: &mut [u32]) -> ExitCode {
    let mut room = [0u8; Book::BYTES];
    let outcome = match fields.get(..n) {
        Some(said) => book::write(said, &mut room),
        None => return ExitCode::SUCCESS,
    };
    match outcome {
        Ok(size) => hand_out(rt, &room, size),
        Err(refused) => {
            say_why(rt, text, refused.refusal, refused.place, fields);
            ExitCode::SUCCESS
        }
    }
}

// No book has more fields than bytes. The room has as many places more as a form has fields.
fn make_of(rt: &(impl Print + Eprint), text: &[u8]) -> ExitCode {
    let mut fields = [0u32; 65542];
    match script::read(text, Book::BYTES, &mut fields) {
        Ok(n) => return make(rt, text, n, &mut fields),
        Err(NotRead::NotUnderstood(number)) => say_not_understood(rt, number),
        Err(NotRead::More(_) | NotRead::NoRoom) => say_too_long(rt),
    }
    ExitCode::SUCCESS
}

// Makes the book of the text that stands at the front of a room. A room that is full has one byte more than a text may have.
fn make_from(rt: &(impl Print + Eprint), room: &[u8], n: usize) -> ExitCode {
    if room.len() <= n {
        let _ = eprintln!(rt; "writebook: the text is longer than 1048576 bytes");
        return ExitCode::SUCCESS;
    }
    make_of(rt, &room[..n])
}

// Reads the text into a room and makes the book.
fn write_by(rt: &(impl Input + Print + Eprint), room: &mut [u8]) -> ExitCode {
    match input::fill(&mut rt.reader(), room) {
        Ok(n) => make_from(rt, room, n),
        Err(reason) => input::fail(rt, "writebook: the text was not read", reason),
    }
}

fn write_input(rt: &(impl Input + Print + Eprint)) -> ExitCode {
    let mut room = [0u8; 1048577];
    write_by(rt, &mut room)
}

fn main(rt: HostRuntime) -> ExitCode {
    if input::is_word(rt.arg(1, &mut [])) {
        let _ = eprintln!(rt; "usage: writebook < TEXT > BOOK");
        return ExitCode::SUCCESS;
    }
    write_input(&rt)
}
