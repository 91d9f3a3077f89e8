// Shows a book as text, a line for each thing that stands in it, in words: showbook < BOOK
//
// The text goes to standard output. Of a book that cannot be read to its end, all is shown that can be, and the refusal is said on standard error with its place; what could
// not be read or written is said there too, and nothing else.
#![tactic(auto)]

use packing::NotUnpacked;
use std::env::Env;
use std::io;
use std::process::ExitCode;
use terms::{Book, Refusal, Verdict};

fn say_refused(rt: &impl Eprint, refusal: Refusal, place: usize) {
    let number = refusal.number();
    let _ = eprintln!(rt;
        "showbook: the book cannot be read to its end: refused by {number} at byte {place}"
    );
}

// Says why a book cannot be read to its end, if it cannot.
fn say_end(rt: &impl Eprint, book: &[u8]) {
    let judgement = onward::read(book);
    let answer = judgement.answer;
    let place = judgement.place;
    if let Verdict::Refused(refusal) = answer {
        say_refused(rt, refusal, place);
    }
}

// How many fields of a book stand in the room now: all, or those before the first that is none.
fn unpack(book: &[u8], most: u32, room: &mut [u32]) -> usize {
    match packing::unpack(book, most, room) {
        Ok(n) => n,
        Err(NotUnpacked::At(fault)) => match book.get(..fault.place) {
            Some(front) => packing::unpack(front, most, room).unwrap_or(0),
            None => 0,
        },
        Err(NotUnpacked::NoRoomFor(_)) => 0,
    }
}

// Writes the text of the first fields by way of a room.
fn print_by(rt: &impl Print, fields: &[u32], n: usize, room: &mut [u8]) -> io::Result<()> {
    let put = match fields.get(..n) {
        Some(front) => script::show(front, room),
        None => None,
    };
    input::write_front(rt, room, put)
}

// Writes the text of a book by way of two rooms.
fn print_in(rt: &impl Print, book: &[u8], fields: &mut [u32], room: &mut [u8]) -> io::Result<()> {
    let edition = tables::edition_of(book);
    let most = edition.most();
    let n = unpack(book, most, fields);
    print_by(rt, fields, n, room)
}

// A book has no more fields than bytes, and its text has at most eleven bytes for each of them.
fn print_text(rt: &impl Print, book: &[u8]) -> io::Result<()> {
    let mut fields = [0u32; Book::BYTES];
    let mut room = [0u8; 720896];
    print_in(rt, book, &mut fields, &mut room)
}

fn show(rt: &(impl Print + Eprint), book: &[u8]) -> ExitCode {
    if Book::BYTES < book.len() {
        say_refused(rt, Refusal::TooLong, 0);
        return ExitCode::SUCCESS;
    }
    match print_text(rt, book) {
        Ok(()) => {
            say_end(rt, book);
            ExitCode::SUCCESS
        }
        Err(reason) => input::not_written(rt, "showbook: the text was not written whole", reason),
    }
}

// Reads the book and shows it. One byte more than a book may have is enough to know that it is too long.
fn show_input(rt: &(impl Input + Print + Eprint)) -> ExitCode {
    let mut bytes = [0u8; 65537];
    match input::fill(&mut rt.reader(), &mut bytes) {
        Ok(n) => show(rt, &bytes[..n]),
        Err(reason) => input::fail(rt, "showbook: the book was not read", reason),
    }
}

fn main(rt: HostRuntime) -> ExitCode {
    if input::is_word(rt.arg(1, &mut [])) {
        let _ = eprintln!(rt; "usage: showbook < BOOK");
        return ExitCode::SUCCESS;
    }
    show_input(&rt)
}
