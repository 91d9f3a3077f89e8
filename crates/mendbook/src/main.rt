// Mends a torn book: mendbook < TORN > WHOLE
//
// The book comes on standard input, and the result goes to standard output. What was kept, dropped and added, or why nothing was written, is said on standard error, in
// words; of a book that was written it is said only when all of it was taken.
#![tactic(auto)]

use mend::Mending;
use std::env::Env;
use std::process::ExitCode;
use terms::{Book, Refusal};

// Mending settles sagas, and nothing else.
fn say_who_stays_open(rt: &impl Eprint) {
    let _ = eprintln!(rt;
        "mendbook: transactions that belong to no move stay as they are, open ones too"
    );
}

// Nothing was wrong.
fn say_own(rt: &impl Eprint, events: usize) {
    let _ = eprintln!(rt;
        "mendbook: nothing was wrong, and the book is handed back as it was: events {events}"
    );
    say_who_stays_open(rt);
}

fn say_mended(rt: &impl Eprint, kept: usize, dropped: usize, added: usize) {
    let _ = eprintln!(rt;
        "mendbook: mended: events kept {kept}, bytes dropped {dropped}, closing steps added {added}"
    );
    say_who_stays_open(rt);
}

// Why a book cannot be mended. Tables are refused by 1 to 6 and 21, and 1 is also for a result that would be too long; no other refusal comes here.
fn why(refusal: Refusal) -> &'static str {
    match refusal {
        Refusal::TooLong => "the book, or what would come of it, is longer than 65536 bytes",
        Refusal::Torn => "the book breaks off in its front tables",
        Refusal::BadNumber => {
            "a number in the front tables is not in its short form, or is too large"
        }
        Refusal::BadEdition => "the book is of another edition, or is no book at all",
        Refusal::BadCount => "a count in the front tables is out of its range",
        Refusal::BadDependency => {
            "a declared dependency names what is not there, is not allowed, or is out of order"
        }
        Refusal::NeverMoves => "the declared dependencies let some wait for each other",
        _ => "there is no room for what would come of it",
    }
}

fn say_refused(rt: &impl Eprint, refusal: Refusal, kept: usize, place: usize) {
    let number = refusal.number();
    let why = why(refusal);
    let _ = eprintln!(rt;
        "mendbook: refused by {number} at byte {place}, events kept {kept}, and nothing was written: {why}"
    );
}

// What is to be said of a book whose result was taken whole.
fn say_end(rt: &impl Eprint, mending: Mending) {
    match mending {
        Mending::Own(events) => say_own(rt, events),
        Mending::Wrote(_, kept, dropped, added) => say_mended(rt, kept, dropped, added),
        Mending::Refuses(refusal, kept, place) => say_refused(rt, refusal, kept, place),
    }
}

// Writes what came of mending; after a refusal that is nothing.
fn hand_back<'a>(
    rt: &(impl Print + Eprint),
    mending: Mending,
    book: &'a [u8],
    room: &'a [u8],
) -> ExitCode {
    let whole = mend::mended(mending, book, room);
    match rt.write_all(whole) {
        Ok(()) => {
            say_end(rt, mending);
            ExitCode::SUCCESS
        }
        Err(reason) => input::not_written(rt, "mendbook: the book was not written whole", reason),
    }
}

// Mends a book and hands it back. No result is longer than the room.
fn mend_in(rt: &(impl Print + Eprint), book: &[u8], room: &mut [u8]) -> ExitCode {
    let mending = mend::mend(book, room);
    hand_back(rt, mending, book, room)
}

// Reads the book and mends it. One byte more than a book may have is enough to know that it is too long.
fn mend_input(rt: &(impl Input + Print + Eprint)) -> ExitCode {
    let mut bytes = [0u8; 65537];
    let mut room = [0u8; Book::BYTES];
    match input::fill(&mut rt.reader(), &mut bytes) {
        Ok(n) => mend_in(rt, &bytes[..n], &mut room),
        Err(reason) => input::fail(rt, "mendbook: the book was not read", reason),
    }
}

fn main(rt: HostRuntime) -> ExitCode {
    if input::is_word(rt.arg(1, &mut [])) {
        let _ = eprintln!(rt; "usage: mendbook < TORN > WHOLE");
        return ExitCode::SUCCESS;
    }
    mend_input(&rt)
}
