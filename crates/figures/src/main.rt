// Tells the term meeting how the moves of a term stand: figures BOOK ..
//
// Each word is the name of a book. The table goes to standard output, and before it a line for each book that was refused. A book that was not read is not counted, nor is one
// more than 1,000; that, and what was not written or understood, is said on standard error, and nothing else stands there.
#![tactic(auto)]

use input::Reason;
use listing::Text;
use meeting::Row;
use std::env::{Env, FillError};
use std::io;
use std::io::Read;
use std::process::ExitCode;
use std::rt::Files;
use terms::Verdict;
use totals::{Answer, NotRead, Totals};

// ---- one book

// The line of a refused book, by its name; of one that is accepted nothing is said.
fn say_refused(out: &impl Print, name: &[u8], verdict: Verdict) -> io::Result<()> {
    let Verdict::Refused(refusal) = verdict else {
        return Ok(());
    };
    let number = refusal.number();
    print!(out; "refused {number} ")?;
    out.write_all(name)?;
    out.write_all(b"\n")
}

// Begins what is said of a book on standard error with its name, which need not be text.
fn say_name(err: &impl Print, name: &[u8]) {
    let _ = err.write_all(b"figures: ");
    let _ = err.write_all(name);
}

// Says of a book on standard error what is to be said of it.
fn warn(err: &impl Print, name: &[u8], words: &str) {
    say_name(err, name);
    let _ = println!(err; " {words}");
}

// What is to be said of a book that was read.
fn say_answer(out: &impl Print, err: &impl Print, name: &[u8], answer: Answer) -> io::Result<()> {
    match answer {
        Ok(verdict) => say_refused(out, name, verdict),
        Err(NotRead::TooManyBooks) => {
            warn(
                err,
                name,
                "is refused by 23, and not counted: 1000 books are",
            );
            Ok(())
        }
    }
}

// Adds a book that was read.
fn add_read(
    out: &impl Print,
    err: &impl Print,
    totals: Totals,
    name: &[u8],
    book: &[u8],
) -> io::Result<Totals> {
    let added = totals::add(totals, book);
    say_answer(out, err, name, added.answer)?;
    Ok(added.totals)
}

// The book of this name was not read, for this reason, and is not counted.
fn say_not_read(err: &impl Print, name: &[u8], reason: io::Error) {
    let reason = Reason(reason);
    say_name(err, name);
    let _ = println!(err; " was not read: {reason}");
}

// Reads the book from a file and adds it. One byte more than a book may have is enough to know that it is too long.
fn add_from(
    out: &impl Print,
    err: &impl Print,
    totals: Totals,
    name: &[u8],
    mut file: impl Read + Drop,
) -> io::Result<Totals> {
    let mut bytes = [0u8; 65537];
    match input::fill(&mut file, &mut bytes) {
        Ok(n) => add_read(out, err, totals, name, &bytes[..n]),
        Err(reason) => {
            say_not_read(err, name, reason);
            Ok(totals)
        }
    }
}

// Opens the book of this name and adds it.
fn add_named(
    rt: &(impl Files + Print),
    err: &impl Print,
    totals: Totals,
    name: &[u8],
) -> io::Result<Totals> {
    match input::open(rt, name) {
        Ok(file) => add_from(rt, err, totals, name, file),
        Err(reason) => {
            say_not_read(err, name, reason);
            Ok(totals)
        }
    }
}

// What the system says of a name that is longer than it takes.
fn name_too_long() -> io::Error {
    io::Error::from_raw_os_error(36)
}

// The totals with the book that a word names, or none where there is no such word. A name that is longer than the system takes is told as it is: cut off.
fn add_word(
    rt: &(impl Env + Files + Print),
    err: &impl Print,
    totals: Totals,
    i: usize,
) -> io::Result<Option<Totals>> {
    let mut name = [0u8; 4096];
    match rt.arg(i, &mut name) {
        Ok(n) => Ok(Some(add_named(rt, err, totals, &name[..n])?)),
        Err(FillError::TooLong) => {
            say_not_read(err, &name, name_too_long());
            Ok(Some(totals))
        }
        Err(FillError::NotPresent) => Ok(None),
    }
}

// ---- the table

// Writes a row.
fn print_row(out: &impl Print, totals: Totals, row: Row) -> io::Result<()> {
    let text = meeting::row_line(totals, row);
    let mut room = [0u8; Text::MOST];
    let put = text.put(&mut room);
    input::write_front(out, &room, put)
}

// Writes the table: how many books were read and refused, and how the moves stand.
fn print_table(out: &impl Print, totals: Totals) -> io::Result<()> {
    let rows = [
        Row::BooksRead,
        Row::BooksRefused,
        Row::Begun,
        Row::Committed,
        Row::BackedOut,
        Row::StillOpen,
        Row::OfThoseBegun,
    ];
    for row in rows {
        print_row(out, totals, row)?;
    }
    Ok(())
}

// Adds the books that the words name, one after another, and writes the table.
fn tell(rt: &(impl Env + Files + Print), err: &impl Print) -> io::Result<()> {
    let mut totals = Totals::none();
    for i in 1..usize::MAX {
        let Some(sum) = add_word(rt, err, totals, i)? else {
            break;
        };
        totals = sum;
    }
    print_table(rt, totals)
}

fn main(rt: HostRuntime) -> ExitCode {
    if !input::is_word(rt.arg(1, &mut [])) {
        let _ = eprintln!(rt; "usage: figures BOOK ..");
        return ExitCode::SUCCESS;
    }
    match tell(&rt, &rt.stderr()) {
        Ok(()) => ExitCode::SUCCESS,
        Err(reason) => input::not_written(&rt, "figures: the table was not written whole", reason),
    }
}
