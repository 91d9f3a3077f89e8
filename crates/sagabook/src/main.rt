// Reads a book from standard input and writes its listing to standard output. The word `permit-circles` reads a book whose tables wait for
// each other in a circle, too; the word `first-refusal` stops at the first refused event, as it was once; the word `replay` asks for the order to replay the committed
// changes in. What it could not read, write or understand it says on standard error, and nothing else stands there.
#![tactic(auto)]

use listing::Listing;
use onward::Judgement;
use std::env::{Env, FillError};
use std::io;
use std::process::ExitCode;
use tables::Circles;

// What can be told of a book: its listing, that of a book whose tables may wait in a circle, its listing to the first refusal, or the order to replay in.
#[derive(Drop)]
enum Wish {
    Listing,
    ListingWithCircles,
    ToFirstRefusal,
    Order,
}

// What a word asks for, if it is one of those that are known.
fn wish_of(word: &[u8]) -> Option<Wish> {
    if word == b"permit-circles".as_slice() {
        return Some(Wish::ListingWithCircles);
    }
    if word == b"first-refusal".as_slice() {
        return Some(Wish::ToFirstRefusal);
    }
    if word == b"replay".as_slice() {
        return Some(Wish::Order);
    }
    None
}

// What the words on the command line ask for. A word that is longer than those that are known is none of them.
fn asked_for(rt: &impl Env) -> Option<Wish> {
    let mut word = [0u8; 14];
    let n = match rt.arg(1, &mut word) {
        Ok(n) => n,
        Err(FillError::NotPresent) => return Some(Wish::Listing),
        Err(FillError::TooLong) => return None,
    };
    if input::is_word(rt.arg(2, &mut [])) {
        return None;
    }
    wish_of(&word[..n])
}

// Puts the listing of a book that was judged so into a room and writes it.
fn print_from(
    rt: &impl Print,
    book: &[u8],
    circles: Circles,
    judgement: Judgement,
    room: &mut [u8],
) -> io::Result<()> {
    let put = listing::put_whole(judgement, book, circles, room);
    input::write_front(rt, room, put)
}

// Writes the listing of a book that was judged so, from a room that holds every listing.
fn print_listing(
    rt: &impl Print,
    book: &[u8],
    circles: Circles,
    judgement: Judgement,
) -> io::Result<()> {
    let mut room = [0u8; Listing::MOST];
    print_from(rt, book, circles, judgement, &mut room)
}

// Writes the transactions in the order to replay in, each on a line of its own, and stops at one that is not taken whole.
fn print_order(rt: &impl Print, judgement: Judgement) -> io::Result<()> {
    let state = judgement.state;
    let order = replay::order_of(state.ops);
    for t in &order.numbers[..order.count] {
        println!(rt; "{t}")?;
    }
    Ok(())
}

fn list(
    rt: &(impl Print + Eprint),
    bytes: &[u8],
    circles: Circles,
    judgement: Judgement,
) -> ExitCode {
    match print_listing(rt, bytes, circles, judgement) {
        Ok(()) => ExitCode::SUCCESS,
        Err(reason) => {
            input::not_written(rt, "sagabook: the listing was not written whole", reason)
        }
    }
}

fn list_order(rt: &(impl Print + Eprint), judgement: Judgement) -> ExitCode {
    match print_order(rt, judgement) {
        Ok(()) => ExitCode::SUCCESS,
        Err(reason) => input::not_written(rt, "sagabook: the order was not written whole", reason),
    }
}

// Tells of the book in these bytes what is wished.
fn tell_of(rt: &(impl Print + Eprint), wish: Wish, bytes: &[u8]) -> ExitCode {
    match wish {
        Wish::Listing => list(rt, bytes, Circles::Forbidden, onward::read(bytes)),
        Wish::ListingWithCircles => {
            list(
                rt,
                bytes,
                Circles::Permitted,
                onward::read_permitting_circles(bytes),
            )
        }
        Wish::ToFirstRefusal => {
            list(
                rt,
                bytes,
                Circles::Forbidden,
                onward::read_to_first_refusal(bytes),
            )
        }
        Wish::Order => list_order(rt, onward::read(bytes)),
    }
}

// Reads the book and tells of it; a book that was not read gets no verdict. One byte more than a book may have is enough to know that it is too
// long.
fn tell(rt: &(impl Input + Print + Eprint), wish: Wish) -> ExitCode {
    let mut bytes = [0u8; 65537];
    match input::fill(&mut rt.reader(), &mut bytes) {
        Ok(n) => tell_of(rt, wish, &bytes[..n]),
        Err(reason) => input::fail(rt, "sagabook: the book was not read", reason),
    }
}

fn main(rt: HostRuntime) -> ExitCode {
    match asked_for(&rt) {
        Some(wish) => tell(&rt, wish),
        None => {
            let _ = eprintln!(rt;
                "usage: sagabook [permit-circles | first-refusal | replay] < BOOK"
            );
            ExitCode::SUCCESS
        }
    }
}
