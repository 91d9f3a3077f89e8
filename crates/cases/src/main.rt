// Answers the cases on its standard input one after another, so that two programs can be held against each other.
//
// A case is a letter, the size of the lent room, a length, and that many bytes; sizes and lengths have three bytes, low byte first. 'b' is a
// book: its listing, the length of its accepted opening, how much is left, the order to replay in, the report on its state, and its fields unpacked into
// the room. 'c' is a book whose begin dependencies may go round in a circle: the same without its fields. 'f' and 'g' are the same as 'b' and 'c', read to the first
// refusal. 'r' is a book too, and the order to replay in is put into the room. 'w' is a list of fields, four bytes each, low byte first: what
// writing them into the room answers. 'm' is a plan as staff write it, as long as the number says that stands for a room, and a book behind it: what
// the program `recordmove` prints of them, or the number of the line that is not understood. 'd' is a book, mended into the room: its own, or the bytes written. 't' is a term: books one
// after another, each behind its length in three bytes: a line for each that is refused by 23, and the figures. It stops at the end of the input or where that is torn. A case that was
// not read gets no answer, and what was not read, written or understood is said on standard error.
#![tactic(auto)]

use listing::Listing;
use mend::Mending;
use onward::Judgement;
use std::env::Env;
use std::io;
use std::process::ExitCode;
use tables::Circles;
use telling::NotTold;
use terms::{Book, Refusal};
use totals::{Answer, Totals};

// How a book is read: on past refused events, or to the first of them.
#[derive(Clone, Copy)]
enum Way {
    On,
    ToFirstRefusal,
}

// A few words.
fn say(rt: &impl Print, words: &[u8]) -> io::Result<()> {
    rt.write_all(words)
}

// A word, a number and the end of the line.
fn say_count(rt: &impl Print, word: &str, n: usize) -> io::Result<()> {
    println!(rt; "{word} {n}")
}

fn say_refused(rt: &impl Print, refusal: Refusal, events: usize, place: usize) -> io::Result<()> {
    let number = refusal.number();
    println!(rt; "refused {number} {events} {place}")
}

// Reads a book in one of the ways.
fn judged(way: Way, circles: Circles, bytes: &[u8]) -> Judgement {
    match way {
        Way::On => onward::read_by(bytes, circles),
        Way::ToFirstRefusal => onward::read_up_to(bytes, circles),
    }
}

// Puts the listing into a room.
fn put_listing(way: Way, circles: Circles, bytes: &[u8], room: &mut [u8]) -> Option<usize> {
    match way {
        Way::On => listing::put_listing(bytes, circles, room),
        Way::ToFirstRefusal => listing::put_listing_to_first_refusal(bytes, circles, room),
    }
}

// The first bytes of a room on a line of their own, if it has so many.
fn say_room(rt: &impl Print, room: &[u8], n: usize) -> io::Result<()> {
    match room.get(..n) {
        Some(front) => {
            say(rt, front)?;
            say(rt, b"\n")
        }
        None => Ok(()),
    }
}

fn say_listing_in(
    rt: &impl Print,
    way: Way,
    circles: Circles,
    bytes: &[u8],
    room: &mut [u8],
) -> io::Result<()> {
    let put = put_listing(way, circles, bytes, room);
    match put.and_then(|n| room.get(..n)) {
        Some(listing) => say(rt, listing),
        None => Ok(()),
    }
}

// The listing, in a room that holds every listing.
fn say_listing(rt: &impl Print, way: Way, circles: Circles, bytes: &[u8]) -> io::Result<()> {
    let mut room = [0u8; Listing::MOST];
    say_listing_in(rt, way, circles, bytes, &mut room)
}

// One line for each transaction that a stands before.
fn say_pairs(rt: &impl Print, a: usize, row: u64) -> io::Result<()> {
    for b in 0..Book::TRANSACTIONS {
        if sets::member(row, b) {
            println!(rt; "{a} {b}")?;
        }
    }
    Ok(())
}

fn say_report(rt: &impl Print, judgement: Judgement) -> io::Result<()> {
    let report = report::report_of(judgement.state);
    let active = report.active;
    let lowest = report.lowest;
    println!(rt; "active {active} lowest {lowest}")?;
    for (a, row) in report.before.iter().enumerate() {
        say_pairs(rt, a, *row)?;
    }
    Ok(())
}

// Fields, each on a line of its own.
fn say_fields(rt: &impl Print, fields: &[u32]) -> io::Result<()> {
    for field in fields {
        println!(rt; "{field}")?;
    }
    Ok(())
}

fn unpack(rt: &impl Print, bytes: &[u8], room: &mut [u32]) -> io::Result<()> {
    match book::unpack(bytes, room) {
        Ok(n) => {
            say_count(rt, "unpacked", n)?;
            match room.get(..n) {
                Some(fields) => say_fields(rt, fields),
                None => Ok(()),
            }
        }
        Err(refused) => say_refused(rt, refused.refusal, refused.events, refused.place),
    }
}

// How much is left in the state that a book leads to.
fn say_left(rt: &impl Print, judgement: Judgement) -> io::Result<()> {
    let left = left::left_of(judgement.tables, judgement.state);
    say_count(rt, "left", left)
}

// The transactions of an order on one line.
fn say_order(rt: &impl Print, order: &[u16]) -> io::Result<()> {
    print!(rt; "replay")?;
    for t in order {
        print!(rt; " {t}")?;
    }
    say(rt, b"\n")
}

// What putting the order to replay in into a lent list answers.
fn answer_replay(rt: &impl Print, judgement: Judgement, list: &mut [u16]) -> io::Result<()> {
    match replay::put_order(judgement.state.ops, list) {
        Some(n) => match list.get(..n) {
            Some(order) => say_order(rt, order),
            None => Ok(()),
        },
        None => say_refused(rt, Refusal::NoRoom, judgement.events, 0),
    }
}

// The order in a list that holds every order.
fn say_replay(rt: &impl Print, judgement: Judgement) -> io::Result<()> {
    let mut list = [0u16; Book::TRANSACTIONS];
    answer_replay(rt, judgement, &mut list)
}

// What the state comes to: how much is left, the order to replay in, and the report.
fn say_state(rt: &impl Print, judgement: Judgement) -> io::Result<()> {
    say_left(rt, judgement)?;
    say_replay(rt, judgement)?;
    say_report(rt, judgement)
}

// A book whose begin dependencies may not go round in a circle.
fn answer_book(rt: &impl Print, way: Way, bytes: &[u8], room: &mut [u32]) -> io::Result<()> {
    say_listing(rt, way, Circles::Forbidden, bytes)?;
    let opening = book::opening(bytes);
    say_count(rt, "opening", opening.len())?;
    say_state(rt, judged(way, Circles::Forbidden, bytes))?;
    unpack(rt, bytes, room)
}

// A book whose begin dependencies may.
fn circles_case(rt: &impl Print, way: Way, bytes: &[u8]) -> io::Result<()> {
    say_listing(rt, way, Circles::Permitted, bytes)?;
    let opening = book::opening_permitting_circles(bytes);
    say_count(rt, "opening", opening.len())?;
    say_state(rt, judged(way, Circles::Permitted, bytes))
}

fn answer_write(rt: &impl Print, fields: &[u32], room: &mut [u8]) -> io::Result<()> {
    match book::write(fields, room) {
        Ok(n) => {
            say_count(rt, "written", n)?;
            say_room(rt, room, n)
        }
        Err(refused) => say_refused(rt, refused.refusal, refused.events, refused.place),
    }
}

// What mending a book into a room answers.
fn answer_mend(rt: &impl Print, bytes: &[u8], room: &mut [u8]) -> io::Result<()> {
    match mend::mend(bytes, room) {
        Mending::Own(kept) => say_count(rt, "own", kept),
        Mending::Wrote(n, kept, dropped, added) => {
            println!(rt; "mended {n} {kept} {dropped} {added}")?;
            say_room(rt, room, n)
        }
        Mending::Refuses(refusal, kept, place) => say_refused(rt, refusal, kept, place),
    }
}

// A number of three bytes, low byte first.
fn three(low: u8, middle: u8, high: u8) -> usize {
    low as usize | (middle as usize) << 8 | (high as usize) << 16
}

// The fields that these bytes hold, four bytes each, low byte first, at the front of a list; how many there are.
fn fields_from(bytes: &[u8], fields: &mut [u32]) -> usize {
    let n = fields.len().min(bytes.len() / 4);
    for i in 0..n {
        let at = 4 * i;
        fields[i] = u32::from_le_bytes([bytes[at], bytes[at + 1], bytes[at + 2], bytes[at + 3]]);
    }
    n
}

fn book_case(rt: &impl Print, way: Way, bytes: &[u8], size: usize) -> io::Result<()> {
    let mut room = [0u32; 65536];
    match room.get_mut(..size) {
        Some(room) => answer_book(rt, way, bytes, room),
        None => Ok(()),
    }
}

fn replay_case(rt: &impl Print, bytes: &[u8], size: usize) -> io::Result<()> {
    let mut room = [0u16; 65536];
    match room.get_mut(..size) {
        Some(list) => answer_replay(rt, onward::read(bytes), list),
        None => Ok(()),
    }
}

fn write_case(rt: &impl Print, bytes: &[u8], size: usize) -> io::Result<()> {
    let mut fields = [0u32; 65537];
    let mut room = [0u8; 65536];
    let n = fields_from(bytes, &mut fields);
    match (fields.get(..n), room.get_mut(..size)) {
        (Some(fields), Some(room)) => answer_write(rt, fields, room),
        _ => Ok(()),
    }
}

fn mend_case(rt: &impl Print, bytes: &[u8], size: usize) -> io::Result<()> {
    let mut room = [0u8; 65536];
    match room.get_mut(..size) {
        Some(room) => answer_mend(rt, bytes, room),
        None => Ok(()),
    }
}

// A plan, and a book behind it.
fn move_case(rt: &impl Print, bytes: &[u8], size: usize) -> io::Result<()> {
    if bytes.len() < size {
        return Ok(());
    }
    match telling::tell(rt, &bytes[..size], &bytes[size..]) {
        Ok(()) => Ok(()),
        Err(NotTold::NotWritten(reason)) => Err(reason),
        Err(NotTold::NotUnderstood(line)) => say_count(rt, "line", line),
        Err(NotTold::TooLong) => say(rt, b"too long\n"),
    }
}

// Says that a book is one too many; of another refusal nothing is said.
fn say_too_many(rt: &impl Print, answer: Answer) -> io::Result<()> {
    match answer {
        Ok(_) => Ok(()),
        Err(_) => {
            let number = totals::answer_number(answer);
            println!(rt; "refused {number}")
        }
    }
}

// The totals with a book more.
fn with_book(rt: &impl Print, totals: Totals, book: &[u8]) -> io::Result<Totals> {
    let added = totals::add(totals, book);
    say_too_many(rt, added.answer)?;
    Ok(added.totals)
}

fn say_totals(rt: &impl Print, totals: Totals) -> io::Result<()> {
    let share = totals.share();
    let (books, refused) = (totals.books, totals.refused);
    let (begun, committed) = (totals.begun, totals.committed);
    let (backed, unsettled) = (totals.backed, totals.unsettled);
    let (part, whole) = (share.part, share.whole);
    print!(rt; "figures {books} {refused} {begun} {committed} {backed} {unsettled}")?;
    println!(rt; " share {part} {whole}")
}

// The books of a term; a length or a book that is torn at the end is none. How far a book goes shows only by the length before it, so the loop goes on by places.
fn term_case(rt: &impl Print, bytes: &[u8]) -> io::Result<()> {
    let mut totals = Totals::none();
    let mut at: usize = 0;
    while 3 <= bytes.len() - at {
        let length = three(bytes[at], bytes[at + 1], bytes[at + 2]);
        let start = at + 3;
        if bytes.len() - start < length {
            break;
        }
        let end = start + length;
        totals = with_book(rt, totals, &bytes[start..end])?;
        at = end;
    }
    say_totals(rt, totals)
}

// One case by its letter.
fn answer(rt: &impl Print, letter: u8, bytes: &[u8], size: usize) -> io::Result<()> {
    match letter {
        b'w' => write_case(rt, bytes, size),
        b'c' => circles_case(rt, Way::On, bytes),
        b'g' => circles_case(rt, Way::ToFirstRefusal, bytes),
        b'f' => book_case(rt, Way::ToFirstRefusal, bytes, size),
        b'r' => replay_case(rt, bytes, size),
        b'm' => move_case(rt, bytes, size),
        b'd' => mend_case(rt, bytes, size),
        b't' => term_case(rt, bytes),
        _ => book_case(rt, Way::On, bytes, size),
    }
}

// Why the run ended before its last case: the input is torn, was not read, or the answers were not written.
#[derive(Drop)]
enum Ended {
    Torn,
    NotRead(io::Error),
    NotWritten(io::Error),
}

// Fills a part of the input; it is torn if the input ends before.
fn read_part(rt: &impl Input, part: &mut [u8]) -> Result<(), Ended> {
    match input::fill(&mut rt.reader(), part) {
        Ok(n) if n < part.len() => Err(Ended::Torn),
        Ok(_) => Ok(()),
        Err(reason) => Err(Ended::NotRead(reason)),
    }
}

// Says which case it is, and answers it.
fn say_case(rt: &impl Print, k: usize, letter: u8, bytes: &[u8], size: usize) -> io::Result<()> {
    say_count(rt, "== case", k)?;
    answer(rt, letter, bytes, size)
}

// Fills a part with the bytes of case k and answers it.
fn read_and_answer(
    rt: &(impl Input + Print),
    k: usize,
    letter: u8,
    part: &mut [u8],
    size: usize,
) -> Result<(), Ended> {
    read_part(rt, part)?;
    say_case(rt, k, letter, part, size).map_err(Ended::NotWritten)
}

// Reads case k and answers it.
fn one_case(rt: &(impl Input + Print), k: usize) -> Result<(), Ended> {
    let mut head = [0u8; 7];
    read_part(rt, &mut head)?;
    let size = three(head[1], head[2], head[3]);
    let length = three(head[4], head[5], head[6]);
    let mut bytes = [0u8; 262148];
    match bytes.get_mut(..length) {
        Some(part) => read_and_answer(rt, k, head[0], part, size),
        None => Err(Ended::Torn),
    }
}

// How the run ended: what is torn is an answer, what failed is not.
fn say_end(rt: &(impl Print + Eprint), end: Result<(), Ended>) -> ExitCode {
    match end {
        Ok(()) => ExitCode::SUCCESS,
        Err(Ended::Torn) => match say(rt, b"torn\n") {
            Ok(()) => ExitCode::SUCCESS,
            Err(reason) => not_written(rt, reason),
        },
        Err(Ended::NotRead(reason)) => input::fail(rt, "cases: the input was not read", reason),
        Err(Ended::NotWritten(reason)) => not_written(rt, reason),
    }
}

fn not_written(rt: &impl Eprint, reason: io::Error) -> ExitCode {
    input::not_written(rt, "cases: the answers were not written whole", reason)
}

// Answers so many cases one after another, up to one that is torn or fails. The input begins with their number.
fn answer_all(rt: &(impl Input + Print)) -> Result<(), Ended> {
    let mut head = [0u8; 3];
    read_part(rt, &mut head)?;
    for k in 0..three(head[0], head[1], head[2]) {
        one_case(rt, k)?;
    }
    Ok(())
}

fn main(rt: HostRuntime) -> ExitCode {
    if input::is_word(rt.arg(1, &mut [])) {
        let _ = eprintln!(rt; "usage: cases < CASES");
        return ExitCode::SUCCESS;
    }
    let end = answer_all(&rt);
    say_end(&rt, end)
}
