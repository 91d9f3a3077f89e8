// The saga book for programs in C and Rust.
//
// Each function takes any bytes and any numbers: there is nothing that a caller has to look at first. An answer is always the same four
// numbers: the refusal's number, 0 if there is none; the events accepted; the refusal's place; and how many bytes, fields or transactions were
// written, or events passed over. A refusal leaves a lent room as it was.
//
// The way of reading is a number: on past refused events (0), to the first refusal (1), and each of these with circles in the tables permitted (2, 3).
//
// The functions whose names begin with saga_lent go by a desk: several arrays of numbers that the caller lends, and that stand for a book and the events taken behind it. Numbers of
// any value are safe there; what is promised is promised of a desk that saga_lent_open left and that only saga_lent_take has changed.
#![tactic(auto)]

ghost use Rattle.std.specs.Prelude.{◌≡◌, List, ℕ, length};
ghost use Rattle.tables.specs.Reading.{edition_of};
ghost use Rattle.left.specs.Left.{left_in};
ghost use Rattle.report.specs.Report.{report_of};
ghost use Rattle.replay.specs.Replay.{copy_room, order_of};
ghost use Rattle.book.specs.Reading.{opening_of};
ghost use Rattle.book.specs.Packing.{unpacked_room, written_room};
ghost use Rattle.onward.specs.Onward.{fitting, listed_in};
ghost use Rattle.onward.specs.declared.Judgement.{Judgement};
ghost use Rattle.listing.specs.Lines.{place_room};
ghost use Rattle.listing.specs.Texts.{put_room};
ghost use Rattle.mend.specs.Mend.{mended_room, mending_of};
ghost use Rattle.totals.specs.Figures.{add_answer, added_to, answer_number, share_of};
ghost use Rattle.desk.specs.Ways.{judged};
ghost use Rattle.desk.specs.Desk.{DeskStands, asked_by, desk_of, named_by, taken_by};
ghost use Rattle.desk.specs.Questions.{operation_numbers, phase_number, saga_numbers, tally_of};
ghost use Rattle.sagalib.specs.Numbers.{desk_line, desk_order, refused_in, read_numbers, outcome_numbers, unpack_numbers, write_numbers, line_outcome, listing_in, listing_numbers, no_room, order_in, put_outcome, replay_numbers, next_numbers, mend_numbers, mended_numbers, totals_in, totals_numbers, share_numbers};

use book::{Outcome, Refused};
use desk::Desk;
use listing::NotPlaced;
use mend::Mending;
use sheet::Sheet;
use terms::{Book, Refusal};
use ties::Operation;
use totals::Totals;

// The answer after writing for a book of so many accepted events; a refusal says by itself how many it came after.
fn outcome_numbers(events: usize, outcome: Outcome) -> [u64; 4]
    ensures { result ≡ outcome_numbers events outcome }
{
    match outcome {
        Ok(n) => [0, events as u64, 0, n as u64],
        Err(refused) => {
            let number = refused.refusal.number() as u64;
            [number, refused.events as u64, refused.place as u64, 0]
        }
    }
}

// A room is too small, after so many accepted events.
fn no_room(events: usize) -> Refused
    ensures { result ≡ no_room events }
{
    Refused {
        refusal: Refusal::NoRoom,
        events,
        place: 0,
    }
}

// What came of putting a listing into a room, or an order into a list.
fn put_outcome(events: usize, put: Option<usize>) -> Outcome
    ensures { result ≡ put_outcome events put }
{
    put.ok_or(no_room(events))
}

// What came of putting a line of the listing into a room; a line that is not there has no bytes.
fn line_outcome(events: usize, placed: Result<usize, NotPlaced>) -> Outcome
    ensures { result ≡ line_outcome events placed }
{
    match placed {
        Ok(n) => Ok(n),
        Err(NotPlaced::NoRoom) => Err(no_room(events)),
        Err(NotPlaced::NoLine) => Ok(0),
    }
}

// The answer after mending: of a book that was written, its bytes.
fn mend_numbers(mending: Mending) -> [u64; 4]
    ensures { result ≡ mend_numbers mending }
{
    match mending {
        Mending::Own(kept) => [0, kept as u64, 0, 0],
        Mending::Wrote(n, kept, _, _) => [0, kept as u64, 0, n as u64],
        Mending::Refuses(refusal, kept, place) => {
            let number = refusal.number() as u64;
            [number, kept as u64, place as u64, 0]
        }
    }
}

// Which book came of mending: none (0), the caller's own (1), or the one at the front of the room (2); and the bytes dropped and the steps added.
fn mended_numbers(mending: Mending) -> [u64; 3]
    ensures { result ≡ mended_numbers mending }
{
    match mending {
        Mending::Own(_) => [1, 0, 0],
        Mending::Wrote(_, _, dropped, added) => [2, dropped as u64, added as u64],
        Mending::Refuses(_, _, _) => [0, 0, 0],
    }
}

// Reads a book: the answer, with how many events were refused and passed over.
#[unsafe(no_mangle)]
pub extern "C" fn saga_read(book: &[u8], way: u64, answer: &mut [u64; 4])
    ensures { answer.new ≡ read_numbers way book.now }
{
    let read = desk::judged(book, way);
    let verdict = read.answer;
    let number = verdict.number() as u64;
    let events = read.events as u64;
    let place = read.place as u64;
    let refused = read.refused as u64;
    *answer = [number, events, place, refused];
}

// Puts index and number of a book's refused events, from the one on that `skip` others come before, as pairs at the front of a lent list, as many as fit; and how
// many events that are. In the ways that read to the first refusal no event is passed over.
#[unsafe(no_mangle)]
pub extern "C" fn saga_refused(book: &[u8], way: u64, skip: u64, list: &mut [u64]) -> u64
    ensures { (result ≡ length (fitting skip (length list.old) (refused_in way book.now))) × (list.new ≡ listed_in list.old (fitting skip (length list.old) (refused_in way book.now))) }
{
    if desk::reads_on(way) {
        let circles = desk::circles_in(way);
        return onward::fill_refused(book, circles, skip as usize, list) as u64;
    }
    0
}

// How many bytes of a book its accepted opening has.
#[unsafe(no_mangle)]
pub extern "C" fn saga_opening(book: &[u8]) -> u64
    ensures { result ≡ length (opening_of book.now) }
{
    let opening = book::opening(book);
    opening.len() as u64
}

// Puts the listing of a book at the front of a lent room.
#[unsafe(no_mangle)]
pub extern "C" fn saga_listing(book: &[u8], way: u64, room: &mut [u8], answer: &mut [u64; 4])
    ensures { (answer.new ≡ listing_numbers way book.now room.old) × (room.new ≡ put_room (listing_in way book.now) room.old) }
{
    let circles = desk::circles_in(way);
    let read = desk::judged(book, way);
    let events = read.events;
    let put = listing::put_whole(read, book, circles, room);
    let outcome = put_outcome(events, put);
    let numbers = outcome_numbers(events, outcome);
    *answer = numbers;
}

// What is to be done next for the saga of an index, after the accepted events of a book; and whether it is settled.
#[unsafe(no_mangle)]
pub extern "C" fn saga_next(book: &[u8], way: u64, saga: u64, step: &mut [u64; 4])
    ensures { step.new ≡ next_numbers way book.now saga }
{
    let read = desk::judged(book, way);
    let tables = read.tables;
    let state = read.state;
    let numbers = desk::saga_of(tables, state, saga);
    *step = numbers;
}

// How much is left after the accepted events of a book: what all sagas owe together.
#[unsafe(no_mangle)]
pub extern "C" fn saga_left(book: &[u8], way: u64) -> u64
    ensures { result ≡ left_in (judged way book.now).tables (judged way book.now).state }
{
    let read = desk::judged(book, way);
    let tables = read.tables;
    let state = read.state;
    left::left_of(tables, state) as u64
}

// Puts the transactions that hold a committed operation after the accepted events of a book, in the order in which their changes can be replayed, at the
// front of a lent list.
#[unsafe(no_mangle)]
pub extern "C" fn saga_replay(book: &[u8], way: u64, list: &mut [u16], answer: &mut [u64; 4])
    ensures { (answer.new ≡ replay_numbers way book.now list.old) × (list.new ≡ copy_room (order_in way book.now) list.old) }
{
    let read = desk::judged(book, way);
    let events = read.events;
    let state = read.state;
    let ops = state.ops;
    let copied = replay::put_order(ops, list);
    let outcome = put_outcome(events, copied);
    let numbers = outcome_numbers(events, outcome);
    *answer = numbers;
}

// Mends a book: puts its accepted opening, with the closing steps that its sagas owe behind it, at the front of a lent room, unless nothing is wrong with it.
#[unsafe(no_mangle)]
pub extern "C" fn saga_mend(
    book: &[u8],
    room: &mut [u8],
    answer: &mut [u64; 4],
    mended: &mut [u64; 3],
)
    ensures { (answer.new ≡ mend_numbers (mending_of (edition_of book.now) book.now room.old)) × ((mended.new ≡ mended_numbers (mending_of (edition_of book.now) book.now room.old)) × (room.new ≡ mended_room (edition_of book.now) book.now room.old)) }
{
    let mending = mend::mend(book, room);
    let numbers = mend_numbers(mending);
    *answer = numbers;
    let which = mended_numbers(mending);
    *mended = which;
}

// Puts the fields of a book that is accepted whole at the front of a lent room.
#[unsafe(no_mangle)]
pub extern "C" fn saga_unpack(book: &[u8], room: &mut [u32], answer: &mut [u64; 4])
    ensures { (answer.new ≡ unpack_numbers book.now room.old) × (room.new ≡ unpacked_room book.now room.old) }
{
    let read = book::read_to_first_refusal(book);
    let events = read.events;
    let outcome = book::unpack(book, room);
    let numbers = outcome_numbers(events, outcome);
    *answer = numbers;
}

// Puts the bytes of fields that are a book at the front of a lent room.
#[unsafe(no_mangle)]
pub extern "C" fn saga_write(fields: &[u32], room: &mut [u8], answer: &mut [u64; 4])
    ensures { (answer.new ≡ write_numbers fields.now room.old) × (room.new ≡ written_room fields.now room.old) }
{
    let outcome = book::write(fields, room);
    let Ok(n) = outcome else {
        let refused = outcome_numbers(0, outcome);
        *answer = refused;
        return;
    };
    let written = book::read_to_first_refusal(&room[..n]);
    let events = written.events;
    let numbers = outcome_numbers(events, outcome);
    *answer = numbers;
}

// Totals from the six numbers that are lent.
fn totals_in(numbers: &[u64; 6]) -> Totals
    ensures { result ≡ totals_in numbers.now }
{
    Totals {
        books: numbers[0],
        refused: numbers[1],
        begun: numbers[2],
        committed: numbers[3],
        backed: numbers[4],
        unsettled: numbers[5],
    }
}

// Adds a book to the totals of a term, and answers the number of its refusal, 0 if it is accepted whole: that of reading it to its first refusal, where its accepted opening is
// added; or 23 where 1,000 books are counted already, and the totals stay as they are.
#[unsafe(no_mangle)]
pub extern "C" fn saga_add(book: &[u8], term: &mut [u64; 6]) -> u64
    ensures { (result ≡ answer_number (add_answer (totals_in term.old) book.now)) × (term.new ≡ totals_numbers (added_to (totals_in term.old) book.now)) }
{
    let before = totals_in(term);
    let added = totals::add(before, book);
    let answer = added.answer;
    let after = added.totals;
    let number = totals::answer_number(answer);
    *term = [
        after.books,
        after.refused,
        after.begun,
        after.committed,
        after.backed,
        after.unsettled,
    ];
    number as u64
}

// The share backed out of those begun, in lowest terms.
#[unsafe(no_mangle)]
pub extern "C" fn saga_share(term: &[u64; 6], share: &mut [u64; 2])
    ensures { share.new ≡ share_numbers (share_of (totals_in term.now)) }
{
    let counted = totals_in(term);
    let lowest = counted.share();
    *share = [lowest.part, lowest.whole];
}

// ---- a desk: the sheet, the transactions, the operations and the record of each, the steps of every saga and the counts. The C interface lends these arrays one by one, each in a
// parameter of its own.

// Opens a desk on a book that is read in one of the ways: the answer of saga_read, and the desk as that reading ends.
#[unsafe(no_mangle)]
pub extern "C" fn saga_lent_open(
    book: &[u8],
    way: u64,
    sheet: &mut [u32; Sheet::NUMBERS],
    transactions: &mut [u32; Book::TRANSACTIONS],
    ops: &mut [u32; Operation::MOST],
    records: &mut [u32; Operation::MOST],
    steps: &mut [u8; Book::SAGAS],
    counts: &mut [u64; Desk::COUNTS],
    answer: &mut [u64; 4],
)
    ensures { (answer.new ≡ read_numbers way book.now) × DeskStands (judged way book.now) (desk_of sheet.new transactions.new ops.new records.new steps.new counts.new) }
{
    desk::open_on(book, way, sheet, transactions, ops, records, steps, counts);
    let ended = counts[Desk::ENDED];
    let accepted = counts[Desk::ACCEPTED];
    let place = counts[Desk::PLACE];
    let passed = counts[Desk::REFUSED];
    *answer = [ended, accepted, place, passed];
}

// Whether an event would be accepted behind all others: 0, or the number of its refusal.
#[unsafe(no_mangle)]
pub extern "C" fn saga_lent_ask(
    sheet: &[u32; Sheet::NUMBERS],
    transactions: &[u32; Book::TRANSACTIONS],
    ops: &[u32; Operation::MOST],
    counts: &[u64; Desk::COUNTS],
    code: u64,
    a: u64,
    b: u64,
    c: u64,
    d: u64,
) -> u64
    ensures { (j : Judgement) (records steps : List ℕ) → DeskStands j (desk_of sheet.now transactions.now ops.now records steps counts.now) → result ≡ asked_by j (named_by j.edition code a b c d) }
{
    desk::ask(sheet, transactions, ops, counts, code, a, b, c, d)
}

// Takes an event behind all others: 0 if it is accepted, and then the desk is moved on; else the number of its refusal.
#[unsafe(no_mangle)]
pub extern "C" fn saga_lent_take(
    sheet: &[u32; Sheet::NUMBERS],
    transactions: &mut [u32; Book::TRANSACTIONS],
    ops: &mut [u32; Operation::MOST],
    records: &mut [u32; Operation::MOST],
    counts: &mut [u64; Desk::COUNTS],
    code: u64,
    a: u64,
    b: u64,
    c: u64,
    d: u64,
) -> u64
    ensures { (j : Judgement) (steps : List ℕ) → DeskStands j (desk_of sheet.now transactions.old ops.old records.old steps counts.old) → (result ≡ asked_by j (named_by j.edition code a b c d)) × DeskStands (taken_by j (named_by j.edition code a b c d)) (desk_of sheet.now transactions.new ops.new records.new steps counts.new) }
{
    desk::take(sheet, transactions, ops, records, counts, code, a, b, c, d)
}

// How a transaction stands.
#[unsafe(no_mangle)]
pub extern "C" fn saga_lent_phase(
    sheet: &[u32; Sheet::NUMBERS],
    transactions: &[u32; Book::TRANSACTIONS],
    t: u64,
) -> u64
    ensures { (j : Judgement) (ops records steps counts : List ℕ) → DeskStands j (desk_of sheet.now transactions.now ops records steps counts) → result ≡ phase_number j.tables j.state t }
{
    desk::phase(sheet, transactions, t)
}

// Operation q: its object, its mark, its responsible transaction and how it stands.
#[unsafe(no_mangle)]
pub extern "C" fn saga_lent_operation(
    ops: &[u32; Operation::MOST],
    counts: &[u64; Desk::COUNTS],
    q: u64,
    answer: &mut [u64; 4],
)
    ensures { (j : Judgement) (sheet transactions records steps : List ℕ) → DeskStands j (desk_of sheet transactions ops.now records steps counts.now) → answer.new ≡ operation_numbers j.state.ops q }
{
    let numbers = desk::operation(ops, counts, q);
    *answer = numbers;
}

// What is to be done next for the saga of an index, what it owes and whether it is settled.
#[unsafe(no_mangle)]
pub extern "C" fn saga_lent_next(
    transactions: &[u32; Book::TRANSACTIONS],
    ops: &[u32; Operation::MOST],
    steps: &[u8; Book::SAGAS],
    counts: &[u64; Desk::COUNTS],
    saga: u64,
    step: &mut [u64; 4],
)
    ensures { (j : Judgement) (sheet records : List ℕ) → DeskStands j (desk_of sheet transactions.now ops.now records steps.now counts.now) → step.new ≡ saga_numbers j.tables j.state saga }
{
    let numbers = desk::saga(transactions, ops, steps, counts, saga);
    *step = numbers;
}

// How many there are of each, how much is left, and who is active.
#[unsafe(no_mangle)]
pub extern "C" fn saga_lent_tally(
    transactions: &[u32; Book::TRANSACTIONS],
    steps: &[u8; Book::SAGAS],
    counts: &[u64; Desk::COUNTS],
    tally: &mut [u64; 8],
)
    ensures { (j : Judgement) (sheet ops records : List ℕ) → DeskStands j (desk_of sheet transactions.now ops records steps.now counts.now) → tally.new ≡ tally_of j }
{
    let numbers = desk::tally(transactions, steps, counts);
    *tally = numbers;
}

// Who stands before whom.
#[unsafe(no_mangle)]
pub extern "C" fn saga_lent_pairs(
    transactions: &[u32; Book::TRANSACTIONS],
    ops: &[u32; Operation::MOST],
    counts: &[u64; Desk::COUNTS],
    rows: &mut [u64; Book::TRANSACTIONS],
)
    ensures { (j : Judgement) (sheet records steps : List ℕ) → DeskStands j (desk_of sheet transactions.now ops.now records steps counts.now) → rows.new ≡ (report_of j.state).before }
{
    desk::pairs(transactions, ops, counts, rows)
}

// Puts the order to replay in at the front of a lent list.
#[unsafe(no_mangle)]
pub extern "C" fn saga_lent_replay(
    ops: &[u32; Operation::MOST],
    counts: &[u64; Desk::COUNTS],
    list: &mut [u16],
    answer: &mut [u64; 4],
)
    ensures { (j : Judgement) (sheet transactions records steps : List ℕ) → DeskStands j (desk_of sheet transactions ops.now records steps counts.now) → (answer.new ≡ desk_order j list.old) × (list.new ≡ copy_room (order_of j.state.ops) list.old) }
{
    let events = counts[Desk::ACCEPTED] as usize;
    let copied = desk::replay(ops, counts, list);
    let outcome = put_outcome(events, copied);
    let numbers = outcome_numbers(events, outcome);
    *answer = numbers;
}

// Puts line k of the listing at the front of a lent room.
#[unsafe(no_mangle)]
pub extern "C" fn saga_lent_line(
    transactions: &[u32; Book::TRANSACTIONS],
    ops: &[u32; Operation::MOST],
    records: &[u32; Operation::MOST],
    steps: &[u8; Book::SAGAS],
    counts: &[u64; Desk::COUNTS],
    k: u64,
    room: &mut [u8],
    answer: &mut [u64; 4],
)
    ensures { (j : Judgement) (sheet : List ℕ) → DeskStands j (desk_of sheet transactions.now ops.now records.now steps.now counts.now) → (answer.new ≡ desk_line j k room.old) × (room.new ≡ place_room j k room.old) }
{
    let events = counts[Desk::ACCEPTED] as usize;
    let placed = desk::line(transactions, ops, records, steps, counts, k, room);
    let outcome = line_outcome(events, placed);
    let numbers = outcome_numbers(events, outcome);
    *answer = numbers;
}
