// A desk: what a book's tables say and how everything stands after its events, in numbers that the caller lends. A program opens it on a book once, and then asks and takes
// event after event without reading the book again. Numbers of any value are safe; what is promised is promised of a desk that stands for a reading.
//
// The C interface has numbers and arrays of numbers only, and hands on what stands here as it is: so a way of reading, the code of an event and an answer are numbers, and the counts
// of a desk are one array. The arrays of a desk come one by one, here as there, in opening, asking, taking and the questions, each with those that it looks at: a struct of references
// would be made for one call and taken apart in it.
#![tactic(auto)]

ghost use Rattle.std.specs.Prelude.{◌≡◌, true, List, [], ◌∷◌, ℕ, ◌≤◌, get_or};
ghost use Rattle.terms.specs.Refusals.{verdict_number};
ghost use Rattle.terms.specs.declared.Verdict.TheVariants.{Accepted};
ghost use Rattle.ties.specs.Operations.{most_operations, op_at};
ghost use Rattle.cells.specs.Cells.{WholeOps, fits, mark_code, ops_in};
ghost use Rattle.rules.specs.Lent.{parent_fits, phase_code, transactions_in};
ghost use Rattle.rules.specs.States.{parent_of};
ghost use Rattle.judge.specs.Judge.{judged as judgedEvent};
ghost use Rattle.replay.specs.Replay.{copy_answer, copy_room, order_of};
ghost use Rattle.report.specs.Report.{report_of};
ghost use Rattle.onward.specs.declared.Judgement.{Judgement};
ghost use Rattle.listing.specs.Lines.{place_answer, place_room};
ghost use Rattle.desk.specs.Ways.{reads_on, circles_in, judged};
ghost use Rattle.desk.specs.Desk.{DeskStands, asked_by, desk_of, edition_in, event_then, more, named_by, record_beside, refusal_of, taken_by};
ghost use Rattle.desk.specs.Questions.{fate_number, operation_numbers, operation_numbers_of, outline_in, phase_number, saga_numbers, saga_numbers_by, tally_of, verdict_in};

use closing::NextStep;
use items::EventSort;
use listing::NotPlaced;
use number::Edition;
use onward::Judgement;
use rules::{Phase, State, Transaction};
use sheet::Sheet;
use tables::{Circles, Tables};
use terms::{Book, Event, Mark, Refusal, Verdict};
use ties::{Fate, Operation, Ops};

// Where the counts of a desk stand: operations, events accepted, events refused and passed over, how much is left, number and place of the refusal that ended the reading,
// sagas, plain transactions and the number of the edition.
#[derive(Drop)]
pub struct Desk;

impl Desk {
    pub const OPERATIONS: usize = 0;

    pub const ACCEPTED: usize = 1;

    pub const REFUSED: usize = 2;

    pub const LEFT: usize = 3;

    pub const ENDED: usize = 4;

    pub const PLACE: usize = 5;

    pub const SAGAS: usize = 6;

    pub const PLAIN: usize = 7;

    pub const EDITION: usize = 8;

    pub const COUNTS: usize = 9;
}

// What a code with its fields says: an event and its record, 0 where it has none.
pub type Named = Result<(Event, u32), Unnamed>;

// Why they say no event: there is no such code; the mark of an operation is none; or its record is one that no field can say.
#[derive(Clone, Copy)]
pub enum Unnamed {
    NoCode,
    NoMark,
    NoNumber,
}

impl Unnamed {
    // The refusal by which asking and taking answer.
    fn refusal(self) -> Refusal
        ensures { result ≡ refusal_of self }
    {
        match self {
            Unnamed::NoCode => Refusal::BadCode,
            Unnamed::NoMark => Refusal::NotInTables,
            Unnamed::NoNumber => Refusal::BadNumber,
        }
    }
}

// ---- reading a book in one of the ways

// Whether a way of reading goes on past refused events (0, 2), and not to the first refusal alone (1, 3).
pub fn reads_on(way: u64) -> bool
    ensures { result ≡ reads_on way }
{
    way % 2 == 0
}

// Whether circles in the tables are permitted in a way of reading (2, 3) or not (0, 1).
pub fn circles_in(way: u64) -> Circles
    ensures { result ≡ circles_in way }
{
    if way % 4 < 2 {
        return Circles::Forbidden;
    }
    Circles::Permitted
}

// Reads a book in one of the ways.
pub fn judged(book: &[u8], way: u64) -> Judgement
    ensures { result ≡ judged way book.now }
{
    let circles = circles_in(way);
    if reads_on(way) {
        return onward::read_by(book, circles);
    }
    onward::read_up_to(book, circles)
}

// ---- opening a desk

// Puts transactions into lent numbers.
fn put_transactions(
    all: [Transaction; Book::TRANSACTIONS],
    transactions: &mut [u32; Book::TRANSACTIONS],
)
    ensures { ((t : ℕ) → parent_fits (parent_of all t) ≡ true) → transactions_in transactions.new ≡ all }
{
    *transactions = [0u32; Book::TRANSACTIONS];
    for t in 0..Book::TRANSACTIONS {
        rules::put(transactions, t, all[t]);
    }
}

// Puts operations into lent numbers.
fn put_operations(made: Ops, ops: &mut [u32; Operation::MOST])
    ensures { WholeOps made → made.count ≤ most_operations → ((q : ℕ) → fits (op_at made q) ≡ true) → ops_in ops.new made.count ≡ made }
{
    *ops = [0u32; Operation::MOST];
    let total = made.size();
    let mut n: usize = 0;
    for i in 0..total {
        n = cells::made(ops, n, made.all[i]);
    }
}

// Reads a book in one of the ways, and leaves the desk as that reading ends. Where the tables are refused, it is the desk of empty tables.
pub fn open_on(
    book: &[u8],
    way: u64,
    sheet: &mut [u32; Sheet::NUMBERS],
    transactions: &mut [u32; Book::TRANSACTIONS],
    ops: &mut [u32; Operation::MOST],
    records: &mut [u32; Operation::MOST],
    steps: &mut [u8; Book::SAGAS],
    counts: &mut [u64; Desk::COUNTS],
)
    ensures { DeskStands (judged way book.now) (desk_of sheet.new transactions.new ops.new records.new steps.new counts.new) }
{
    let read = judged(book, way);
    let answer = read.answer;
    let tables = read.tables;
    let state = read.state;
    let all = state.transactions;
    let made = state.ops;
    let said = sheet::sheet_of(tables);
    *sheet = said;
    put_transactions(all, transactions);
    put_operations(made, ops);
    let pupils = read.records;
    *records = pupils;
    let each = tables.steps;
    *steps = each;
    let operations = made.count as u64;
    let accepted = read.events as u64;
    let refused = read.refused as u64;
    let left = left::left_of(tables, state) as u64;
    let ended = answer.number() as u64;
    let place = read.place as u64;
    let sagas = tables.sagas as u64;
    let plain = tables.plain as u64;
    let named = read.edition;
    let edition = named.number() as u64;
    *counts = [
        operations, accepted, refused, left, ended, place, sagas, plain, edition,
    ];
}

// ---- asking and taking

// The edition of the book that a desk was opened on.
fn edition_in(counts: &[u64; Desk::COUNTS]) -> Edition
    ensures { result ≡ edition_in counts.now }
{
    Edition::named(counts[Desk::EDITION] as usize)
}

// The record beside an event of a sort: an operation alone has one, from edition 2 on, and it is a number that a field can say. Any other's is not looked at.
fn record_beside(edition: Edition, sort: EventSort, pupil: u64) -> Result<u32, Unnamed>
    ensures { result ≡ record_beside edition sort pupil }
{
    match (edition, sort) {
        (Edition::Second, EventSort::Operates) => {
            let most = edition.most() as u64;
            if most < pupil {
                return Err(Unnamed::NoNumber);
            }
            Ok(pupil as u32)
        }
        _ => Ok(0),
    }
}

// What a code says with the fields that follow it in a book, of which an event takes as many as it has.
fn named_by(edition: Edition, code: u64, a: usize, b: usize, c: usize, d: u64) -> Named
    ensures { result ≡ named_by edition code a b c d }
{
    let Some(sort) = items::code_of(code as usize) else {
        return Err(Unnamed::NoCode);
    };
    let pupil = match record_beside(edition, sort, d) {
        Ok(pupil) => pupil,
        Err(why) => return Err(why),
    };
    let Some(event) = sort.meaning(a, b, c) else {
        return Err(Unnamed::NoMark);
    };
    Ok((event, pupil))
}

// Whether an event would be accepted: 0, or the number of its refusal. Nothing is changed. Behind a refusal that ended the reading every event is refused by that.
pub fn ask(
    sheet: &[u32; Sheet::NUMBERS],
    transactions: &[u32; Book::TRANSACTIONS],
    ops: &[u32; Operation::MOST],
    counts: &[u64; Desk::COUNTS],
    code: u64,
    a: u64,
    b: u64,
    c: u64,
    d: u64,
) -> u64
    ensures { (j : Judgement) (records steps : List ℕ) → DeskStands j (desk_of sheet.now transactions.now ops.now records steps counts.now) → result ≡ asked_by j (named_by j.edition code a b c d) }
{
    let ended = counts[Desk::ENDED];
    if ended != 0 {
        return ended;
    }
    let n = counts[Desk::OPERATIONS] as usize;
    let edition = edition_in(counts);
    let asked = named_by(edition, code, a as usize, b as usize, c as usize, d);
    match asked {
        Ok((event, _)) => {
            let ruled = judge::rule(sheet, transactions, ops, n, event);
            let verdict = ruled.verdict;
            verdict.number() as u64
        }
        Err(why) => {
            let refusal = why.refusal();
            refusal.number() as u64
        }
    }
}

// One more, as long as a book can have as many.
fn more(n: u64) -> u64
    ensures { result ≡ more n }
{
    if n < Book::BYTES as u64 {
        return n + 1;
    }
    n
}

// Writes the counts that an event can move; the others stay.
fn put_counts(
    counts: &mut [u64; Desk::COUNTS],
    operations: u64,
    accepted: u64,
    refused: u64,
    left: u64,
)
    ensures { counts.new ≡ operations ∷ accepted ∷ refused ∷ left ∷ get_or counts.old 4 0 ∷ get_or counts.old 5 0 ∷ get_or counts.old 6 0 ∷ get_or counts.old 7 0 ∷ get_or counts.old 8 0 ∷ [] }
{
    let ended = counts[Desk::ENDED];
    let place = counts[Desk::PLACE];
    let sagas = counts[Desk::SAGAS];
    let plain = counts[Desk::PLAIN];
    let edition = counts[Desk::EDITION];
    *counts = [
        operations, accepted, refused, left, ended, place, sagas, plain, edition,
    ];
}

// Takes one event: its verdict's number, and the desk moved on behind it. A refused event is counted, and changes nothing else.
fn take_event(
    sheet: &[u32; Sheet::NUMBERS],
    transactions: &mut [u32; Book::TRANSACTIONS],
    ops: &mut [u32; Operation::MOST],
    records: &mut [u32; Operation::MOST],
    counts: &mut [u64; Desk::COUNTS],
    event: Event,
    pupil: u32,
) -> u64
    ensures { (j : Judgement) (steps : List ℕ) → DeskStands j (desk_of sheet.now transactions.old ops.old records.old steps counts.old) → (result ≡ verdict_number (judgedEvent j.tables j.state event).verdict) × DeskStands (event_then j event pupil) (desk_of sheet.now transactions.new ops.new records.new steps counts.new) }
{
    let n = counts[Desk::OPERATIONS] as usize;
    let accepted = counts[Desk::ACCEPTED];
    let refused = counts[Desk::REFUSED];
    let left = counts[Desk::LEFT] as usize;
    let shown = left::take(sheet, transactions, ops, n, event, left);
    let verdict = shown.verdict;
    let after = shown.count;
    let count = after as u64;
    let sum = shown.left as u64;
    match verdict {
        Verdict::Accepted => {
            onward::note(records, n, after, pupil);
            let taken = more(accepted);
            put_counts(counts, count, taken, refused, sum);
            0
        }
        Verdict::Refused(refusal) => {
            let denied = more(refused);
            put_counts(counts, count, accepted, denied, sum);
            refusal.number() as u64
        }
    }
}

// Takes an event behind all others: 0 if it is accepted, and then the desk is moved on; else the number of its refusal. An operation whose mark is none is counted among the refused
// events; what has no code, or a record that no field can say, is no event.
pub fn take(
    sheet: &[u32; Sheet::NUMBERS],
    transactions: &mut [u32; Book::TRANSACTIONS],
    ops: &mut [u32; Operation::MOST],
    records: &mut [u32; Operation::MOST],
    counts: &mut [u64; Desk::COUNTS],
    code: u64,
    a: u64,
    b: u64,
    c: u64,
    d: u64,
) -> u64
    ensures { (j : Judgement) (steps : List ℕ) → DeskStands j (desk_of sheet.now transactions.old ops.old records.old steps counts.old) → (result ≡ asked_by j (named_by j.edition code a b c d)) × DeskStands (taken_by j (named_by j.edition code a b c d)) (desk_of sheet.now transactions.new ops.new records.new steps counts.new) }
{
    let ended = counts[Desk::ENDED];
    if ended != 0 {
        return ended;
    }
    let edition = edition_in(counts);
    let taken = named_by(edition, code, a as usize, b as usize, c as usize, d);
    match taken {
        Ok((event, pupil)) => {
            take_event(sheet, transactions, ops, records, counts, event, pupil)
        }
        Err(why) => {
            let refusal = why.refusal();
            let number = refusal.number() as u64;
            match why {
                Unnamed::NoCode => number,
                Unnamed::NoNumber => number,
                Unnamed::NoMark => {
                    let operations = counts[Desk::OPERATIONS];
                    let accepted = counts[Desk::ACCEPTED];
                    let refused = counts[Desk::REFUSED];
                    let left = counts[Desk::LEFT];
                    let passed = more(refused);
                    put_counts(counts, operations, accepted, passed, left);
                    number
                }
            }
        }
    }
}

// ---- questions

// The numbers of a phase, a fate and a mark are written out here for themselves: `rules` and `cells` have the same or others inside the words that they pack, and to ask those would
// make an inside of theirs public for a match of this size.
//
// 0 idle, 1 active, 2 committed, 3 aborted.
fn phase_number(phase: Phase) -> u64
    ensures { result ≡ phase_code phase }
{
    match phase {
        Phase::Idle => 0,
        Phase::Active => 1,
        Phase::Committed => 2,
        Phase::Aborted => 3,
    }
}

// How a transaction stands; 4 if there is no such transaction.
pub fn phase(sheet: &[u32; Sheet::NUMBERS], transactions: &[u32; Book::TRANSACTIONS], t: u64) -> u64
    ensures { (j : Judgement) (ops records steps counts : List ℕ) → DeskStands j (desk_of sheet.now transactions.now ops records steps counts) → result ≡ phase_number j.tables j.state t }
{
    let sort = sheet::sort_at(sheet, t as usize);
    if sort.is_known() {
        let phase = rules::phase_at(transactions, t as usize);
        return phase_number(phase);
    }
    4
}

// As a transaction ends: 1 active, 2 committed, 3 aborted.
fn fate_number(fate: Fate) -> u64
    ensures { result ≡ fate_number fate }
{
    match fate {
        Fate::Aborted => 3,
        Fate::Active => 1,
        Fate::Committed => 2,
    }
}

// As a book has it: 0 a read, 1 a write.
fn mark_number(mark: Mark) -> u64
    ensures { result ≡ mark_code mark }
{
    match mark {
        Mark::Read => 0,
        Mark::Write => 1,
    }
}

// Object, mark, responsible transaction and how it stands.
fn operation_numbers(op: Operation) -> [u64; 4]
    ensures { result ≡ operation_numbers_of op }
{
    let mark = op.mark;
    let fate = op.fate;
    let object = op.object as u64;
    let does = mark_number(mark);
    let responsible = op.responsible as u64;
    let stands = fate_number(fate);
    [object, does, responsible, stands]
}

// Operation q: its object, its mark, its responsible transaction and how it stands; four times 0 if there is no such operation.
pub fn operation(ops: &[u32; Operation::MOST], counts: &[u64; Desk::COUNTS], q: u64) -> [u64; 4]
    ensures { (j : Judgement) (sheet transactions records steps : List ℕ) → DeskStands j (desk_of sheet transactions ops.now records steps counts.now) → result ≡ operation_numbers j.state.ops q }
{
    let all = cells::size(counts[Desk::OPERATIONS] as usize);
    let i = q as usize;
    if i < all {
        let op = cells::op_in(ops[i]);
        return operation_numbers(op);
    }
    [0, 0, 0, 0]
}

// The tables, as far as questions look at them: sagas, their steps and plain transactions.
fn outline(steps: &[u8; Book::SAGAS], counts: &[u64; Desk::COUNTS]) -> Tables
    ensures { result ≡ outline_in steps.now counts.now }
{
    let none = Tables::empty();
    let each = *steps;
    let dependencies = none.dependencies;
    let sagas = counts[Desk::SAGAS] as usize;
    let plain = counts[Desk::PLAIN] as usize;
    Tables {
        sagas,
        steps: each,
        plain,
        objects: 0,
        dependencies,
        declared: 0,
    }
}

// A closing step's event as a book has it, 0 if there is none, its transaction, the number outstanding, and 1 if the saga is settled.
fn saga_numbers(step: NextStep, owed: usize, done: u64) -> [u64; 4]
    ensures { result ≡ saga_numbers_by step owed done }
{
    match step {
        NextStep::NoStep => [0, 0, owed as u64, done],
        NextStep::ToBegin(t) => [1, t as u64, owed as u64, done],
        NextStep::ToCommit(t) => [2, t as u64, owed as u64, done],
        NextStep::ToAbort(t) => [3, t as u64, owed as u64, done],
    }
}

// The saga of an index, counted from 0: its closing step, what it owes and whether it is settled. Of an index that is no saga's the event is 255,
// which no event of a book has.
pub fn saga_of(tables: Tables, state: State, index: u64) -> [u64; 4]
    ensures { result ≡ saga_numbers tables state index }
{
    let i = index as usize;
    if i < tables.saga_count() {
        let step = closing::closing(tables, state, i);
        let owed = closing::outstanding(tables, state, i);
        let settled = closing::settled(tables, state, i);
        let done = u64::from(settled);
        return saga_numbers(step, owed, done);
    }
    [255, 0, 0, 0]
}

// The same from a desk.
pub fn saga(
    transactions: &[u32; Book::TRANSACTIONS],
    ops: &[u32; Operation::MOST],
    steps: &[u8; Book::SAGAS],
    counts: &[u64; Desk::COUNTS],
    index: u64,
) -> [u64; 4]
    ensures { (j : Judgement) (sheet records : List ℕ) → DeskStands j (desk_of sheet transactions.now ops.now records steps.now counts.now) → result ≡ saga_numbers j.tables j.state index }
{
    let tables = outline(steps, counts);
    let n = counts[Desk::OPERATIONS] as usize;
    let state = judge::state_of(transactions, ops, n);
    saga_of(tables, state, index)
}

// Sagas, transactions, operations, events accepted, events refused and passed over, how much is left, how many transactions are active, and the lowest of them, 64 if there
// is none.
pub fn tally(
    transactions: &[u32; Book::TRANSACTIONS],
    steps: &[u8; Book::SAGAS],
    counts: &[u64; Desk::COUNTS],
) -> [u64; 8]
    ensures { (j : Judgement) (sheet ops records : List ℕ) → DeskStands j (desk_of sheet transactions.now ops records steps.now counts.now) → result ≡ tally_of j }
{
    let tables = outline(steps, counts);
    let sagas = tables.saga_count() as u64;
    let all = tables.transaction_count() as u64;
    let n = counts[Desk::OPERATIONS] as usize;
    let operations = cells::size(n) as u64;
    let stand = rules::transactions_of(transactions);
    let set = report::active_set(stand);
    let active = sets::how_many(set) as u64;
    let lowest = sets::lowest(set) as u64;
    let accepted = counts[Desk::ACCEPTED];
    let refused = counts[Desk::REFUSED];
    let left = counts[Desk::LEFT];
    [
        sagas, all, operations, accepted, refused, left, active, lowest,
    ]
}

// For every transaction the set of those before which it stands by one tie, as the bits of one number.
pub fn pairs(
    transactions: &[u32; Book::TRANSACTIONS],
    ops: &[u32; Operation::MOST],
    counts: &[u64; Desk::COUNTS],
    rows: &mut [u64; Book::TRANSACTIONS],
)
    ensures { (j : Judgement) (sheet records steps : List ℕ) → DeskStands j (desk_of sheet transactions.now ops.now records steps counts.now) → rows.new ≡ (report_of j.state).before }
{
    let state = judge::state_of(transactions, ops, counts[Desk::OPERATIONS] as usize);
    let told = report::report_of(state);
    let before = told.before;
    *rows = before;
}

// Puts the transactions that hold a committed operation, in the order in which their changes can be replayed, at the front of a lent list.
pub fn replay(
    ops: &[u32; Operation::MOST],
    counts: &[u64; Desk::COUNTS],
    list: &mut [u16],
) -> Option<usize>
    ensures { (j : Judgement) (sheet transactions records steps : List ℕ) → DeskStands j (desk_of sheet transactions ops.now records steps counts.now) → (result ≡ copy_answer (order_of j.state.ops) list.old) × (list.new ≡ copy_room (order_of j.state.ops) list.old) }
{
    let made = cells::ops_of(ops, counts[Desk::OPERATIONS] as usize);
    replay::put_order(made, list)
}

// The verdict of a number; one that is no refusal's is accepted.
#[tactic(auto, unfolding(crate::specs::Questions::verdict_in))]
fn verdict_in(n: u64) -> Verdict
    ensures { result ≡ verdict_in n }
{
    match Refusal::try_from(n) {
        Ok(refusal) => Verdict::Refused(refusal),
        Err(_) => Verdict::Accepted,
    }
}

// Puts line k of the listing at the front of a lent room; the lines of events that were refused and passed over are not among them.
pub fn line(
    transactions: &[u32; Book::TRANSACTIONS],
    ops: &[u32; Operation::MOST],
    records: &[u32; Operation::MOST],
    steps: &[u8; Book::SAGAS],
    counts: &[u64; Desk::COUNTS],
    k: u64,
    room: &mut [u8],
) -> Result<usize, NotPlaced>
    ensures { (j : Judgement) (sheet : List ℕ) → DeskStands j (desk_of sheet transactions.now ops.now records.now steps.now counts.now) → (result ≡ place_answer j k room.old) × (room.new ≡ place_room j k room.old) }
{
    let ended = counts[Desk::ENDED];
    let answer = verdict_in(ended);
    let tables = outline(steps, counts);
    let n = counts[Desk::OPERATIONS] as usize;
    let state = judge::state_of(transactions, ops, n);
    let events = counts[Desk::ACCEPTED] as usize;
    let refused = counts[Desk::REFUSED] as usize;
    let place = counts[Desk::PLACE] as usize;
    let edition = edition_in(counts);
    let pupils = *records;
    let judgement = Judgement {
        answer,
        events,
        refused,
        place,
        edition,
        tables,
        state,
        records: pupils,
    };
    listing::put_line(judgement, k as usize, room)
}
