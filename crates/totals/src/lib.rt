// The term's figures: how many sagas of up to 1,000 books were begun, committed, backed out and are still open, and the share backed out of those begun.
#![tactic(auto)]

ghost use Rattle.std.specs.Prelude.{◌≡◌, ◌≤◌, ◌<◌};
ghost use Rattle.terms.specs.Limits.{most_sagas};
ghost use Rattle.closing.specs.Closing.{own_of};
ghost use Rattle.totals.specs.Figures.{add_answer, added_to, answer_number, backed_out_by, begun_by, counts_of, grown, is_refused, most_books, no_totals, open_by, share_of, with_book};

use book::Reading;
use rules::{Phase, State};
use share::Share;
use tables::Tables;
use terms::Verdict;

// The totals of the books that were added one after another: how many they are, how many of them were refused, and how many of their sagas were begun, committed, backed
// out and are still open. Any numbers may stand in it: one that is larger than 1,000 books can bring about counts as what they can.
#[derive(Clone, Copy)]
pub struct Totals {
    pub books: u64,
    pub refused: u64,
    pub begun: u64,
    pub committed: u64,
    pub backed: u64,
    pub unsettled: u64,
}

// How many sagas of one book were begun, committed, backed out and are still open. The same four stand in Totals one by one: `begun`, `still_open` and `adds_up` of specs/Promises name
// them there.
#[derive(Drop)]
pub struct SagaCounts {
    pub begun: u64,
    pub committed: u64,
    pub backed: u64,
    pub unsettled: u64,
}

// Why a book was not read: there are 1,000 already.
#[derive(Clone, Copy)]
pub enum NotRead {
    TooManyBooks,
}

// What adding a book answers: the verdict of reading it, or why it was not read.
pub type Answer = Result<Verdict, NotRead>;

// The answer, and the totals with the book. They stand beside each other, since `add` hands totals back on a refusal too: `added_to` gives those that were before.
#[derive(Drop)]
pub struct Added {
    pub answer: Answer,
    pub totals: Totals,
}

// The number of an answer's refusal, 0 for a book that is accepted whole.
pub fn answer_number(answer: Answer) -> u8
    ensures { result ≡ answer_number answer }
{
    match answer {
        Ok(verdict) => verdict.number(),
        Err(NotRead::TooManyBooks) => 23,
    }
}

impl Totals {
    // So many books are read.
    pub const BOOKS: u64 = 1000;

    // No more sagas than these: 16 a book.
    const SAGAS: u64 = 16000;

    // Before the first book.
    pub fn none() -> Totals
        ensures { result ≡ no_totals }
    {
        Totals {
            books: 0,
            refused: 0,
            begun: 0,
            committed: 0,
            backed: 0,
            unsettled: 0,
        }
    }

    // The share backed out of those begun.
    pub fn share(self) -> Share
        ensures { result ≡ share_of self }
    {
        share::lowest(self.backed, self.begun)
    }
}

// ---- one book

// The phase of S of the saga of an index.
fn saga_phase(tables: Tables, state: State, i: usize) -> Phase
    ensures { result ≡ own_of tables state i 0 }
{
    let saga = tables::saga_at(tables, i);
    rules::own(&state.transactions, saga.first, 0)
}

// Whether a saga was begun, by the phase of S.
fn was_begun(phase: Phase) -> bool
    ensures { result ≡ begun_by phase }
{
    !phase.is_idle()
}

// Whether it was backed out: begun, settled and not committed.
fn was_backed_out(phase: Phase, settled: bool) -> bool
    ensures { result ≡ backed_out_by phase settled }
{
    was_begun(phase) & (settled & !phase.is_committed())
}

// Whether it is still open: begun and not settled.
fn is_open(phase: Phase, settled: bool) -> bool
    ensures { result ≡ open_by phase settled }
{
    was_begun(phase) & !settled
}

// How the sagas of a book stand.
pub fn counts_of(tables: Tables, state: State) -> SagaCounts
    ensures { result ≡ counts_of tables state }
{
    let sagas = tables.saga_count();
    let mut begun: u64 = 0;
    let mut committed: u64 = 0;
    let mut backed: u64 = 0;
    let mut unsettled: u64 = 0;
    for i in 0..sagas {
        let phase = saga_phase(tables, state, i);
        let settled = closing::settled(tables, state, i);
        let more_begun = u64::from(was_begun(phase));
        let more_committed = u64::from(phase.is_committed());
        let more_backed = u64::from(was_backed_out(phase, settled));
        let more_unsettled = u64::from(is_open(phase, settled));
        begun += more_begun;
        committed += more_committed;
        backed += more_backed;
        unsettled += more_unsettled;
    }
    SagaCounts {
        begun,
        committed,
        backed,
        unsettled,
    }
}

// ---- the totals

// Whether a book was refused.
fn is_refused(verdict: Verdict) -> bool
    ensures { result ≡ is_refused verdict }
{
    matches!(verdict, Verdict::Refused(_))
}

// A total with more.
fn grown(total: u64, more: u64) -> u64
    requires { more ≤ most_sagas }
    ensures { result ≡ grown total more }
{
    total.min(Totals::SAGAS) + more
}

// The totals with a book that was read.
fn with_book(totals: Totals, read: Reading) -> Totals
    requires { totals.books < most_books }
    ensures { result ≡ with_book totals read }
{
    let tables = read.tables;
    let state = read.state;
    let answer = read.answer;
    let counts = counts_of(tables, state);
    let refused = grown(totals.refused, u64::from(is_refused(answer)));
    let begun = grown(totals.begun, counts.begun);
    let committed = grown(totals.committed, counts.committed);
    let backed = grown(totals.backed, counts.backed);
    let unsettled = grown(totals.unsettled, counts.unsettled);
    Totals {
        books: totals.books + 1,
        refused,
        begun,
        committed,
        backed,
        unsettled,
    }
}

// Reads a book to its first refusal and adds what its accepted opening comes to; the 1,001st is refused by 23, and the totals stay as they are.
pub fn add(totals: Totals, book: &[u8]) -> Added
    ensures { (result.answer ≡ add_answer totals book.now) × (result.totals ≡ added_to totals book.now) }
{
    if Totals::BOOKS <= totals.books {
        return Added {
            answer: Err(NotRead::TooManyBooks),
            totals,
        };
    }
    let read = book::read_to_first_refusal(book);
    let verdict = read.answer;
    let sum = with_book(totals, read);
    Added {
        answer: Ok(verdict),
        totals: sum,
    }
}
