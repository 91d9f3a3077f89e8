// How much is left: the sum of what all sagas owe, as the board above the pass shows it. It is kept beside the lent numbers, and an event moves it by what the one
// saga owes whose transaction begins or ends; the others are not looked at.
#![tactic(auto)]

ghost use Rattle.std.specs.Prelude.{◌≡◌};
ghost use Rattle.tables.specs.declared.Tables.{Tables};
ghost use Rattle.sheet.specs.Sheet.{Holds, sort_at};
ghost use Rattle.rules.specs.Lent.{transactions_in};
ghost use Rattle.judge.specs.Judge.{judged};
ghost use Rattle.judge.specs.Lent.{state_in};
ghost use Rattle.left.specs.Left.{left_in, left_then, moved, moves_by, owed_by_sort, owed_from};

use rules::State;
use sheet::Sheet;
use tables::{Sort, Tables};
use terms::{Book, Event, Verdict};
use ties::Operation;

// After an event: its verdict, how many operations there are, and how much is left.
#[derive(Drop)]
pub struct Board {
    pub verdict: Verdict,
    pub count: usize,
    pub left: usize,
}

// How many closing steps the saga owes that starts at `first` and has n steps, in lent numbers.
pub fn owed_in(transactions: &[u32; Book::TRANSACTIONS], first: u16, n: u16) -> u32
    ensures { result ≡ owed_from (transactions_in transactions.now) first n }
{
    closing::owed_in(transactions, first, n) as u32
}

// ---- what an event can change

// The sort of the transaction that an event begins or ends; other events begin and end none.
fn moves_on(sheet: &[u32; Sheet::NUMBERS], event: Event) -> Sort
    ensures { result ≡ moves_by (sort_at sheet.now) event }
{
    match event {
        Event::Begin(t) | Event::Commit(t) | Event::Abort(t) | Event::Spawn(_, t) => {
            sheet::sort_at(sheet, t)
        }
        Event::Operation(_, _, _)
        | Event::Delegate(_, _, _)
        | Event::CommitOne(_, _)
        | Event::AbortOne(_, _) => Sort::Unknown,
    }
}

// What the saga owes that a transaction of this sort belongs to.
fn owed_by_sort(transactions: &[u32; Book::TRANSACTIONS], sort: Sort) -> u32
    ensures { result ≡ owed_by_sort (transactions_in transactions.now) sort }
{
    match sort {
        Sort::Saga(first, n) => owed_in(transactions, first, n),
        Sort::Step(first, n, _) => owed_in(transactions, first, n),
        Sort::Undo(first, n, _) => owed_in(transactions, first, n),
        Sort::Plain | Sort::Unknown => 0,
    }
}

// A sum less what one saga owed, plus what it owes then; no sum is more than there may be transactions.
fn moved(left: usize, before: u32, after: u32) -> usize
    ensures { result ≡ moved left before after }
{
    let sum = left.min(Book::TRANSACTIONS);
    sum.saturating_sub(before as usize) + after as usize
}

// The sheet, the transactions and the operations are lent one by one, since `judge::take` takes them so, and `probe_board` hands them on as C lends them.

// Judges one event, makes what it changes, and moves the sum; a refused event leaves the lent numbers, and a sum that is right, as they were. It holds of the
// tables that the sheet was made of.
pub fn take(
    sheet: &[u32; Sheet::NUMBERS],
    transactions: &mut [u32; Book::TRANSACTIONS],
    ops: &mut [u32; Operation::MOST],
    n: usize,
    event: Event,
    left: usize,
) -> Board
    ensures { (tables : Tables) → Holds tables sheet.now → (result.verdict ≡ (judged tables (state_in transactions.old ops.old n) event).verdict) × ((state_in transactions.new ops.new result.count ≡ (judged tables (state_in transactions.old ops.old n) event).state) × (result.left ≡ left_then tables (state_in transactions.old ops.old n) left event)) }
{
    let sort = moves_on(sheet, event);
    let before = owed_by_sort(transactions, sort);
    let taken = judge::take(sheet, transactions, ops, n, event);
    let after = owed_by_sort(transactions, sort);
    Board {
        verdict: taken.verdict,
        count: taken.count,
        left: moved(left, before, after),
    }
}

// ---- the whole sum, once

// How much is left in a state: what all sagas owe together.
pub fn left_of(tables: Tables, state: State) -> usize
    ensures { result ≡ left_in tables state }
{
    let sagas = tables.saga_count();
    let mut sum: usize = 0;
    for i in 0..sagas {
        sum += closing::outstanding(tables, state, i);
    }
    sum
}
