// How a state stands as a whole: who is active, and who stands before whom.
#![tactic(auto)]

ghost use Rattle.std.specs.Prelude.{◌≡◌, false, get_or};
ghost use Rattle.laws.specs.Index.{tabulate};
ghost use Rattle.terms.specs.Limits.{most_transactions};
ghost use Rattle.sets.specs.Sets.{set_of};
ghost use Rattle.report.specs.Report.{active_set, stands_before, report_of};

use rules::{State, Transaction};
use terms::Book;
use ties::Ops;

// How many transactions are active, the lowest of them (64 if there is none, as `report_of` promises), and for every transaction the set of those before
// which it stands by one tie.
#[derive(Drop)]
pub struct Report {
    pub active: usize,
    pub lowest: usize,
    pub before: [u64; Book::TRANSACTIONS],
}

// The set of the active transactions.
pub fn active_set(transactions: [Transaction; Book::TRANSACTIONS]) -> u64
    ensures { result ≡ active_set transactions }
{
    let mut set: u64 = 0;
    for (t, transaction) in transactions.iter().enumerate() {
        if transaction.phase.is_active() {
            set = sets::with_member(set, t);
        }
    }
    set
}

// The set of those that a row of the table of pairs marks.
fn set_in(row: &[bool; Book::TRANSACTIONS]) -> u64
    ensures { result ≡ set_of most_transactions (λ b. get_or row.now b false) }
{
    let mut set: u64 = 0;
    for (b, marked) in row.iter().enumerate() {
        if *marked {
            set = sets::with_member(set, b);
        }
    }
    set
}

// For every transaction the set of those before which it stands, read from the table of pairs.
fn standing(ops: Ops) -> [u64; Book::TRANSACTIONS]
    ensures { result ≡ tabulate most_transactions (stands_before ops) }
{
    let table = ops.pairs();
    let mut rows = [0u64; Book::TRANSACTIONS];
    for (a, row) in table.iter().enumerate() {
        rows[a] = set_in(row);
    }
    rows
}

// The report of a state.
pub fn report_of(state: State) -> Report
    ensures { result ≡ report_of state }
{
    let set = active_set(state.transactions);
    let many = sets::how_many(set);
    let low = sets::lowest(set);
    Report {
        active: many,
        lowest: low,
        before: standing(state.ops),
    }
}
