// A caller of the judge as a till program is one, and of the sum as the program of a board is one: it lends its sheet and its state, and asks for one event to be
// taken. bench/stack runs it to see how much stack that takes beyond the numbers lent, bench/board how much longer an event takes with the sum.
#![tactic(auto)]

ghost use Rattle.std.specs.Prelude.{◌≡◌, get_or};
ghost use Rattle.terms.specs.Refusals.{verdict_number};
ghost use Rattle.tables.specs.declared.Tables.{Tables};
ghost use Rattle.sheet.specs.Sheet.{Holds};
ghost use Rattle.judge.specs.Judge.{judged};
ghost use Rattle.judge.specs.Lent.{state_in};
ghost use Rattle.left.specs.Left.{left_then};
ghost use Rattle.probe.specs.Probed.{event_by};

use sheet::Sheet;
use terms::{Book, Event, Mark};
use ties::Operation;

// The event of a code as a book has it, with its fields; an operation is a write, and any code past 7 a spawn, so that a caller needs no answer for a code that is none. A code stays a
// number here, since C hands it in as one; `items::code_of` knows none for those past 8, and would leave that case to be made up here.
fn event_by(code: u64, a: usize, b: usize, c: usize) -> Event
    ensures { result ≡ event_by code a b c }
{
    match code {
        1 => Event::Begin(a),
        2 => Event::Commit(a),
        3 => Event::Abort(a),
        4 => Event::Operation(a, b, Mark::Write),
        5 => Event::Delegate(a, b, c),
        6 => Event::CommitOne(a, b),
        7 => Event::AbortOne(a, b),
        _ => Event::Spawn(a, b),
    }
}

// Takes one event: the verdict's number, and the lent numbers changed if it is accepted.
#[unsafe(no_mangle)]
pub extern "C" fn probe_take(
    sheet: &[u32; Sheet::NUMBERS],
    transactions: &mut [u32; Book::TRANSACTIONS],
    ops: &mut [u32; Operation::MOST],
    n: u64,
    code: u64,
    a: u64,
    b: u64,
    c: u64,
) -> u64
    ensures { (tables : Tables) → Holds tables sheet.now → result ≡ verdict_number (judged tables (state_in transactions.old ops.old n) (event_by code a b c)).verdict }
{
    let event = event_by(code, a as usize, b as usize, c as usize);
    let taken = judge::take(sheet, transactions, ops, n as usize, event);
    let verdict = taken.verdict;
    verdict.number() as u64
}

// Takes one event and keeps the sum: the verdict's number, and the lent numbers changed if it is accepted. The board, two numbers of C's, has the count of operations and how much
// is left.
#[unsafe(no_mangle)]
pub extern "C" fn probe_board(
    sheet: &[u32; Sheet::NUMBERS],
    transactions: &mut [u32; Book::TRANSACTIONS],
    ops: &mut [u32; Operation::MOST],
    board: &mut [u64; 2],
    code: u64,
    a: u64,
    b: u64,
    c: u64,
) -> u64
    ensures { (tables : Tables) → Holds tables sheet.now → (result ≡ verdict_number (judged tables (state_in transactions.old ops.old (get_or board.old 0 0)) (event_by code a b c)).verdict) × ((state_in transactions.new ops.new (get_or board.new 0 0) ≡ (judged tables (state_in transactions.old ops.old (get_or board.old 0 0)) (event_by code a b c)).state) × (get_or board.new 1 0 ≡ left_then tables (state_in transactions.old ops.old (get_or board.old 0 0)) (get_or board.old 1 0) (event_by code a b c))) }
{
    let event = event_by(code, a as usize, b as usize, c as usize);
    let n = board[0] as usize;
    let left = board[1] as usize;
    let shown = left::take(sheet, transactions, ops, n, event, left);
    let verdict = shown.verdict;
    let count = shown.count as u64;
    let sum = shown.left as u64;
    *board = [count, sum];
    verdict.number() as u64
}
