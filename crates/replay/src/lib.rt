// An order in which the committed changes can be replayed, one transaction at a time.
#![tactic(auto)]

ghost use Rattle.std.specs.Prelude.{◌≡◌, ◌&&◌, ◌++◌, ℕ, ◌≤◌, ltb, length, take, drop};
ghost use Rattle.laws.specs.Index.{any_below};
ghost use Rattle.terms.specs.Limits.{most_transactions};
ghost use Rattle.sets.specs.Sets.{mem};
ghost use Rattle.ties.specs.Operations.{is_committed};
ghost use Rattle.rows.specs.Rows.{mem_at, NothingMet};
ghost use Rattle.replay.specs.Replay.{kept, holds, comes_before, order_of, copy_answer, copy_room};

use rows::Sweep;
use terms::Book;
use ties::{Operation, Ops};

// The order: the first so many of these. The count stands beside a fixed array, since no memory is taken.
#[derive(Drop)]
pub struct Order {
    pub numbers: [u16; Book::TRANSACTIONS],
    pub count: usize,
}

// Whether the change is replayed: it is committed.
fn is_kept(op: Operation) -> bool
    ensures { result ≡ is_committed op.fate }
{
    let fate = op.fate;
    fate.is_committed()
}

// The operation if it is replayed; any other is as if there were none.
fn kept(op: Operation) -> Operation
    ensures { result ≡ kept op }
{
    if is_kept(op) {
        return op;
    }
    Operation::none()
}

// The set of those who hold a committed operation.
fn holders(ops: Ops) -> u64
    ensures { (t : ℕ) → mem result t ≡ (ltb t most_transactions && holds ops t) }
{
    let total = ops.size();
    let mut set: u64 = 0;
    for i in 0..total {
        let op = ops.all[i];
        if is_kept(op) {
            set = sets::with_member(set, op.responsible as usize);
        }
    }
    set
}

// Meets the committed operations: where nothing was met before, each row is then the set of those that its transaction comes before by a tie between two of them.
fn sweep_kept(ops: Ops, met: &mut Sweep)
    ensures { NothingMet met.old → (a k : ℕ) → mem_at met.new.rows a k ≡ comes_before ops a k }
{
    for i in (0..ops.size()).rev() {
        let op = kept(ops.all[i]);
        met.sweep_one(op);
    }
}

// Those that one of some comes before.
fn behind(rows: &[u64; Book::TRANSACTIONS], some: u64) -> u64
    ensures { (k : ℕ) → mem result k ≡ any_below most_transactions (λ a. mem some a && mem_at rows.now a k) }
{
    let mut set: u64 = 0;
    for (a, row) in rows.iter().enumerate() {
        if sets::member(some, a) {
            set = set | *row;
        }
    }
    set
}

// The order of these operations: each time the lowest of those that are left and behind none that is left.
pub fn order_of(ops: Ops) -> Order
    ensures { (take result.count result.numbers ≡ order_of ops) × (result.count ≤ most_transactions) }
{
    let mut met = Sweep::nothing_met();
    sweep_kept(ops, &mut met);
    let mut left = holders(ops);
    let mut numbers = [0u16; Book::TRANSACTIONS];
    for count in 0..Book::TRANSACTIONS {
        let waiting = behind(&met.rows, left);
        let free = sets::without(left, waiting);
        let t = sets::lowest(free);
        if Book::TRANSACTIONS <= t {
            return Order { numbers, count };
        }
        numbers[count] = t as u16;
        let listed = sets::with_member(0, t);
        left = sets::without(left, listed);
    }
    Order {
        numbers,
        count: Book::TRANSACTIONS,
    }
}

// Puts the order of these operations at the front of a lent list, and answers how many numbers it has; a list that is too short is left as it was, and has no answer.
pub fn put_order(ops: Ops, room: &mut [u16]) -> Option<usize>
    ensures { (result ≡ copy_answer (order_of ops) room.old) × (room.new ≡ copy_room (order_of ops) room.old) }
{
    let order = order_of(ops);
    let n = order.count;
    if room.len() < n {
        return None;
    }
    room[..n].copy_from_slice(&order.numbers[..n]);
    Some(n)
}
