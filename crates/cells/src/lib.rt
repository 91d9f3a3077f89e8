// Accepted operations in numbers that the caller lends: one number for each operation, looked at and changed where it stands. A number of any
// value stands for an operation, so that no lent room can harm.
#![tactic(auto)]

ghost use Rattle.std.specs.Prelude.{◌≡◌, true, ◌&&◌, ℕ, ◌≤◌, ◌<◌, min, ltb, Bool};
ghost use Rattle.ties.specs.declared.Operation.{Operation};
ghost use Rattle.ties.specs.Operations.{most_operations, ended_one, ended_ops, rewritten, all_held_by};
ghost use Rattle.ties.specs.Ties.{dirty_at, dirty, must_wait};
ghost use Rattle.cells.specs.Cells.{mark_in, fate_in, mark_code, fate_code, op_in, fits, ops_in, made_in, given_in, handed_in, found_in, held_in, read_in, Next, WholeOps};

use terms::{Book, Mark};
use ties::{Fate, Operation, Ops};

// Marks and fates are codes in the lent numbers, since C lends that memory, and any number has to stand for something.
fn mark_in(k: u32) -> Mark
    ensures { result ≡ mark_in k }
{
    match k {
        0 => Mark::Read,
        _ => Mark::Write,
    }
}

fn fate_in(k: u32) -> Fate
    ensures { result ≡ fate_in k }
{
    match k {
        1 => Fate::Active,
        2 => Fate::Committed,
        _ => Fate::Aborted,
    }
}

fn mark_code(mark: Mark) -> u32
    ensures { result ≡ mark_code mark }
{
    match mark {
        Mark::Read => 0,
        Mark::Write => 1,
    }
}

fn fate_code(fate: Fate) -> u32
    ensures { result ≡ fate_code fate }
{
    match fate {
        Fate::Aborted => 0,
        Fate::Active => 1,
        Fate::Committed => 2,
    }
}

// The operation that a number stands for.
pub fn op_in(c: u32) -> Operation
    ensures { result ≡ op_in c }
{
    Operation {
        object: (c % 32) as u8,
        mark: mark_in(c / 32 % 2),
        responsible: (c / 256 % 64) as u16,
        fate: fate_in(c / 64 % 4),
        ended: (c / 16384 % 512) as u16,
    }
}

// Whether a number can stand for the operation: every operation of a book is so.
fn fits(op: Operation) -> bool
    ensures { result ≡ fits op }
{
    let object = op.object as usize;
    let responsible = op.responsible as usize;
    (object < Book::OBJECTS) & ((responsible < Book::TRANSACTIONS) & (op.ended < 512))
}

// The number that stands for an operation.
fn cell_of(op: Operation) -> u32
    requires { fits op ≡ true }
    ensures { op_in result ≡ op }
{
    op.object as u32
        + 32 * mark_code(op.mark)
        + 64 * fate_code(op.fate)
        + 256 * op.responsible as u32
        + 16384 * op.ended as u32
}

// How many operations were accepted: of a count that no book reaches, as many as there is room for.
pub fn size(n: usize) -> usize
    ensures { result ≡ min n most_operations }
{
    n.min(Operation::MOST)
}

// One operation more, if there is room for it; how many there are then.
pub fn made(ops: &mut [u32; Operation::MOST], n: usize, op: Operation) -> usize
    ensures { ops_in ops.new result ≡ made_in op (ops_in ops.old n) }
{
    if !fits(op) {
        return n;
    }
    if Operation::MOST <= n {
        return n;
    }
    ops[n] = cell_of(op);
    n + 1
}

// Operation q delegated to a receiver.
pub fn given(ops: &mut [u32; Operation::MOST], n: usize, q: usize, receiver: u16)
    ensures { ops_in ops.new n ≡ given_in q receiver (ops_in ops.old n) }
{
    let to = receiver as usize;
    if to < Book::TRANSACTIONS {
        if q < size(n) {
            let op = op_in(ops[q]);
            ops[q] = cell_of(op.given_to(receiver));
        }
    }
}

// Operation q ends alone in this fate, where it is active.
pub fn ended_one(ops: &mut [u32; Operation::MOST], n: usize, q: usize, fate: Fate)
    ensures { ops_in ops.new n ≡ ended_one q fate (ops_in ops.old n) }
{
    let all = size(n);
    if q < all {
        let op = op_in(ops[q]);
        ops[q] = cell_of(op.ended_alone(fate, all as u16));
    }
}

// The next operation that passes a test, among those from one number up to another; the latter if there is none.
fn next<F: Fn(Operation) -> bool>(
    ops: &[u32; Operation::MOST],
    from: usize,
    to: usize,
    passes: F,
) -> usize
    requires within { (from ≤ to) × (to ≤ most_operations) }
    requires callable { F.IsAlwaysCallable passes }
    ensures { (is : Operation → Bool) → ((op : Operation) (b : Bool) → fits op ≡ true → F.post passes op b → b ≡ is op) → Next (found_in ops.now is) from to result }
{
    for i in from..to {
        if passes(op_in(ops[i])) {
            return i;
        }
    }
    to
}

// The next active operation that t is responsible for.
fn next_held(ops: &[u32; Operation::MOST], from: usize, to: usize, t: usize) -> usize
    requires { (from ≤ to) × (to ≤ most_operations) }
    ensures { Next (held_in ops.now t) from to result }
{
    next(ops, from, to, |op| op.held_by(t))
}

// Each active operation that t is responsible for becomes what `how` makes of it, and no other changes. Here and in `dirty` the loop goes from one that is found to the
// next, as `next` does not touch what lies between; a count over all numbers with a test in it is no plainer.
fn rewritten<F: Fn(Operation) -> Operation>(
    ops: &mut [u32; Operation::MOST],
    n: usize,
    t: usize,
    how: F,
)
    requires callable { F.IsAlwaysCallable how }
    requires kept { (op made : Operation) → fits op ≡ true → F.post how op made → fits made ≡ true }
    ensures { (makes : Operation → Operation) → ((op made : Operation) → fits op ≡ true → F.post how op made → made ≡ makes op) → ops_in ops.new n ≡ rewritten (all_held_by t) makes (ops_in ops.old n) }
{
    let all = size(n);
    let mut i = next_held(ops, 0, all, t);
    while i < all {
        let op = op_in(ops[i]);
        ops[i] = cell_of(how(op));
        i = next_held(ops, i + 1, all, t);
    }
}

// The active operations that t is responsible for end in this fate, and no others.
pub fn ended(ops: &mut [u32; Operation::MOST], n: usize, t: usize, fate: Fate)
    ensures { ops_in ops.new n ≡ ended_ops t fate (ops_in ops.old n) }
{
    let all = size(n);
    let accepted = all as u16;
    rewritten(ops, n, t, |op| op.ended_as(fate, accepted));
}

// A receiver answers for all that t is at work on.
pub fn handed(ops: &mut [u32; Operation::MOST], n: usize, t: usize, receiver: u16)
    ensures { ops_in ops.new n ≡ handed_in t receiver (ops_in ops.old n) }
{
    let to = receiver as usize;
    if to < Book::TRANSACTIONS {
        rewritten(ops, n, t, |op| op.passed_to(receiver));
    }
}

// Whether operation j is a read that t answers for and saw a write that is not clean for t.
fn dirty_at(ops: &[u32; Operation::MOST], t: usize, j: usize) -> bool
    requires { j < most_operations }
    ensures { (n : ℕ) → result ≡ dirty_at (ops_in ops.now n) t j }
{
    let q = op_in(ops[j]);
    if q.read_by(t) {
        for i in 0..j {
            let p = op_in(ops[i]);
            if p.dirties(t, q, j) {
                return true;
            }
        }
    }
    false
}

// The next read that t answers for.
fn next_read(ops: &[u32; Operation::MOST], from: usize, to: usize, t: usize) -> usize
    requires { (from ≤ to) × (to ≤ most_operations) }
    ensures { Next (read_in ops.now t) from to result }
{
    next(ops, from, to, |op| op.read_by(t))
}

// Whether a read that t answers for saw a write that is not clean for t.
pub fn dirty(ops: &[u32; Operation::MOST], n: usize, t: usize) -> bool
    ensures { result ≡ dirty (ops_in ops.now n) t }
{
    let all = size(n);
    let mut j = next_read(ops, 0, all, t);
    while j < all {
        if dirty_at(ops, t, j) {
            return true;
        }
        j = next_read(ops, j + 1, all, t);
    }
    false
}

// The same of operation q alone, if there is one.
pub fn dirty_one(ops: &[u32; Operation::MOST], n: usize, t: usize, q: usize) -> bool
    ensures { result ≡ (ltb q (min n most_operations) && dirty_at (ops_in ops.now n) t q) }
{
    if q < size(n) {
        return dirty_at(ops, t, q);
    }
    false
}

// Whether an undo t has to wait with this operation for another's that is active.
pub fn must_wait(
    ops: &[u32; Operation::MOST],
    n: usize,
    t: usize,
    object: usize,
    mark: Mark,
) -> bool
    ensures { result ≡ must_wait (ops_in ops.now n) t object mark }
{
    for i in 0..size(n) {
        let p = op_in(ops[i]);
        if p.awaited_by(t, object, mark) {
            return true;
        }
    }
    false
}

// The operations by value, as a reading hands them out: those that are accepted.
pub fn ops_of(ops: &[u32; Operation::MOST], n: usize) -> Ops
    ensures { WholeOps (ops_in ops.now n) → result ≡ ops_in ops.now n }
{
    let accepted = size(n);
    let mut all = [Operation::none(); Operation::MOST];
    for i in 0..accepted {
        all[i] = op_in(ops[i]);
    }
    Ops { all, count: n }
}
