// Whether an event would put an undo on a ring: the order of the transactions as one row of bits for each, made in one sweep over the
// operations, and searched in both directions.
#![tactic(auto)]

ghost use Rattle.std.specs.Prelude.{◌≡◌, true, cond, ◌↔◌, ℕ, ◌≤◌, ◌<◌};
ghost use Rattle.terms.specs.Events.{is_write};
ghost use Rattle.sets.specs.Sets.{mem, inserted};
ghost use Rattle.ties.specs.Operations.{most_operations, given_to};
ghost use Rattle.ties.specs.Ties.{ties_of, before_made, before_given, before_handed, ring_with};
ghost use Rattle.cells.specs.Cells.{ops_in};
ghost use Rattle.rows.specs.Rows.{handed_by, read_at, read_handed, read_with, Lent, mem_at, Led, NothingMet, SweepsOne, SweepsOver};

use terms::{Book, Mark};
use ties::Operation;

// Of those who use an object later and those who write it later, the ones that an operation of this mark is tied to: two reads are not.
fn tied_later(mark: Mark, users: u64, writers: u64) -> u64
    ensures { result ≡ cond (is_write mark) users writers }
{
    if mark.is_write() {
        return users;
    }
    writers
}

// The writers of an object with a too, if a's mark is a write.
fn with_writer(mark: Mark, writers: u64, a: usize) -> u64
    ensures { result ≡ cond (is_write mark) (inserted writers a) writers }
{
    if mark.is_write() {
        return sets::with_member(writers, a);
    }
    writers
}

// What a sweep over the operations holds on its way down: for each object who uses it later and who writes it later, and for each transaction its row, the set of those that it
// stands before. It is lent from step to step, since handing it on by value would copy its 1 KB.
#[derive(Drop)]
pub struct Sweep {
    pub users: [u64; Book::OBJECTS],
    pub writers: [u64; Book::OBJECTS],
    pub rows: [u64; Book::TRANSACTIONS],
}

impl Sweep {
    // Nothing is met yet: every set is empty.
    pub fn nothing_met() -> Sweep
        ensures { NothingMet result }
    {
        Sweep {
            users: [0u64; Book::OBJECTS],
            writers: [0u64; Book::OBJECTS],
            rows: [0u64; Book::TRANSACTIONS],
        }
    }

    // One operation met on the way down: its transaction stands before the others that use its object later, and is one of those itself.
    pub fn sweep_one(&mut self, p: Operation)
        ensures { SweepsOne p self.old self.new }
    {
        if p.is_gone() {
            return;
        }
        let mark = p.mark;
        let o = p.object as usize;
        let a = p.responsible as usize;
        let used = self.users[o];
        let written = self.writers[o];
        let tied = tied_later(mark, used, written);
        let own = sets::with_member(0, a);
        let others = sets::without(tied, own);
        let row = self.rows[a];
        self.rows[a] = row | others;
        self.users[o] = sets::with_member(used, a);
        self.writers[o] = with_writer(mark, written, a);
    }
}

// An operation once a giver has handed all that it is at work on to a receiver.
fn handed_by(giver: usize, receiver: u16, op: Operation) -> Operation
    ensures { result ≡ handed_by giver receiver op }
{
    if op.held_by(giver) {
        return op.passed_to(receiver);
    }
    op
}

// A set of transactions with all that its members lead to: each member's row is taken in once.
fn led_from(rows: &[u64; Book::TRANSACTIONS], from: u64) -> u64
    ensures { (k : ℕ) → (mem result k ≡ true) ↔ Led (mem_at rows.now) from k }
{
    let mut reached = from;
    let mut done: u64 = 0;
    loop {
        let waiting = sets::without(reached, done);
        if waiting == 0 {
            return reached;
        }
        let a = sets::lowest(waiting);
        let row = rows[a];
        reached = reached | row;
        done = sets::with_member(done, a);
    }
}

// The operations that the caller lends, once a giver has handed all that it is at work on to a receiver.
#[derive(Clone, Copy)]
struct Handed<'a> {
    ops: &'a [u32; Operation::MOST],
    giver: usize,
    receiver: u16,
}

impl Handed<'_> {
    // Operation i.
    fn at(self, i: usize) -> Operation
        requires { i < most_operations }
        ensures { result ≡ read_handed self.entry.ops.now self.entry.giver self.entry.receiver i }
    {
        let held = cells::op_in(self.ops[i]);
        handed_by(self.giver, self.receiver, held)
    }

    // Those from one number up to another, met from the last down.
    fn sweep(self, from: usize, to: usize, met: &mut Sweep)
        requires { (from ≤ to) × ((i : ℕ) → from ≤ i → i < to → i < most_operations) }
        ensures { SweepsOver (read_handed self.entry.ops.now self.entry.giver self.entry.receiver) from to met.old met.new }
    {
        for i in (from..to).rev() {
            let p = self.at(i);
            met.sweep_one(p);
        }
    }

    // All of so many, with x read at one place, if it is among them, met from the last down.
    fn sweep_with(self, total: usize, at: usize, x: Operation, met: &mut Sweep)
        requires { Lent total at }
        ensures { SweepsOver (read_with self.entry.ops.now self.entry.giver self.entry.receiver at x) 0 total met.old met.new }
    {
        if total <= at {
            self.sweep(0, total, met);
            return;
        }
        self.sweep(at + 1, total, met);
        met.sweep_one(x);
        self.sweep(0, at, met);
    }

    // Whether one of some and v lead to each other, with x read at one place.
    fn ring_with(self, total: usize, at: usize, x: Operation, some: u64, v: usize) -> bool
        requires { Lent total at }
        ensures { result ≡ ring_with (ties_of total (read_with self.entry.ops.now self.entry.giver self.entry.receiver at x)) (mem some) v }
    {
        if Book::TRANSACTIONS <= v {
            return false;
        }
        let mut met = Sweep::nothing_met();
        self.sweep_with(total, at, x, &mut met);
        let next = met.rows[v];
        let after = led_from(&met.rows, next);
        let rest = sets::without(after, some);
        let both = sets::without(after, rest);
        if both == 0 {
            return false;
        }
        let back = led_from(&met.rows, both);
        sets::member(back, v)
    }
}

// Whether one of some would be on a ring with whoever invokes x, had it been invoked.
pub fn ring_made(ops: &[u32; Operation::MOST], n: usize, x: Operation, some: u64) -> bool
    ensures { result ≡ ring_with (before_made (ops_in ops.now n) x) (mem some) x.responsible }
{
    let all = cells::size(n);
    let total = all + 1;
    let v = x.responsible as usize;
    let as_they_stand = Handed {
        ops,
        giver: Book::TRANSACTIONS,
        receiver: 0,
    };
    as_they_stand.ring_with(total, all, x, some, v)
}

// Operation q as it would be, had a receiver been given it.
fn given_at(ops: &[u32; Operation::MOST], q: usize, receiver: u16) -> Operation
    ensures { q < most_operations → result ≡ given_to receiver (read_at ops.now q) }
{
    if q < Operation::MOST {
        let op = cells::op_in(ops[q]);
        return op.given_to(receiver);
    }
    Operation::none()
}

// Whether one of some would be on a ring with the receiver, had it been given operation q.
pub fn ring_given(
    ops: &[u32; Operation::MOST],
    n: usize,
    q: usize,
    receiver: u16,
    some: u64,
) -> bool
    ensures { result ≡ ring_with (before_given (ops_in ops.now n) q receiver) (mem some) receiver }
{
    let all = cells::size(n);
    let x = given_at(ops, q, receiver);
    let v = receiver as usize;
    let as_they_stand = Handed {
        ops,
        giver: Book::TRANSACTIONS,
        receiver: 0,
    };
    as_they_stand.ring_with(all, q, x, some, v)
}

// Whether one of some would be on a ring with the receiver, had it been handed all that t is at work on.
pub fn ring_handed(
    ops: &[u32; Operation::MOST],
    n: usize,
    t: usize,
    receiver: u16,
    some: u64,
) -> bool
    ensures { result ≡ ring_with (before_handed (ops_in ops.now n) t receiver) (mem some) receiver }
{
    let all = cells::size(n);
    let none = Operation::none();
    let v = receiver as usize;
    let handed = Handed {
        ops,
        giver: t,
        receiver,
    };
    handed.ring_with(all, all, none, some, v)
}
