// Who is on a ring, for the commit of a transaction: passes over the operations, with sets of objects and of transactions alone.
#![tactic(auto)]

ghost use Rattle.std.specs.Prelude.{◌≡◌, cond, ◌≤◌};
ghost use Rattle.sets.specs.Sets.{inserted};
ghost use Rattle.ties.specs.Operations.{most_operations};
ghost use Rattle.ties.specs.Ties.{ties_of, on_ring};
ghost use Rattle.cells.specs.Cells.{ops_in};
ghost use Rattle.rings.specs.Passes.{crosses, untouched, touched_by, first_pass, begun_by, joined_by, left_by, passed, pass_to, read_at, preceded_by, Spread};

use ties::Operation;

// The objects that some have used, and those that they have written.
#[derive(Clone, Copy)]
pub struct Touched {
    pub used: u64,
    pub written: u64,
}

// One pass over the operations, from the first up: the objects that the start has touched so far, those that whoever is reached has,
// who is reached, and who had an operation passed before being reached.
#[derive(Drop)]
pub struct Pass {
    pub mine: Touched,
    pub theirs: Touched,
    pub reached: u64,
    pub missed: u64,
}

// `with_some` and `Touched::crossed` are as `with_writer` and `tied_later` of crate rows, which keep transactions and not objects: one public function for both, which
// takes what is to hold as a flag, would be no plainer than an `if` of two lines.

// The set with o too, if so.
fn with_some(so: bool, set: u64, o: usize) -> u64
    ensures { result ≡ cond so (inserted set o) set }
{
    if so {
        return sets::with_member(set, o);
    }
    set
}

impl Touched {
    fn none() -> Touched
        ensures { result ≡ untouched }
    {
        Touched {
            used: 0,
            written: 0,
        }
    }

    // With q's object too.
    fn with(self, q: Operation) -> Touched
        ensures { result ≡ touched_by q self }
    {
        let o = q.object as usize;
        Touched {
            used: sets::with_member(self.used, o),
            written: with_some(q.mark.is_write(), self.written, o),
        }
    }

    // Whether q comes after one of those that touched these objects.
    fn crossed(self, q: Operation) -> bool
        ensures { result ≡ crosses self.used self.written q.mark q.object }
    {
        let o = q.object as usize;
        if q.mark.is_write() {
            return sets::member(self.used, o);
        }
        sets::member(self.written, o)
    }
}

impl Pass {
    // Before the first operation, with these reached.
    fn first(from: u64) -> Pass
        ensures { result ≡ first_pass from }
    {
        Pass {
            mine: Touched::none(),
            theirs: Touched::none(),
            reached: from,
            missed: 0,
        }
    }

    // With q behind it, which is the start's own.
    fn begun(self, q: Operation) -> Pass
        ensures { result ≡ begun_by q self }
    {
        Pass {
            mine: self.mine.with(q),
            ..self
        }
    }

    // With q behind it, whose transaction is reached.
    fn joined(self, q: Operation) -> Pass
        ensures { result ≡ joined_by q self }
    {
        let b = q.responsible as usize;
        Pass {
            theirs: self.theirs.with(q),
            reached: sets::with_member(self.reached, b),
            ..self
        }
    }

    // With q behind it, whose transaction is not reached.
    fn left(self, q: Operation) -> Pass
        ensures { result ≡ left_by q self }
    {
        let b = q.responsible as usize;
        Pass {
            missed: sets::with_member(self.missed, b),
            ..self
        }
    }

    // After one operation more: its transaction is reached if it comes after one of those reached, or after one of the start's.
    fn passed(self, q: Operation, start: usize) -> Pass
        ensures { result ≡ passed start q self }
    {
        if q.is_gone() {
            return self;
        }
        let b = q.responsible as usize;
        let known = sets::member(self.reached, b);
        let behind = self.theirs.crossed(q);
        if b == start {
            let own = self.begun(q);
            if behind | known {
                return own.joined(q);
            }
            return own.left(q);
        }
        if known {
            return self.joined(q);
        }
        if behind | self.mine.crossed(q) {
            return self.joined(q);
        }
        self.left(q)
    }
}

// One pass over so many operations, with these reached.
fn one_pass(ops: &[u32; Operation::MOST], total: usize, start: usize, from: u64) -> Pass
    requires { total ≤ most_operations }
    ensures { result ≡ pass_to total (read_at ops.now) start from }
{
    let mut p = Pass::first(from);
    for i in 0..total {
        let q = cells::op_in(ops[i]);
        p = p.passed(q, start);
    }
    p
}

// All that the start leads to; it stops where it leads back to itself.
fn spread(ops: &[u32; Operation::MOST], total: usize, start: usize) -> u64
    requires { total ≤ most_operations }
    ensures { Spread (ties_of total (read_at ops.now)) start 0 start result }
{
    let mut reached: u64 = 0;
    loop {
        let p = one_pass(ops, total, start, reached);
        let next = p.reached;
        let missed = p.missed;
        if sets::member(next, start) {
            return next;
        }
        let whole = sets::without(next, missed);
        if whole == next {
            return next;
        }
        reached = next;
    }
}

// Whether another stands before t by so many operations: t comes to an object after another used it, one of the two writing.
fn preceded(ops: &[u32; Operation::MOST], total: usize, t: usize) -> bool
    requires { total ≤ most_operations }
    ensures { result ≡ preceded_by (ties_of total (read_at ops.now)) t }
{
    let mut others = Touched::none();
    for i in 0..total {
        let q = cells::op_in(ops[i]);
        let b = q.responsible as usize;
        if !q.is_gone() {
            if b == t {
                if others.crossed(q) {
                    return true;
                }
            } else {
                others = others.with(q);
            }
        }
    }
    false
}

// Whether t is on a ring. Where nothing stands before it, there is nothing to search.
pub fn on_ring(ops: &[u32; Operation::MOST], n: usize, t: usize) -> bool
    ensures { result ≡ on_ring (ops_in ops.now n) t }
{
    let all = cells::size(n);
    if !preceded(ops, all, t) {
        return false;
    }
    sets::member(spread(ops, all, t), t)
}
