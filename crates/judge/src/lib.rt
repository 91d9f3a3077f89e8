// Judging one event of a book: accepted, or refused by the first line that holds. How everything stands is kept in numbers that the caller lends, and an
// accepted event changes them where they stand.
#![tactic(auto)]

ghost use Rattle.std.specs.Prelude.{◌≡◌, false, not, ◌&&◌, ℕ, ◌<◌, min, ltb, eqb, None, Some};
ghost use Rattle.terms.specs.Limits.{most_objects};
ghost use Rattle.terms.specs.declared.Event.TheVariants.{Begin, Commit, Abort, Operation as Invoke, Delegate, CommitOne, AbortOne, Spawn};
ghost use Rattle.ties.specs.Operations.{most_operations, op_at, is_active as isActiveOperation};
ghost use Rattle.ties.specs.Ties.{on_ring, before_made, before_given, before_handed, ring_with, must_wait};
ghost use Rattle.cells.specs.Cells.{ops_in};
ghost use Rattle.tables.specs.declared.Tables.{Tables};
ghost use Rattle.tables.specs.Sorts.{is_known, is_saga, is_undo, is_plain};
ghost use Rattle.sheet.specs.Sheet.{Holds, sort_at, objects_on};
ghost use Rattle.rules.specs.Lent.{transactions_in};
ghost use Rattle.rules.specs.Rules.{inactive, begin_barred, commit_barred, abort_barred, active_undo};
ghost use Rattle.rules.specs.States.{is_idle, phase_of};
ghost use Rattle.judge.specs.Known.{Ringed, with_committer};
ghost use Rattle.judge.specs.Lent.{state_in, Whole, Fitting};
ghost use Rattle.judge.specs.Judge.{begin_lines, commit_lines, hand_lines, abort_lines, operation_lines, delegate_lines, single_lines, commit_one_lines, spawn_lines, verdict_by, no_party, clerk_of, awaits_child, commit_under, change_of, ruled_by, refused_by, accepted_by, ruling_of, state_after, judged};

use rules::{Phase, State};
use sheet::Sheet;
use terms::{Book, Event, Mark, Refusal, Verdict};
use ties::{Fate, Operation};

// What an accepted event changes: a transaction enters a phase; or ends, and its operations with it; an operation ends alone; is made;
// or given; a helper commits, and what it is at work on is handed to its clerk; or a clerk spawns a helper.
#[derive(Drop)]
pub enum Change {
    Nothing,
    Enters(usize, Phase),
    Ends(usize, Phase, Fate),
    EndsOne(usize, Fate),
    Makes(Operation),
    Gives(usize, u16),
    Hands(usize, u16),
    Spawns(usize, usize),
}

// The verdict on an event, and what it changes. A refused event changes nothing, and that is one of the changes: the definitions `judged` and `ruled_by` speak of a
// verdict and of a change for every event, and `take_knowing` makes the change without asking for the verdict; a Result would have both ask first.
#[derive(Drop)]
pub struct Ruling {
    pub verdict: Verdict,
    pub change: Change,
}

// The verdict on an event, and how many operations there are after it.
#[derive(Drop)]
pub struct Taken {
    pub verdict: Verdict,
    pub count: usize,
}

// What an event is judged by, all lent by the caller: what the tables say, how each transaction stands, and the operations, of which so many are accepted.
#[derive(Clone, Copy)]
struct Seen<'a> {
    sheet: &'a [u32; Sheet::NUMBERS],
    transactions: &'a [u32; Book::TRANSACTIONS],
    ops: &'a [u32; Operation::MOST],
    count: usize,
}

// A refused event changes nothing.
fn refused(refusal: Refusal) -> Ruling
    ensures { result ≡ refused_by refusal }
{
    Ruling {
        verdict: Verdict::Refused(refusal),
        change: Change::Nothing,
    }
}

fn accepted(change: Change) -> Ruling
    ensures { result ≡ accepted_by change }
{
    Ruling {
        verdict: Verdict::Accepted,
        change,
    }
}

impl Seen<'_> {
    // ---- the tests of the lines, each named for what it refuses

    fn unknown(self, t: usize) -> bool
        ensures { result ≡ not (is_known (sort_at self.entry.sheet.now t)) }
    {
        !sheet::sort_at(self.sheet, t).is_known()
    }

    fn is_saga(self, t: usize) -> bool
        ensures { result ≡ is_saga (sort_at self.entry.sheet.now t) }
    {
        sheet::sort_at(self.sheet, t).is_saga()
    }

    fn is_undo(self, t: usize) -> bool
        ensures { result ≡ is_undo (sort_at self.entry.sheet.now t) }
    {
        sheet::sort_at(self.sheet, t).is_undo()
    }

    fn not_plain(self, t: usize) -> bool
        ensures { result ≡ not (is_plain (sort_at self.entry.sheet.now t)) }
    {
        !sheet::sort_at(self.sheet, t).is_plain()
    }

    fn not_idle(self, t: usize) -> bool
        ensures { result ≡ not (is_idle (phase_of (transactions_in self.entry.transactions.now) t)) }
    {
        !rules::phase_at(self.transactions, t).is_idle()
    }

    fn inactive(self, t: usize) -> bool
        ensures { result ≡ inactive (transactions_in self.entry.transactions.now) t }
    {
        !rules::phase_at(self.transactions, t).is_active()
    }

    // The saga rules forbid that t begins, commits or aborts.
    fn begin_forbidden(self, t: usize) -> bool
        ensures { result ≡ begin_barred (transactions_in self.entry.transactions.now) (sort_at self.entry.sheet.now t) }
    {
        rules::begin_barred(self.transactions, sheet::sort_at(self.sheet, t))
    }

    fn commit_forbidden(self, t: usize) -> bool
        ensures { result ≡ commit_barred (transactions_in self.entry.transactions.now) (sort_at self.entry.sheet.now t) }
    {
        rules::commit_barred(self.transactions, sheet::sort_at(self.sheet, t))
    }

    fn abort_forbidden(self, t: usize) -> bool
        ensures { result ≡ abort_barred (transactions_in self.entry.transactions.now) (sort_at self.entry.sheet.now t) }
    {
        rules::abort_barred(self.transactions, sheet::sort_at(self.sheet, t))
    }

    fn unknown_object(self, o: usize) -> bool
        ensures { result ≡ not (ltb o (min (objects_on self.entry.sheet.now) most_objects)) }
    {
        let objects = sheet::count_in(self.sheet[Sheet::OBJECTS], Book::OBJECTS);
        objects <= o
    }

    // No operation is numbered so, of as many as there are.
    fn not_accepted(self, q: usize) -> bool
        ensures { result ≡ not (ltb q (min self.entry.count most_operations)) }
    {
        cells::size(self.count) <= q
    }

    // A saga and an undo take no part in a delegation.
    fn no_party(self, t: usize) -> bool
        ensures { result ≡ no_party (sort_at self.entry.sheet.now t) }
    {
        let sort = sheet::sort_at(self.sheet, t);
        sort.is_saga() | sort.is_undo()
    }

    fn not_responsible(self, q: usize, t: usize) -> bool
        requires { q < most_operations }
        ensures { result ≡ not (eqb (op_at (ops_in self.entry.ops.now self.entry.count) q).responsible t) }
    {
        let op = cells::op_in(self.ops[q]);
        let holder = op.responsible as usize;
        holder != t
    }

    fn already_ended(self, q: usize) -> bool
        requires { q < most_operations }
        ensures { result ≡ not (isActiveOperation (op_at (ops_in self.entry.ops.now self.entry.count) q).fate) }
    {
        let op = cells::op_in(self.ops[q]);
        !op.fate.is_active()
    }

    // Whose helper t is; only plain transactions are helpers and have them.
    fn clerk_of(self, t: usize) -> Option<u16>
        ensures { (tables : Tables) → Holds tables self.entry.sheet.now → result ≡ clerk_of tables (transactions_in self.entry.transactions.now) t }
    {
        if self.not_plain(t) {
            return None;
        }
        let m = rules::parent_at(self.transactions, t)?;
        if self.not_plain(m as usize) {
            return None;
        }
        Some(m)
    }

    // A helper of t's own is still at work.
    fn awaits_child(self, t: usize) -> bool
        ensures { (tables : Tables) → Holds tables self.entry.sheet.now → result ≡ awaits_child tables (transactions_in self.entry.transactions.now) t }
    {
        if self.not_plain(t) {
            return false;
        }
        rules::child_active(self.transactions, t)
    }

    // The operation is an undo's, which has to wait for another's that is active.
    fn must_wait(self, t: usize, object: usize, mark: Mark) -> bool
        ensures { result ≡ (is_undo (sort_at self.entry.sheet.now t) && must_wait (ops_in self.entry.ops.now self.entry.count) t object mark) }
    {
        if self.is_undo(t) {
            return cells::must_wait(self.ops, self.count, t, object, mark);
        }
        false
    }

    // This operation, if it is invoked, puts an active undo on a ring; without an active undo nothing is searched.
    fn rings_an_undo(self, op: Operation) -> bool
        ensures { (tables : Tables) → Holds tables self.entry.sheet.now → result ≡ ring_with (before_made (ops_in self.entry.ops.now self.entry.count) op) (active_undo tables (transactions_in self.entry.transactions.now)) op.responsible }
    {
        let undos = rules::active_undos(self.sheet, self.transactions);
        if undos == 0 {
            return false;
        }
        rows::ring_made(self.ops, self.count, op, undos)
    }

    // Operation q, if it is given to a receiver, puts an active undo on a ring; one that has ended does not.
    fn gives_a_ring(self, q: usize, receiver: u16) -> bool
        requires { q < most_operations }
        ensures { (tables : Tables) → Holds tables self.entry.sheet.now → result ≡ (isActiveOperation (op_at (ops_in self.entry.ops.now self.entry.count) q).fate && ring_with (before_given (ops_in self.entry.ops.now self.entry.count) q receiver) (active_undo tables (transactions_in self.entry.transactions.now)) receiver) }
    {
        if self.already_ended(q) {
            return false;
        }
        let undos = rules::active_undos(self.sheet, self.transactions);
        if undos == 0 {
            return false;
        }
        rows::ring_given(self.ops, self.count, q, receiver, undos)
    }

    // All that t is at work on, if it is handed to m, puts an active undo on a ring.
    fn hands_a_ring(self, t: usize, m: u16) -> bool
        ensures { (tables : Tables) → Holds tables self.entry.sheet.now → result ≡ ring_with (before_handed (ops_in self.entry.ops.now self.entry.count) t m) (active_undo tables (transactions_in self.entry.transactions.now)) m }
    {
        let undos = rules::active_undos(self.sheet, self.transactions);
        if undos == 0 {
            return false;
        }
        rows::ring_handed(self.ops, self.count, t, m, undos)
    }

    // Whether t is on a ring, where some are known to be.
    fn is_ringed(self, t: usize, ringed: u64) -> bool
        ensures { Ringed (ops_in self.entry.ops.now self.entry.count) ringed → result ≡ on_ring (ops_in self.entry.ops.now self.entry.count) t }
    {
        if sets::member(ringed, t) {
            return true;
        }
        rings::on_ring(self.ops, self.count, t)
    }

    // ---- the events: each goes along its lines

    fn begin(self, t: usize) -> Ruling
        ensures { (tables : Tables) → Holds tables self.entry.sheet.now → result ≡ ruled_by (begin_lines tables (transactions_in self.entry.transactions.now) t) (change_of tables (transactions_in self.entry.transactions.now) (Begin t)) }
    {
        if self.unknown(t) {
            return refused(Refusal::NotInTables);
        }
        if self.not_idle(t) {
            return refused(Refusal::NotIdle);
        }
        if self.begin_forbidden(t) {
            return refused(Refusal::SagaRule);
        }
        if rules::declared_bars(true, self.sheet, self.transactions, t) {
            return refused(Refusal::DependencyRule);
        }
        accepted(Change::Enters(t, Phase::Active))
    }

    // The commit of one who is nobody's helper.
    fn commit_own(self, t: usize, ringed: u64) -> Ruling
        ensures { (tables : Tables) → Holds tables self.entry.sheet.now → Ringed (ops_in self.entry.ops.now self.entry.count) ringed → result ≡ ruled_by (commit_lines tables (transactions_in self.entry.transactions.now) (ops_in self.entry.ops.now self.entry.count) t) (commit_under t None) }
    {
        if self.unknown(t) {
            return refused(Refusal::NotInTables);
        }
        if self.inactive(t) {
            return refused(Refusal::NotActive);
        }
        if self.commit_forbidden(t) {
            return refused(Refusal::SagaRule);
        }
        if rules::declared_bars(false, self.sheet, self.transactions, t) | self.awaits_child(t) {
            return refused(Refusal::DependencyRule);
        }
        if cells::dirty(self.ops, self.count, t) {
            return refused(Refusal::DirtyRead);
        }
        if self.is_ringed(t, ringed) {
            return refused(Refusal::OnRing);
        }
        accepted(Change::Ends(t, Phase::Committed, Fate::Committed))
    }

    // The commit of m's helper: m answers for what it is at work on.
    fn hand_over(self, t: usize, m: u16) -> Ruling
        ensures { (tables : Tables) → Holds tables self.entry.sheet.now → result ≡ ruled_by (hand_lines tables (transactions_in self.entry.transactions.now) (ops_in self.entry.ops.now self.entry.count) t m) (commit_under t (Some m)) }
    {
        if self.unknown(t) {
            return refused(Refusal::NotInTables);
        }
        if self.inactive(t) {
            return refused(Refusal::NotActive);
        }
        if rules::declared_bars(false, self.sheet, self.transactions, t)
            | (self.awaits_child(t) | self.inactive(m as usize))
        {
            return refused(Refusal::DependencyRule);
        }
        if self.hands_a_ring(t, m) {
            return refused(Refusal::UndoOnRing);
        }
        accepted(Change::Hands(t, m))
    }

    fn commit(self, t: usize, ringed: u64) -> Ruling
        ensures { (tables : Tables) → Holds tables self.entry.sheet.now → Ringed (ops_in self.entry.ops.now self.entry.count) ringed → result ≡ ruling_of tables (state_in self.entry.transactions.now self.entry.ops.now self.entry.count) (Commit t) }
    {
        match self.clerk_of(t) {
            None => self.commit_own(t, ringed),
            Some(m) => self.hand_over(t, m),
        }
    }

    fn abort(self, t: usize) -> Ruling
        ensures { (tables : Tables) → Holds tables self.entry.sheet.now → result ≡ ruled_by (abort_lines tables (transactions_in self.entry.transactions.now) t) (change_of tables (transactions_in self.entry.transactions.now) (Abort t)) }
    {
        if self.unknown(t) {
            return refused(Refusal::NotInTables);
        }
        if self.is_undo(t) {
            return refused(Refusal::NeverDoes);
        }
        if self.inactive(t) {
            return refused(Refusal::NotActive);
        }
        if self.abort_forbidden(t) {
            return refused(Refusal::SagaRule);
        }
        accepted(Change::Ends(t, Phase::Aborted, Fate::Aborted))
    }

    fn operation(self, t: usize, object: usize, mark: Mark) -> Ruling
        ensures { (tables : Tables) → Holds tables self.entry.sheet.now → result ≡ ruled_by (operation_lines tables (transactions_in self.entry.transactions.now) (ops_in self.entry.ops.now self.entry.count) t object mark) (change_of tables (transactions_in self.entry.transactions.now) (Invoke t object mark)) }
    {
        if self.unknown(t) | self.unknown_object(object) {
            return refused(Refusal::NotInTables);
        }
        if self.is_saga(t) {
            return refused(Refusal::NeverDoes);
        }
        if self.inactive(t) {
            return refused(Refusal::NotActive);
        }
        if self.must_wait(t, object, mark) {
            return refused(Refusal::MustWait);
        }
        let op = Operation {
            object: object as u8,
            mark,
            responsible: t as u16,
            fate: Fate::Active,
            ended: 0,
        };
        if self.rings_an_undo(op) {
            return refused(Refusal::UndoOnRing);
        }
        if Operation::MOST <= self.count {
            return refused(Refusal::Full);
        }
        accepted(Change::Makes(op))
    }

    fn delegate(self, t: usize, receiver: usize, q: usize) -> Ruling
        ensures { (tables : Tables) → Holds tables self.entry.sheet.now → result ≡ ruled_by (delegate_lines tables (transactions_in self.entry.transactions.now) (ops_in self.entry.ops.now self.entry.count) t receiver q) (change_of tables (transactions_in self.entry.transactions.now) (Delegate t receiver q)) }
    {
        if self.unknown(t) | (self.unknown(receiver) | self.not_accepted(q)) {
            return refused(Refusal::NotInTables);
        }
        if self.no_party(t) | (self.no_party(receiver) | (t == receiver)) {
            return refused(Refusal::NeverDoes);
        }
        if self.inactive(t) | self.inactive(receiver) {
            return refused(Refusal::NotActive);
        }
        if self.not_responsible(q, t) {
            return refused(Refusal::NotResponsible);
        }
        let to = receiver as u16;
        if self.gives_a_ring(q, to) {
            return refused(Refusal::UndoOnRing);
        }
        accepted(Change::Gives(q, to))
    }

    // What the commit and the abort of one operation both have to pass: a plain and active transaction that may do it, and an active operation of its own.
    // Whether it never may is a flag, as in the definition `single_lines`.
    fn single(self, t: usize, q: usize, never: bool) -> Verdict
        ensures { (tables : Tables) → Holds tables self.entry.sheet.now → result ≡ verdict_by (single_lines tables (transactions_in self.entry.transactions.now) (ops_in self.entry.ops.now self.entry.count) t q never) }
    {
        if self.unknown(t) | self.not_accepted(q) {
            return Verdict::Refused(Refusal::NotInTables);
        }
        if self.not_plain(t) | never {
            return Verdict::Refused(Refusal::NeverDoes);
        }
        if self.inactive(t) {
            return Verdict::Refused(Refusal::NotActive);
        }
        if self.not_responsible(q, t) {
            return Verdict::Refused(Refusal::NotResponsible);
        }
        if self.already_ended(q) {
            return Verdict::Refused(Refusal::AlreadyEnded);
        }
        Verdict::Accepted
    }

    fn commit_one(self, t: usize, q: usize, ringed: u64) -> Ruling
        ensures { (tables : Tables) → Holds tables self.entry.sheet.now → Ringed (ops_in self.entry.ops.now self.entry.count) ringed → result ≡ ruled_by (commit_one_lines tables (transactions_in self.entry.transactions.now) (ops_in self.entry.ops.now self.entry.count) t q) (change_of tables (transactions_in self.entry.transactions.now) (CommitOne t q)) }
    {
        let child = rules::is_child(self.clerk_of(t));
        if let Verdict::Refused(refusal) = self.single(t, q, child) {
            return refused(refusal);
        }
        if cells::dirty_one(self.ops, self.count, t, q) {
            return refused(Refusal::DirtyRead);
        }
        if self.is_ringed(t, ringed) {
            return refused(Refusal::OnRing);
        }
        accepted(Change::EndsOne(q, Fate::Committed))
    }

    fn abort_one(self, t: usize, q: usize) -> Ruling
        ensures { (tables : Tables) → Holds tables self.entry.sheet.now → result ≡ ruled_by (single_lines tables (transactions_in self.entry.transactions.now) (ops_in self.entry.ops.now self.entry.count) t q false) (change_of tables (transactions_in self.entry.transactions.now) (AbortOne t q)) }
    {
        if let Verdict::Refused(refusal) = self.single(t, q, false) {
            return refused(refusal);
        }
        accepted(Change::EndsOne(q, Fate::Aborted))
    }

    // A clerk m spawns a helper c.
    fn spawn(self, m: usize, c: usize) -> Ruling
        ensures { (tables : Tables) → Holds tables self.entry.sheet.now → result ≡ ruled_by (spawn_lines tables (transactions_in self.entry.transactions.now) m c) (change_of tables (transactions_in self.entry.transactions.now) (Spawn m c)) }
    {
        if self.unknown(m) | self.unknown(c) {
            return refused(Refusal::NotInTables);
        }
        if self.not_plain(m) | self.not_plain(c) {
            return refused(Refusal::NeverDoes);
        }
        if self.not_idle(c) {
            return refused(Refusal::NotIdle);
        }
        if self.inactive(m) {
            return refused(Refusal::NotActive);
        }
        if rules::declared_bars(true, self.sheet, self.transactions, c) {
            return refused(Refusal::DependencyRule);
        }
        accepted(Change::Spawns(m, c))
    }

    // The verdict on an event and what it would change, where some transactions are known to be on a ring. It holds of the tables that the sheet was made of.
    fn rule_knowing(self, event: Event, ringed: u64) -> Ruling
        ensures { (tables : Tables) → Holds tables self.entry.sheet.now → Ringed (ops_in self.entry.ops.now self.entry.count) ringed → result ≡ ruling_of tables (state_in self.entry.transactions.now self.entry.ops.now self.entry.count) event }
    {
        match event {
            Event::Begin(t) => self.begin(t),
            Event::Commit(t) => self.commit(t, ringed),
            Event::Abort(t) => self.abort(t),
            Event::Operation(t, object, mark) => { self.operation(t, object, mark) }
            Event::Delegate(t, receiver, q) => self.delegate(t, receiver, q),
            Event::CommitOne(t, q) => self.commit_one(t, q, ringed),
            Event::AbortOne(t, q) => self.abort_one(t, q),
            Event::Spawn(m, c) => self.spawn(m, c),
        }
    }
}

// ---- what other crates call

// The lent numbers stand one by one in the parameters of `rule`, `take` and `take_knowing`, and not in one struct: `probe_board` and the C functions of sagalib hand them
// on as C lends them, the tables to be read and the transactions and operations to be changed.

// The verdict on an event and what it would change; nothing is touched, so that a caller can ask first. It holds of the tables that the sheet was made of.
pub fn rule(
    sheet: &[u32; Sheet::NUMBERS],
    transactions: &[u32; Book::TRANSACTIONS],
    ops: &[u32; Operation::MOST],
    n: usize,
    event: Event,
) -> Ruling
    ensures { (tables : Tables) → Holds tables sheet.now → result ≡ ruling_of tables (state_in transactions.now ops.now n) event }
{
    let seen = Seen {
        sheet,
        transactions,
        ops,
        count: n,
    };
    seen.rule_knowing(event, 0)
}

// Makes a change in the lent numbers; how many operations there are then.
fn changed(
    transactions: &mut [u32; Book::TRANSACTIONS],
    ops: &mut [u32; Operation::MOST],
    n: usize,
    change: Change,
) -> usize
    ensures { Fitting change → state_in transactions.new ops.new result ≡ state_after change (state_in transactions.old ops.old n) }
{
    match change {
        Change::Nothing => n,
        Change::Enters(t, phase) => {
            rules::enters(transactions, t, phase);
            n
        }
        Change::Ends(t, phase, fate) => {
            rules::enters(transactions, t, phase);
            cells::ended(ops, n, t, fate);
            n
        }
        Change::EndsOne(q, fate) => {
            cells::ended_one(ops, n, q, fate);
            n
        }
        Change::Makes(op) => cells::made(ops, n, op),
        Change::Gives(q, receiver) => {
            cells::given(ops, n, q, receiver);
            n
        }
        Change::Hands(t, m) => {
            rules::enters(transactions, t, Phase::Committed);
            cells::handed(ops, n, t, m);
            n
        }
        Change::Spawns(m, c) => {
            rules::spawns(transactions, m, c);
            n
        }
    }
}

// Judges one event, and makes what it changes; a refused event leaves all lent numbers as they were. Who is known to be on a ring, because a commit was refused by it and
// nothing has changed since, is not searched for again: a book can have tens of thousands of such commits.
pub fn take_knowing(
    sheet: &[u32; Sheet::NUMBERS],
    transactions: &mut [u32; Book::TRANSACTIONS],
    ops: &mut [u32; Operation::MOST],
    n: usize,
    event: Event,
    ringed: u64,
) -> Taken
    ensures { (tables : Tables) → Holds tables sheet.now → Ringed (ops_in ops.old n) ringed → (result.verdict ≡ (judged tables (state_in transactions.old ops.old n) event).verdict) × (state_in transactions.new ops.new result.count ≡ (judged tables (state_in transactions.old ops.old n) event).state) }
{
    let seen = Seen {
        sheet,
        transactions,
        ops,
        count: n,
    };
    let ruled = seen.rule_knowing(event, ringed);
    Taken {
        verdict: ruled.verdict,
        count: changed(transactions, ops, n, ruled.change),
    }
}

// The same where nothing is known.
pub fn take(
    sheet: &[u32; Sheet::NUMBERS],
    transactions: &mut [u32; Book::TRANSACTIONS],
    ops: &mut [u32; Operation::MOST],
    n: usize,
    event: Event,
) -> Taken
    ensures { (tables : Tables) → Holds tables sheet.now → (result.verdict ≡ (judged tables (state_in transactions.old ops.old n) event).verdict) × (state_in transactions.new ops.new result.count ≡ (judged tables (state_in transactions.old ops.old n) event).state) }
{
    take_knowing(sheet, transactions, ops, n, event, 0)
}

// With the transaction too that an event would commit, or an operation of: who is known to be on a ring after one that was refused for that.
pub fn with_committer(event: Event, set: u64) -> u64
    ensures { result ≡ with_committer event set }
{
    match event {
        Event::Commit(t) | Event::CommitOne(t, _) => sets::with_member(set, t),
        Event::Begin(_)
        | Event::Abort(_)
        | Event::Operation(_, _, _)
        | Event::Delegate(_, _, _)
        | Event::AbortOne(_, _)
        | Event::Spawn(_, _) => set,
    }
}

// The state that lent numbers stand for, by value, as a reading hands it out.
pub fn state_of(
    transactions: &[u32; Book::TRANSACTIONS],
    ops: &[u32; Operation::MOST],
    n: usize,
) -> State
    ensures { Whole (state_in transactions.now ops.now n) → result ≡ state_in transactions.now ops.now n }
{
    State {
        transactions: rules::transactions_of(transactions),
        ops: cells::ops_of(ops, n),
    }
}
