// How transactions and everything else stand; transactions in numbers that the caller lends, one number for each; and what the saga rules and the declared
// dependencies forbid. A number of any value stands for a transaction, so that no lent room can harm.
#![tactic(auto)]

ghost use Rattle.std.specs.Prelude.{◌≡◌, ◌≤◌, ◌<◌, List, length};
ghost use Rattle.laws.specs.Index.{any_below};
ghost use Rattle.terms.specs.Limits.{most_transactions};
ghost use Rattle.tables.specs.declared.Tables.{Tables};
ghost use Rattle.sheet.specs.Sheet.{Holds};
ghost use Rattle.rules.specs.States.{is_idle, is_active, is_committed, is_aborted, idle, empty_state, phase_of, own, entered, parent_of, is_child, is_under};
ghost use Rattle.rules.specs.Lent.{phase_in, phase_code, with_phase, parent_in, parent_code, parent_fits, under_in, transactions_in, spawned_in, put_in};
ghost use Rattle.rules.specs.Rules.{step_begins, undo_begins, begin_barred, commit_barred, abort_barred, commit_bars, begin_bars, kind_bars, declared_bars, child_active, undo_on, active_undos};

use sheet::Sheet;
use tables::{Kind, Sort};
use terms::Book;
use ties::Ops;

// How a transaction stands.
#[derive(Clone, Copy)]
pub enum Phase {
    Idle,
    Active,
    Committed,
    Aborted,
}

// Whose child a transaction is, if anyone's.
pub type Parent = Option<u16>;

// A transaction's phase, and its parent: whoever spawned it, for good.
#[derive(Clone, Copy)]
pub struct Transaction {
    pub phase: Phase,
    pub parent: Parent,
}

// How everything stands between two events.
#[derive(Clone, Copy)]
pub struct State {
    pub transactions: [Transaction; Book::TRANSACTIONS],
    pub ops: Ops,
}

impl Phase {
    pub fn is_idle(self) -> bool
        ensures { result ≡ is_idle self }
    {
        matches!(self, Phase::Idle)
    }

    pub fn is_active(self) -> bool
        ensures { result ≡ is_active self }
    {
        matches!(self, Phase::Active)
    }

    pub fn is_committed(self) -> bool
        ensures { result ≡ is_committed self }
    {
        matches!(self, Phase::Committed)
    }

    pub fn is_aborted(self) -> bool
        ensures { result ≡ is_aborted self }
    {
        matches!(self, Phase::Aborted)
    }
}

// Whether the parent is anybody: that of a transaction which was not spawned is nobody.
pub fn is_child(parent: Parent) -> bool
    ensures { result ≡ is_child parent }
{
    parent.is_some()
}

// Whether a lent number can stand for a child of this parent: every parent of a book is one of the transactions.
fn parent_fits(parent: Parent) -> bool
    ensures { result ≡ parent_fits parent }
{
    parent.is_none_or(|m| (m as usize) < Book::TRANSACTIONS)
}

// Whether the parent is m, and not one further up.
fn is_under(parent: Parent, m: usize) -> bool
    ensures { result ≡ is_under m parent }
{
    parent.is_some_and(|p| p as usize == m)
}

impl Transaction {
    // Not begun, and nobody's child.
    fn idle() -> Transaction
        ensures { result ≡ idle }
    {
        Transaction {
            phase: Phase::Idle,
            parent: None,
        }
    }
}

impl State {
    // Before the first event.
    pub fn empty() -> State
        ensures { result ≡ empty_state }
    {
        let idle = Transaction::idle();
        let transactions = [idle; Book::TRANSACTIONS];
        let ops = Ops::none();
        State { transactions, ops }
    }
}

// How all transactions stand, whatever they stand in.
pub trait Standing {
    ghost use Rattle.rules.specs.declared.Transaction.{Transaction};

    ghost transactions: { Self → List Transaction };

    // The phase of t; what is no transaction is idle.
    fn phase(&self, t: usize) -> Phase
        ensures { result ≡ phase_of (transactions self.now) t };
}

// By value.
impl Standing for [Transaction; Book::TRANSACTIONS] {
    ghost transactions = { λ all. all };

    fn phase(&self, t: usize) -> Phase {
        if Book::TRANSACTIONS <= t {
            return Phase::Idle;
        }
        self[t].phase
    }
}

// In numbers that the caller lends.
impl Standing for [u32; Book::TRANSACTIONS] {
    ghost transactions = { transactions_in };

    fn phase(&self, t: usize) -> Phase {
        if Book::TRANSACTIONS <= t {
            return Phase::Idle;
        }
        phase_in(self[t])
    }
}

// The phase of t; what is no transaction is idle.
pub fn phase_of(transactions: [Transaction; Book::TRANSACTIONS], t: usize) -> Phase
    ensures { result ≡ phase_of transactions t }
{
    transactions.phase(t)
}

// The same where the transactions stand in numbers.
pub fn phase_at(transactions: &[u32; Book::TRANSACTIONS], t: usize) -> Phase
    ensures { result ≡ phase_of (transactions_in transactions.now) t }
{
    transactions.phase(t)
}

// The phase of one of a saga's own, counted from the saga.
pub fn own<S: Standing>(stand: &S, first: u16, k: u32) -> Phase
    ensures { result ≡ own (S.transactions stand.now) first k }
{
    let t = first as usize + k as usize;
    stand.phase(t)
}

// Phases and parents are codes in the lent numbers, since C lends that memory, and any number has to stand for something.
fn phase_in(c: u32) -> Phase
    ensures { result ≡ phase_in c }
{
    match c % 4 {
        0 => Phase::Idle,
        1 => Phase::Active,
        2 => Phase::Committed,
        _ => Phase::Aborted,
    }
}

fn phase_code(phase: Phase) -> u32
    ensures { result ≡ phase_code phase }
{
    match phase {
        Phase::Idle => 0,
        Phase::Active => 1,
        Phase::Committed => 2,
        Phase::Aborted => 3,
    }
}

// The number of a transaction in another phase, with whatever else it has.
fn with_phase(c: u32, phase: Phase) -> u32
    ensures { result ≡ with_phase phase c }
{
    c / 4 * 4 + phase_code(phase)
}

fn parent_in(c: u32) -> Parent
    ensures { result ≡ parent_in c }
{
    let k = c / 4 % 128;
    if k == 0 {
        return None;
    }
    Some((k - 1) as u16)
}

fn parent_code(parent: Parent) -> u32
    ensures { result ≡ parent_code parent }
{
    match parent {
        None => 0,
        Some(m) => m as u32 + 1,
    }
}

// The number of an active child of m's, with whatever else it has.
fn under_in(c: u32, m: u32) -> u32
    requires { m < most_transactions }
    ensures { result ≡ under_in m c }
{
    let kept = c / 512 * 512;
    let under = (m + 1) * 4;
    kept + under + 1
}

// t enters a phase.
pub fn enters(transactions: &mut [u32; Book::TRANSACTIONS], t: usize, phase: Phase)
    ensures { transactions_in transactions.new ≡ entered phase t (transactions_in transactions.old) }
{
    if t < Book::TRANSACTIONS {
        transactions[t] = with_phase(transactions[t], phase);
    }
}

// Whose child t is; what is no transaction is nobody's.
pub fn parent_at(transactions: &[u32; Book::TRANSACTIONS], t: usize) -> Parent
    ensures { result ≡ parent_of (transactions_in transactions.now) t }
{
    if Book::TRANSACTIONS <= t {
        return None;
    }
    parent_in(transactions[t])
}

// m spawns t, which is active then.
pub fn spawns(transactions: &mut [u32; Book::TRANSACTIONS], m: usize, t: usize)
    ensures { transactions_in transactions.new ≡ spawned_in m t (transactions_in transactions.old) }
{
    if m < Book::TRANSACTIONS && t < Book::TRANSACTIONS {
        transactions[t] = under_in(transactions[t], m as u32);
    }
}

// t stands as x from now on.
pub fn put(transactions: &mut [u32; Book::TRANSACTIONS], t: usize, x: Transaction)
    ensures { transactions_in transactions.new ≡ put_in t x (transactions_in transactions.old) }
{
    if parent_fits(x.parent) && t < Book::TRANSACTIONS {
        transactions[t] = parent_code(x.parent) * 4 + phase_code(x.phase);
    }
}

// Whether a child of m's own is active.
pub fn child_active(transactions: &[u32; Book::TRANSACTIONS], m: usize) -> bool
    ensures { result ≡ child_active (transactions_in transactions.now) m }
{
    let mut found = false;
    for c in transactions {
        let parent = parent_in(*c);
        let phase = phase_in(*c);
        found |= is_under(parent, m) & phase.is_active();
    }
    found
}

// The transactions by value, as a reading hands them out.
pub fn transactions_of(
    transactions: &[u32; Book::TRANSACTIONS],
) -> [Transaction; Book::TRANSACTIONS]
    ensures { length (transactions_in transactions.now) ≡ most_transactions → result ≡ transactions_in transactions.now }
{
    let idle = Transaction::idle();
    let mut all = [idle; Book::TRANSACTIONS];
    for (t, c) in transactions.iter().enumerate() {
        all[t] = Transaction {
            phase: phase_in(*c),
            parent: parent_in(*c),
        };
    }
    all
}

// T1 begins while its saga is active, a later step when the one before it is committed too.
fn step_begins(transactions: &[u32; Book::TRANSACTIONS], first: u16, i: u16) -> bool
    ensures { result ≡ step_begins (own (transactions_in transactions.now) first) i }
{
    let s = own(transactions, first, 0);
    if i <= 1 {
        return s.is_active();
    }
    let k = i - 1;
    let earlier = own(transactions, first, k as u32);
    s.is_active() & earlier.is_committed()
}

// C(i) begins when S is aborted, T(i) is committed, T(i+1) is not active and, if committed, undone.
fn undo_begins(transactions: &[u32; Book::TRANSACTIONS], first: u16, n: u16, i: u16) -> bool
    ensures { result ≡ undo_begins n (own (transactions_in transactions.now) first) i }
{
    let steps = n as u32;
    let this = i as u32;
    let next = this + 1;
    let back = steps + next;
    let s = own(transactions, first, 0);
    let t = own(transactions, first, this);
    let u = own(transactions, first, next);
    let c = own(transactions, first, back);
    s.is_aborted()
        & (t.is_committed()
            & (!u.is_active() & (!u.is_committed() | ((next < steps) & c.is_committed()))))
}

pub fn begin_barred(transactions: &[u32; Book::TRANSACTIONS], sort: Sort) -> bool
    ensures { result ≡ begin_barred (transactions_in transactions.now) sort }
{
    match sort {
        Sort::Step(f, _, i) => !step_begins(transactions, f, i),
        Sort::Undo(f, n, i) => !undo_begins(transactions, f, n, i),
        Sort::Saga(_, _) | Sort::Plain | Sort::Unknown => false,
    }
}

pub fn commit_barred(transactions: &[u32; Book::TRANSACTIONS], sort: Sort) -> bool
    ensures { result ≡ commit_barred (transactions_in transactions.now) sort }
{
    match sort {
        Sort::Saga(f, n) => {
            let last = own(transactions, f, n as u32);
            !last.is_committed()
        }
        Sort::Step(f, _, _) => {
            let s = own(transactions, f, 0);
            !s.is_active()
        }
        Sort::Undo(_, _, _) | Sort::Plain | Sort::Unknown => false,
    }
}

pub fn abort_barred(transactions: &[u32; Book::TRANSACTIONS], sort: Sort) -> bool
    ensures { result ≡ abort_barred (transactions_in transactions.now) sort }
{
    match sort {
        Sort::Saga(f, n) => {
            let last = own(transactions, f, n as u32);
            last.is_committed()
        }
        Sort::Step(_, _, _) | Sort::Undo(_, _, _) | Sort::Plain | Sort::Unknown => false,
    }
}

// Whether a dependency of this kind forbids its dependent to commit while its base is in this phase.
fn commit_bars(kind: Kind, base: Phase) -> bool
    ensures { result ≡ commit_bars kind base }
{
    match kind {
        Kind::Commit => !(base.is_committed() | base.is_aborted()),
        Kind::Abort => !base.is_committed(),
        Kind::WeakAbort => base.is_aborted(),
        Kind::Begin | Kind::Serial | Kind::BeginOnCommit | Kind::BeginOnAbort => false,
    }
}

// The same for its begin.
fn begin_bars(kind: Kind, base: Phase) -> bool
    ensures { result ≡ begin_bars kind base }
{
    match kind {
        Kind::Commit | Kind::Abort | Kind::WeakAbort => false,
        Kind::Begin => base.is_idle(),
        Kind::Serial => !(base.is_committed() | base.is_aborted()),
        Kind::BeginOnCommit => !base.is_committed(),
        Kind::BeginOnAbort => !base.is_aborted(),
    }
}

fn kind_bars(begins: bool, kind: Kind, base: Phase) -> bool
    ensures { result ≡ kind_bars begins kind base }
{
    if begins {
        return begin_bars(kind, base);
    }
    commit_bars(kind, base)
}

// Whether a declared dependency forbids the begin, or the commit, of t. Which of the two is a flag, as in the definition `declared_bars` and the theorem `DeclaredBars`.
pub fn declared_bars(
    begins: bool,
    sheet: &[u32; Sheet::NUMBERS],
    transactions: &[u32; Book::TRANSACTIONS],
    t: usize,
) -> bool
    ensures { (tables : Tables) → Holds tables sheet.now → result ≡ declared_bars begins tables (transactions_in transactions.now) t }
{
    let n = sheet::count_in(sheet[Sheet::DECLARED], Book::DEPENDENCIES);
    for i in 0..n {
        let d = sheet::dependency_in(sheet[Book::TRANSACTIONS + i]);
        let dependent = d.dependent as usize;
        if dependent == t {
            let base = d.base as usize;
            let phase = phase_at(transactions, base);
            if kind_bars(begins, d.kind, phase) {
                return true;
            }
        }
    }
    false
}

// Whether an undo is active among the first `owned` numbers, which are those that sagas own. Mostly none is, and then the second scan,
// which gathers them, is saved.
fn some_undo_active(
    sheet: &[u32; Sheet::NUMBERS],
    transactions: &[u32; Book::TRANSACTIONS],
    owned: usize,
) -> bool
    requires { owned ≤ most_transactions }
    ensures { result ≡ any_below owned (undo_on sheet.now (transactions_in transactions.now)) }
{
    let mut found = false;
    for t in 0..owned {
        let sort = sheet::sort_at(sheet, t);
        let phase = phase_in(transactions[t]);
        found |= sort.is_undo() & phase.is_active();
    }
    found
}

// The set of undos that are active; they are among the numbers that sagas own.
pub fn active_undos(sheet: &[u32; Sheet::NUMBERS], transactions: &[u32; Book::TRANSACTIONS]) -> u64
    ensures { (tables : Tables) → Holds tables sheet.now → result ≡ active_undos tables (transactions_in transactions.now) }
{
    let owned = sheet::count_in(sheet[Sheet::OWNED], Book::TRANSACTIONS);
    if !some_undo_active(sheet, transactions, owned) {
        return 0;
    }
    let mut set: u64 = 0;
    for t in 0..owned {
        let phase = phase_in(transactions[t]);
        if phase.is_active() {
            let sort = sheet::sort_at(sheet, t);
            if sort.is_undo() {
                set = sets::with_member(set, t);
            }
        }
    }
    set
}
