// What a saga still owes, and the next thing to do about it.
#![tactic(auto)]

ghost use Rattle.std.specs.Prelude.{◌≡◌, not, ◌&&◌, ◌-◌, eqb};
ghost use Rattle.laws.specs.Index.{highest, sum_to};
ghost use Rattle.rules.specs.States.{is_committed, own};
ghost use Rattle.rules.specs.Rules.{undone};
ghost use Rattle.closing.specs.Closing.{active_step, owed_by, owed, to_undo, next_undo, undo_step, back_step, is_listed, outstanding, outstanding_by, closing, settled};

use rules::{Phase, Standing, State};
use tables::Tables;

// The closing step of a saga, with its transaction. That there is none is one of the four: the theorem `Demand3` says by `none_at_zero` that a saga which owes nothing has
// `NoStep`, and the board, the listing and the mending each have a word of their own for it beside the three.
#[derive(Clone, Copy)]
pub enum NextStep {
    NoStep,
    ToBegin(usize),
    ToCommit(usize),
    ToAbort(usize),
}

// Whether there is a saga of this index.
fn is_listed(tables: Tables, saga: usize) -> bool
    ensures { result ≡ is_listed tables saga }
{
    saga < tables.saga_count()
}

// ---- what one saga owes, which starts at `first` and has n steps; its transactions stand by value or in lent numbers

// Steps count from 1, and 0 stands for none, as in the definitions `active_step` and `next_undo`, which `to_undo`, `back_step` and `settled_by` test for 0: with an Option
// here each of those clauses would have to turn it into that number first.

// The active step, 0 if there is none.
fn active_step<S: Standing>(stand: &S, first: u16, n: u16) -> u16
    ensures { result ≡ active_step n (own (S.transactions stand.now) first) }
{
    for i in (1..=n).rev() {
        let step = rules::own(stand, first, i as u32);
        if step.is_active() {
            return i;
        }
    }
    0
}

// What a committed step owes, by its undo.
pub fn owed_by(undo: Phase) -> usize
    ensures { result ≡ owed_by undo }
{
    match undo {
        Phase::Idle => 2,
        Phase::Active => 1,
        Phase::Committed => 0,
        Phase::Aborted => 2,
    }
}

// What step i owes.
fn owed<S: Standing>(stand: &S, first: u16, n: u16, i: u16) -> usize
    ensures { result ≡ owed n (own (S.transactions stand.now) first) i }
{
    let step = rules::own(stand, first, i as u32);
    if step.is_committed() {
        let back = n as u32 + i as u32;
        let undo = rules::own(stand, first, back);
        return owed_by(undo);
    }
    0
}

// What the steps that have an undo owe together.
fn owed_by_steps<S: Standing>(stand: &S, first: u16, n: u16) -> usize
    ensures { result ≡ sum_to (n - 1) (owed n (own (S.transactions stand.now) first)) }
{
    let mut sum: usize = 0;
    for i in 1..n {
        sum += owed(stand, first, n, i);
    }
    sum
}

// 1 if a step is active, plus what the committed steps owe.
fn to_undo<S: Standing>(stand: &S, first: u16, n: u16) -> usize
    ensures { result ≡ to_undo n (own (S.transactions stand.now) first) }
{
    let active = active_step(stand, first, n);
    let sum = owed_by_steps(stand, first, n);
    if active == 0 {
        return sum;
    }
    1 + sum
}

// How many closing steps the saga owes.
pub fn owed_in<S: Standing>(stand: &S, first: u16, n: u16) -> usize
    ensures { result ≡ outstanding_by (own (S.transactions stand.now) first 0) n (own (S.transactions stand.now) first) }
{
    let phase = rules::own(stand, first, 0);
    match phase {
        Phase::Idle => 0,
        Phase::Active => {
            let last = rules::own(stand, first, n as u32);
            if last.is_committed() {
                return 1;
            }
            let rest = to_undo(stand, first, n);
            1 + rest
        }
        Phase::Committed => 0,
        Phase::Aborted => to_undo(stand, first, n),
    }
}

// ---- the next undo, and whether any is left

// The highest committed step whose undo is not committed, 0 if there is none.
fn next_undo<S: Standing>(stand: &S, first: u16, n: u16) -> u16
    ensures { result ≡ next_undo n (own (S.transactions stand.now) first) }
{
    for i in (1..n).rev() {
        let step = rules::own(stand, first, i as u32);
        let back = n as u32 + i as u32;
        let undo = rules::own(stand, first, back);
        if step.is_committed() & !undo.is_committed() {
            return i;
        }
    }
    0
}

// Whether every committed step is undone.
fn all_undone<S: Standing>(stand: &S, first: u16, n: u16) -> bool
    ensures { result ≡ eqb (highest n (λ i. is_committed (own (S.transactions stand.now) first i) && not (undone n (own (S.transactions stand.now) first) i))) 0 }
{
    for i in (1..=n).rev() {
        let step = rules::own(stand, first, i as u32);
        let back = n as u32 + i as u32;
        let undo = rules::own(stand, first, back);
        if step.is_committed() & !((i < n) & undo.is_committed()) {
            return false;
        }
    }
    true
}

// ---- the saga of an index

// How many closing steps the saga of an index still owes; an index that is no saga's owes nothing.
pub fn outstanding(tables: Tables, state: State, saga: usize) -> usize
    ensures { result ≡ outstanding tables state saga }
{
    if !is_listed(tables, saga) {
        return 0;
    }
    let s = tables::saga_at(tables, saga);
    owed_in(&state.transactions, s.first, s.steps)
}

// Begin or commit an undo, by its phase.
fn undo_step(undo: Phase, t: usize) -> NextStep
    ensures { result ≡ undo_step undo t }
{
    match undo {
        Phase::Idle => NextStep::ToBegin(t),
        Phase::Active => NextStep::ToCommit(t),
        Phase::Committed => NextStep::ToCommit(t),
        Phase::Aborted => NextStep::ToBegin(t),
    }
}

// The closing step of an aborted saga: abort the active step, else go on with the next undo.
fn back_step<S: Standing>(stand: &S, first: u16, n: u16) -> NextStep
    ensures { result ≡ back_step first n (own (S.transactions stand.now) first) (active_step n (own (S.transactions stand.now) first)) (next_undo n (own (S.transactions stand.now) first)) }
{
    let active = active_step(stand, first, n);
    if active != 0 {
        let t = first as usize + active as usize;
        return NextStep::ToAbort(t);
    }
    let next = next_undo(stand, first, n);
    if next == 0 {
        return NextStep::NoStep;
    }
    let back = n as u32 + next as u32;
    let undo = rules::own(stand, first, back);
    let t = first as usize + back as usize;
    undo_step(undo, t)
}

// The next thing to do for the saga of an index; none if it owes nothing.
pub fn closing(tables: Tables, state: State, saga: usize) -> NextStep
    ensures { result ≡ closing tables state saga }
{
    if !is_listed(tables, saga) {
        return NextStep::NoStep;
    }
    let s = tables::saga_at(tables, saga);
    let first = s.first;
    let n = s.steps;
    let phase = rules::own(&state.transactions, first, 0);
    match phase {
        Phase::Idle => NextStep::NoStep,
        Phase::Active => {
            let last = rules::own(&state.transactions, first, n as u32);
            let t = first as usize;
            if last.is_committed() {
                return NextStep::ToCommit(t);
            }
            NextStep::ToAbort(t)
        }
        Phase::Committed => NextStep::NoStep,
        Phase::Aborted => back_step(&state.transactions, first, n),
    }
}

// Whether the saga of an index is settled: committed, or aborted with no step active and every committed step undone.
pub fn settled(tables: Tables, state: State, saga: usize) -> bool
    ensures { result ≡ settled tables state saga }
{
    if !is_listed(tables, saga) {
        return false;
    }
    let s = tables::saga_at(tables, saga);
    let first = s.first;
    let n = s.steps;
    let phase = rules::own(&state.transactions, first, 0);
    let active = active_step(&state.transactions, first, n);
    let undone = all_undone(&state.transactions, first, n);
    phase.is_committed() | (phase.is_aborted() & ((active == 0) & undone))
}
