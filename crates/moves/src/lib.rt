// The record move for staff: how much is left in all, what is to be said of each class list, and the one thing to do next for each move.
//
// It relies on the contracts of the crates below, and on the proofs of promises that docs/PROMISES.md names; on no other law of theirs.
// .ci/relies holds it to that.
#![tactic(auto)]

ghost use Rattle.std.specs.Prelude.{◌≡◌, [], get_or};
ghost use Rattle.listing.specs.Texts.{text_of, with_all};
ghost use Rattle.moves.specs.Moves.{saga_committed, word_for, part_by, part_of, todo_by, todo_for};
ghost use Rattle.moves.specs.Lines.{word_letters, step_letters, part_letters, todo_letters, list_line, move_line, left_line, plan_line, told_line, accepted_line, said_line, said_lines, shown};

use closing::NextStep;
use listing::Text;
use onward::Judgement;
use plan::{Plan, PlanRefusal};
use rules::State;
use tables::Tables;
use terms::Verdict;

// What is said of a class list.
#[derive(Drop)]
pub enum ListWord {
    Moved,
    PutBack,
    StillOpen,
}

// One of a move's own transactions: the move itself, a step by its number from 1, or the undo of a step.
#[derive(Drop)]
pub enum Part {
    Itself,
    OfStep(usize),
    OfUndo(usize),
}

// The one thing to do next for a move.
#[derive(Drop)]
pub enum Todo {
    Nothing,
    Begins(Part),
    Commits(Part),
    Aborts(Part),
}

// Whether the saga of a move is in the book and committed.
fn saga_committed(tables: Tables, state: State, i: usize) -> bool
    ensures { result ≡ saga_committed tables state i }
{
    if tables.saga_count() <= i {
        return false;
    }
    let saga = tables::saga_at(tables, i);
    rules::own(&state.transactions, saga.first, 0).is_committed()
}

// What is said of the lists of move i.
pub fn list_word(tables: Tables, state: State, i: usize) -> ListWord
    ensures { result ≡ word_for tables state i }
{
    if saga_committed(tables, state, i) {
        return ListWord::Moved;
    }
    if closing::settled(tables, state, i) {
        return ListWord::PutBack;
    }
    ListWord::StillOpen
}

// Which of the own transactions of a saga of n steps is the k-th behind S.
fn nth_part(n: usize, k: usize) -> Part
    ensures { result ≡ part_by n k }
{
    if k == 0 {
        return Part::Itself;
    }
    if k <= n {
        return Part::OfStep(k);
    }
    Part::OfUndo(k - n)
}

// Which of move i's own transactions is t; one before them counts as the move itself.
fn part_of(tables: Tables, i: usize, t: usize) -> Part
    ensures { result ≡ part_of tables i t }
{
    let saga = tables::saga_at(tables, i);
    let first = saga.first as usize;
    let n = saga.steps as usize;
    if t < first {
        return Part::Itself;
    }
    nth_part(n, t - first)
}

// The one thing to do next for move i: the closing step of its saga.
pub fn to_do(tables: Tables, state: State, i: usize) -> Todo
    ensures { result ≡ todo_for tables state i }
{
    match closing::closing(tables, state, i) {
        NextStep::NoStep => Todo::Nothing,
        NextStep::ToBegin(t) => Todo::Begins(part_of(tables, i, t)),
        NextStep::ToCommit(t) => Todo::Commits(part_of(tables, i, t)),
        NextStep::ToAbort(t) => Todo::Aborts(part_of(tables, i, t)),
    }
}

// With the word for a class list.
fn with_word(text: Text, word: ListWord) -> Text
    ensures { text_of result ≡ with_all (text_of text) (word_letters word) }
{
    match word {
        ListWord::Moved => text.word(b" moved"),
        ListWord::PutBack => text.word(b" put back"),
        ListWord::StillOpen => text.word(b" still open"),
    }
}

// How many steps the plan names for move i.
fn planned(steps: &[u16], i: usize) -> usize
    ensures { result ≡ get_or steps.now i 0 }
{
    match steps.get(i) {
        Some(n) => *n as usize,
        None => 0,
    }
}

// With step k of move i, by its name; one that the plan does not name, by its number.
fn with_step(text: Text, plan: Plan, i: usize, k: usize) -> Text
    ensures { text_of result ≡ with_all (text_of text) (step_letters plan.entry.names.now plan.entry.ends.now plan.entry.steps.now i k) }
{
    if planned(plan.steps, i) < k {
        return text.word(b"step ").number(k);
    }
    let at = plan::step_name(plan.steps, i, k);
    let name = plan::name(plan.names, plan.ends, at);
    text.word(name)
}

// With what of move i is meant.
fn with_part(text: Text, plan: Plan, i: usize, part: Part) -> Text
    ensures { text_of result ≡ with_all (text_of text) (part_letters plan.entry.names.now plan.entry.ends.now plan.entry.steps.now i part) }
{
    match part {
        Part::Itself => text.word(b"the move"),
        Part::OfStep(k) => with_step(text.word(b"the step "), plan, i, k),
        Part::OfUndo(k) => with_step(text.word(b"the undo of "), plan, i, k),
    }
}

// With the thing to do for move i.
fn with_todo(text: Text, plan: Plan, i: usize, todo: Todo) -> Text
    ensures { text_of result ≡ with_all (text_of text) (todo_letters plan.entry.names.now plan.entry.ends.now plan.entry.steps.now i todo) }
{
    match todo {
        Todo::Nothing => text.word(b"nothing"),
        Todo::Begins(part) => with_part(text.word(b"begin "), plan, i, part),
        Todo::Commits(part) => with_part(text.word(b"commit "), plan, i, part),
        Todo::Aborts(part) => with_part(text.word(b"abort "), plan, i, part),
    }
}

// The line of class list j.
fn list_line(plan: Plan, j: usize, word: ListWord) -> Text
    ensures { text_of result ≡ shown (list_line plan.entry.names.now plan.entry.ends.now plan.entry.steps.now j word) }
{
    let at = plan::list_name(plan.steps, j);
    let name = plan::name(plan.names, plan.ends, at);
    let text = Text::empty().word(b"list ").word(name);
    with_word(text, word).end()
}

// The line of move i.
fn move_line(plan: Plan, i: usize, todo: Todo) -> Text
    ensures { text_of result ≡ shown (move_line plan.entry.names.now plan.entry.ends.now plan.entry.steps.now i todo) }
{
    let at = plan::move_name(plan.steps, i);
    let name = plan::name(plan.names, plan.ends, at);
    let text = Text::empty().word(b"move ").word(name).word(b": ");
    with_todo(text, plan, i, todo).end()
}

// The line of a plan that is refused.
fn plan_line(refusal: PlanRefusal) -> Text
    ensures { text_of result ≡ shown (plan_line refusal) }
{
    let n = refusal.number() as usize;
    Text::empty()
        .word(b"plan refused ")
        .number(n)
        .word(b" 0 0")
        .end()
}

// The line that says how much is left.
fn left_line(left: usize) -> Text
    ensures { text_of result ≡ shown (left_line left) }
{
    Text::empty().word(b"left ").number(left).end()
}

// Line k of the lists and then the moves, where plan and book are accepted.
fn told_line(plan: Plan, judgement: Judgement, k: usize) -> Text
    ensures { text_of result ≡ told_line plan.entry.names.now plan.entry.ends.now plan.entry.steps.now plan.entry.lists.now judgement k }
{
    let tables = judgement.tables;
    let state = judgement.state;
    if k < plan.lists.len() {
        let word = list_word(tables, state, plan.lists[k] as usize);
        return list_line(plan, k, word);
    }
    let i = k - plan.lists.len();
    let todo = to_do(tables, state, i);
    move_line(plan, i, todo)
}

// Line k of a plan that fits and a book that is accepted: how much is left, then the lists and the moves.
fn accepted_line(plan: Plan, judgement: Judgement, k: usize) -> Text
    ensures { text_of result ≡ accepted_line plan.entry.names.now plan.entry.ends.now plan.entry.steps.now plan.entry.lists.now judgement k }
{
    if k == 0 {
        let tables = judgement.tables;
        let state = judgement.state;
        let left = left::left_of(tables, state);
        return left_line(left);
    }
    let behind = k - 1;
    told_line(plan, judgement, behind)
}

// `line_count` and `line` are promised over the plan's four lists by themselves, and keep them as parameters.

// How many lines there are to read.
pub fn line_count(
    names: &[u8],
    ends: &[u32],
    steps: &[u16],
    lists: &[u16],
    judgement: Judgement,
) -> usize
    ensures { result ≡ said_lines names.now ends.now steps.now lists.now judgement }
{
    let Ok(()) = plan::judged(names, ends, steps, lists) else {
        return 1;
    };
    let answer = judgement.answer;
    let Verdict::Accepted = answer else {
        return 1;
    };
    let told = lists.len() + steps.len();
    1 + told
}

// Line k, counted from 0: why the plan or else the book is refused, and nothing of any list; or how much is left, and what is said of the lists and moves.
pub fn line(
    names: &[u8],
    ends: &[u32],
    steps: &[u16],
    lists: &[u16],
    judgement: Judgement,
    k: usize,
) -> Text
    ensures { text_of result ≡ said_line names.now ends.now steps.now lists.now judgement k }
{
    if let Err(refusal) = plan::judged(names, ends, steps, lists) {
        return plan_line(refusal);
    }
    let answer = judgement.answer;
    let Verdict::Accepted = answer else {
        return listing::line(judgement, 0);
    };
    let plan = Plan {
        names,
        ends,
        steps,
        lists,
    };
    accepted_line(plan, judgement, k)
}
