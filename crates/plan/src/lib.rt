// The plan of a record move: moves with their named steps, and class lists that each belong to a move.
#![tactic(auto)]

ghost use Rattle.std.specs.Prelude.{◌≡◌, ◌+◌, ◌-◌, ◌≤◌, ◌<◌, ◌∷◌, length, take, drop};
ghost use Rattle.plan.specs.Names.{index, end_at, begin_at, name_at, move_name, step_name, list_name};
ghost use Rattle.plan.specs.Verdict.{refusal_number, plan_number, too_many_steps, long_name, no_such_move, plan_verdict};
ghost use Rattle.plan.specs.Lines.{is_blank, past_blanks, up_to_blanks, trimmed, begins, word_of, name_of, entry_by, entries_of};
ghost use Rattle.plan.specs.Reading.{names_in, joined, ends_from, steps_below, steps_of, move_above, lists_of, plan_names, plan_ends, plan_steps, plan_lists, most_bytes, told, has_room, read_answer, room_after};
ghost use Rattle.plan.specs.Passes.{line_length, is_move, is_step, is_list, not_clear, has_name, with_line, laid};

// A plan in memory: the bytes of its names, where each name ends, for each move how many steps it has, for each class list the number of its move.
// `judged`, `read`, `name`, `move_name`, `step_name` and `list_name` are promised over these lists by themselves, and keep them as parameters.
#[derive(Clone, Copy)]
pub struct Plan<'a> {
    pub names: &'a [u8],
    pub ends: &'a [u32],
    pub steps: &'a [u16],
    pub lists: &'a [u16],
}

// A plan's limits: steps of a move, class lists, bytes of a name, bytes of the text that staff write.
impl Plan<'_> {
    pub const STEPS: usize = 16;

    pub const LISTS: usize = 30;

    pub const NAME: usize = 24;

    pub const BYTES: usize = 65536;
}

// Why a plan is refused.
#[derive(Drop)]
pub enum PlanRefusal {
    TooManySteps,
    TooManyLists,
    LongName,
    NoSuchMove,
}

impl PlanRefusal {
    // The number that the table of refusals gives it.
    pub fn number(self) -> u8
        ensures { result ≡ refusal_number self }
    {
        match self {
            PlanRefusal::TooManySteps => 25,
            PlanRefusal::TooManyLists => 26,
            PlanRefusal::LongName => 27,
            PlanRefusal::NoSuchMove => 28,
        }
    }
}

// What judging a plan answers: that it fits, or the reason why not.
pub type PlanVerdict = Result<(), PlanRefusal>;

// The number of a verdict's refusal, 0 for a plan that fits.
pub fn plan_number(verdict: PlanVerdict) -> u8
    ensures { result ≡ plan_number verdict }
{
    match verdict {
        Ok(()) => 0,
        Err(refusal) => refusal.number(),
    }
}

// Where name k ends.
fn name_end(names: &[u8], ends: &[u32], k: usize) -> usize
    ensures { result ≡ end_at names.now ends.now k }
{
    match ends.get(k) {
        Some(end) => names.len().min(*end as usize),
        None => 0,
    }
}

// Where name k begins.
fn name_begin(names: &[u8], ends: &[u32], k: usize) -> usize
    ensures { result ≡ begin_at names.now ends.now k }
{
    if k == 0 {
        return 0;
    }
    name_end(names, ends, k - 1)
}

// Name k, as a part of the caller's own bytes.
pub fn name<'a>(names: &'a [u8], ends: &[u32], k: usize) -> &'a [u8]
    ensures { result.now ≡ name_at names.now ends.now k }
{
    let begin = name_begin(names, ends, k);
    let end = name_end(names, ends, k);
    &names[begin..begin.max(end)]
}

// Which name is that of move i.
pub fn move_name(steps: &[u16], i: usize) -> usize
    ensures { result ≡ move_name steps.now i }
{
    let mut at: usize = 0;
    let before = i.min(steps.len());
    for own in &steps[..before] {
        at = at.saturating_add(*own as usize + 1);
    }
    at
}

// Which name is that of step k of move i, k from 1.
pub fn step_name(steps: &[u16], i: usize, k: usize) -> usize
    ensures { result ≡ step_name steps.now i k }
{
    move_name(steps, i).saturating_add(k)
}

// Which name is that of class list j.
pub fn list_name(steps: &[u16], j: usize) -> usize
    ensures { result ≡ list_name steps.now j }
{
    move_name(steps, steps.len()).saturating_add(j)
}

// Some move has too many steps.
fn too_many_steps(steps: &[u16]) -> bool
    ensures { result ≡ too_many_steps steps.now }
{
    steps.iter().any(|own| Plan::STEPS < *own as usize)
}

// Some name has too many bytes.
fn long_name(names: &[u8], ends: &[u32]) -> bool
    ensures { result ≡ long_name names.now ends.now }
{
    (0..ends.len()).any(|k| Plan::NAME < name(names, ends, k).len())
}

// Some list's move is not there.
fn no_such_move(steps: &[u16], lists: &[u16]) -> bool
    ensures { result ≡ no_such_move steps.now lists.now }
{
    lists.iter().any(|own| steps.len() <= *own as usize)
}

// Whether the plan fits, or the first reason why not.
pub fn judged(names: &[u8], ends: &[u32], steps: &[u16], lists: &[u16]) -> PlanVerdict
    ensures { result ≡ plan_verdict names.now ends.now steps.now lists.now }
{
    if too_many_steps(steps) {
        return Err(PlanRefusal::TooManySteps);
    }
    if Plan::LISTS < lists.len() {
        return Err(PlanRefusal::TooManyLists);
    }
    if long_name(names, ends) {
        return Err(PlanRefusal::LongName);
    }
    if no_such_move(steps, lists) {
        return Err(PlanRefusal::NoSuchMove);
    }
    Ok(())
}

// ---- the text that staff write

// What a line begins with: it is passed over, or names a move, a step or a class list, or is none of these.
#[derive(Clone, Copy, PartialEq, Eq)]
enum Word {
    Passed,
    Move,
    Step,
    ClassList,
    Unclear,
}

// How much of each room a plan takes: bytes of names, names, moves, class lists.
#[derive(Clone, Copy)]
pub struct Counts {
    pub names: usize,
    pub ends: usize,
    pub moves: usize,
    pub lists: usize,
}

// Why the text of a plan is not read: the first line that is not understood, by its number from 1; a room is too small; the text is too long.
#[derive(Clone, Copy)]
pub enum PlanUnread {
    NotUnderstood(usize),
    NoRoom,
    TooLong,
}

// What reading the text of a plan answers: how much of each room was filled, or why it is not read, and then the rooms are as they were.
pub type PlanRead = Result<Counts, PlanUnread>;

// How far the names are written: bytes and names.
#[derive(Drop)]
struct Place {
    bytes: usize,
    names: usize,
}

impl Word {
    fn is_move(self) -> bool
        ensures { result ≡ is_move self }
    {
        self == Word::Move
    }

    fn is_step(self) -> bool
        ensures { result ≡ is_step self }
    {
        self == Word::Step
    }

    fn is_list(self) -> bool
        ensures { result ≡ is_list self }
    {
        self == Word::ClassList
    }

    // The line has a name that is written: of a move or a step, or of a class list. Which of the two is a flag, as in `names_in`, of which the contract of `read` is made.
    fn has_name(self, lists: bool) -> bool
        ensures { result ≡ has_name self lists }
    {
        match self {
            Word::Move | Word::Step => !lists,
            Word::ClassList => lists,
            Word::Passed | Word::Unclear => false,
        }
    }

    // The line is not understood, below so many moves.
    fn not_clear(self, moves: usize) -> bool
        ensures { result ≡ not_clear self moves }
    {
        match self {
            Word::Step => moves == 0,
            Word::Passed | Word::Move | Word::ClassList => false,
            Word::Unclear => true,
        }
    }
}

// A blank or a tab; around a line a carriage return too. Both are asked for by the flag `around`: crate script calls this function by it, and `is_blank` and `past_blanks` of specs/Lines take it.
pub fn is_blank(b: u8, around: bool) -> bool
    ensures { result ≡ is_blank around b }
{
    b == b' ' || (b == b'\t' || (around && b == b'\r'))
}

// Without the blanks at the front.
pub fn past_blanks<'a>(line: &'a [u8], around: bool) -> &'a [u8]
    ensures { result.now ≡ past_blanks around line.now }
{
    for (i, b) in line.iter().enumerate() {
        if !is_blank(*b, around) {
            return &line[i..];
        }
    }
    &line[line.len()..]
}

// Without the blanks at the end.
fn up_to_blanks<'a>(line: &'a [u8]) -> &'a [u8]
    ensures { result.now ≡ up_to_blanks line.now }
{
    for last in (0..line.len()).rev() {
        if !is_blank(line[last], true) {
            return &line[..last + 1];
        }
    }
    &line[..0]
}

// Where the line that starts at a place ends.
pub fn line_end(text: &[u8], at: usize) -> usize
    ensures { result ≡ at + line_length (drop at text.now) }
{
    for end in at..text.len() {
        if text[end] == b'\n' {
            return end;
        }
    }
    at.max(text.len())
}

// What is left of the line between two places.
fn line_between<'a>(text: &'a [u8], at: usize, end: usize) -> &'a [u8]
    requires { (at ≤ end) × (end ≤ length text.now) }
    ensures { result.now ≡ trimmed (take (end - at) (drop at text.now)) }
{
    let front = past_blanks(&text[at..end], true);
    up_to_blanks(front)
}

// The line begins with a word, and a blank or a tab follows.
fn begins_with(line: &[u8], word: &[u8]) -> bool
    ensures { result ≡ begins word.now line.now }
{
    let n = word.len();
    if line.len() <= n || &line[..n] != word {
        return false;
    }
    is_blank(line[n], false)
}

// What a line begins with.
fn word_of(line: &[u8]) -> Word
    ensures { result ≡ word_of line.now }
{
    if line.is_empty() || line[0] == b'#' {
        return Word::Passed;
    }
    if begins_with(line, b"move") {
        return Word::Move;
    }
    if begins_with(line, b"step") {
        return Word::Step;
    }
    if begins_with(line, b"list") {
        return Word::ClassList;
    }
    Word::Unclear
}

// What follows the word of a line.
fn name_of<'a>(line: &'a [u8]) -> &'a [u8]
    ensures { result.now ≡ name_of line.now }
{
    let letters = line.len().min(4);
    past_blanks(&line[letters..], false)
}

impl Counts {
    const NONE: Counts = Counts {
        names: 0,
        ends: 0,
        moves: 0,
        lists: 0,
    };

    // With a line more, whose name has so many bytes.
    fn with_line(self, word: Word, bytes: usize) -> Counts
        requires { (self.names + bytes ≤ most_bytes) × (self.ends ≤ most_bytes) × (self.moves ≤ most_bytes) × (self.lists ≤ most_bytes) }
        ensures { result ≡ with_line self word bytes }
    {
        let named = Counts {
            names: self.names + bytes,
            ends: self.ends + 1,
            ..self
        };
        match word {
            Word::Passed | Word::Unclear => self,
            Word::Step => named,
            Word::Move => Counts {
                moves: self.moves + 1,
                ..named
            },
            Word::ClassList => Counts {
                lists: self.lists + 1,
                ..named
            },
        }
    }

    // Rooms of so many elements are large enough.
    fn fit(self, names: usize, ends: usize, steps: usize, lists: usize) -> bool
        ensures { result ≡ has_room self names ends steps lists }
    {
        self.names <= names && (self.ends <= ends && (self.moves <= steps && self.lists <= lists))
    }
}

// A line of the text: its word, what stands between its blanks, and where the next line starts. Passes go on by that place and not by a count: how long a
// line is shows only as it is read.
#[derive(Clone, Copy)]
struct Said<'a> {
    word: Word,
    line: &'a [u8],
    next: usize,
}

// The line that starts at a place.
fn said_at<'a>(text: &'a [u8], at: usize) -> Said<'a>
    requires { at < length text.now }
    ensures entry { entries_of (drop at text.now) ≡ entry_by result.word (name_of result.line.now) ∷ entries_of (drop result.next text.now) }
    ensures next_after { (at < result.next) × (result.next ≤ length text.now + 1) }
    ensures name_within { at + length (name_of result.line.now) < result.next }
{
    let end = line_end(text, at);
    let line = line_between(text, at, end);
    let word = word_of(line);
    Said {
        word,
        line,
        next: end + 1,
    }
}

// How much of each room a text's plan takes, or the first line that is not understood.
fn counted(text: &[u8]) -> PlanRead
    requires { length text.now ≤ most_bytes }
    ensures { result ≡ told (entries_of text.now) }
{
    let mut counts = Counts::NONE;
    let mut number: usize = 1;
    let mut at: usize = 0;
    while at < text.len() {
        let said = said_at(text, at);
        if said.word.not_clear(counts.moves) {
            return Err(PlanUnread::NotUnderstood(number));
        }
        let name = name_of(said.line);
        counts = counts.with_line(said.word, name.len());
        number += 1;
        at = said.next;
    }
    Ok(counts)
}

// Lays bytes over a room from a place on.
fn put(room: &mut [u8], at: usize, bytes: &[u8])
    requires { at + length bytes.now ≤ length room.old }
    ensures { room.new ≡ laid room.old at bytes.now }
{
    room[at..at + bytes.len()].copy_from_slice(bytes);
}

// Writes the names of the moves and steps, or those of the lists, and where each ends.
fn put_names(text: &[u8], lists: bool, from: Place, names: &mut [u8], ends: &mut [u32]) -> Place
    requires text_in_bounds { from.bytes + length (joined (names_in lists (entries_of text.now))) ≤ length names.old }
    requires text_bound { from.bytes + length (joined (names_in lists (entries_of text.now))) ≤ most_bytes }
    requires text_in_bounds_2 { from.names + length (names_in lists (entries_of text.now)) ≤ length ends.old }
    ensures names_after { names.new ≡ laid names.old from.bytes (joined (names_in lists (entries_of text.now))) }
    ensures ends_after { ends.new ≡ laid ends.old from.names (ends_from from.bytes (names_in lists (entries_of text.now))) }
    ensures bytes_value { result.bytes ≡ from.bytes + length (joined (names_in lists (entries_of text.now))) }
    ensures names_value { result.names ≡ from.names + length (names_in lists (entries_of text.now)) }
{
    let mut n = from.bytes;
    let mut k = from.names;
    let mut at: usize = 0;
    while at < text.len() {
        let said = said_at(text, at);
        at = said.next;
        if said.word.has_name(lists) {
            let name = name_of(said.line);
            put(names, n, name);
            n += name.len();
            ends[k] = n as u32;
            k += 1;
        }
    }
    Place { bytes: n, names: k }
}

// How many steps stand between a place and the next move.
fn steps_below(text: &[u8], from: usize) -> usize
    ensures { result ≡ steps_below (entries_of (drop from text.now)) }
{
    let mut n: usize = 0;
    let mut at = from;
    while at < text.len() {
        let said = said_at(text, at);
        at = said.next;
        if said.word.is_move() {
            return n;
        }
        if said.word.is_step() {
            n += 1;
        }
    }
    n
}

// Writes for each move how many steps it has.
fn put_steps(text: &[u8], steps: &mut [u16])
    requires { (length text.now ≤ most_bytes) × (length (steps_of (entries_of text.now)) ≤ length steps.old) }
    ensures { steps.new ≡ laid steps.old 0 (steps_of (entries_of text.now)) }
{
    let mut m: usize = 0;
    let mut at: usize = 0;
    while at < text.len() {
        let said = said_at(text, at);
        at = said.next;
        if said.word.is_move() {
            let own = steps_below(text, at);
            steps[m] = own as u16;
            m += 1;
        }
    }
}

// The number of the last of so many moves; of none, a number that no move has: `plan_lists` gives 65535 there, and a list of it is refused as one of no such move.
fn move_above(moves: usize) -> usize
    ensures { result ≡ move_above moves }
{
    match moves {
        0 => 65535,
        _ => moves - 1,
    }
}

// Writes for each class list the number of its move.
fn put_lists(text: &[u8], lists: &mut [u16])
    requires { (length text.now ≤ most_bytes) × (length (lists_of 0 (entries_of text.now)) ≤ length lists.old) }
    ensures { lists.new ≡ laid lists.old 0 (lists_of 0 (entries_of text.now)) }
{
    let mut moves: usize = 0;
    let mut j: usize = 0;
    let mut at: usize = 0;
    while at < text.len() {
        let said = said_at(text, at);
        at = said.next;
        if said.word.is_move() {
            moves += 1;
        } else if said.word.is_list() {
            let own = move_above(moves);
            lists[j] = own as u16;
            j += 1;
        }
    }
}

// Writes the plan that a text says at the fronts of rooms that hold it.
fn fill(text: &[u8], names: &mut [u8], ends: &mut [u32], steps: &mut [u16], lists: &mut [u16])
    requires text_len_bound { length text.now ≤ most_bytes }
    requires text_in_bounds { (length (plan_names (entries_of text.now)) ≤ length names.old) × (length (plan_ends (entries_of text.now)) ≤ length ends.old) }
    requires text_in_bounds_2 { (length (plan_steps (entries_of text.now)) ≤ length steps.old) × (length (plan_lists (entries_of text.now)) ≤ length lists.old) }
    ensures names_after { names.new ≡ laid names.old 0 (plan_names (entries_of text.now)) }
    ensures ends_after { ends.new ≡ laid ends.old 0 (plan_ends (entries_of text.now)) }
    ensures steps_after { steps.new ≡ laid steps.old 0 (plan_steps (entries_of text.now)) }
    ensures lists_after { lists.new ≡ laid lists.old 0 (plan_lists (entries_of text.now)) }
{
    let start = Place { bytes: 0, names: 0 };
    let own = put_names(text, false, start, names, ends);
    put_names(text, true, own, names, ends);
    put_steps(text, steps);
    put_lists(text, lists);
}

// The plan that a text says, at the fronts of the rooms lent; or why it is not read, and the rooms as they were.
pub fn read(
    text: &[u8],
    names: &mut [u8],
    ends: &mut [u32],
    steps: &mut [u16],
    lists: &mut [u16],
) -> PlanRead
    ensures value { result ≡ read_answer text.now (length names.old) (length ends.old) (length steps.old) (length lists.old) }
    ensures names_after { names.new ≡ room_after result (plan_names (entries_of text.now)) names.old }
    ensures ends_after { ends.new ≡ room_after result (plan_ends (entries_of text.now)) ends.old }
    ensures steps_after { steps.new ≡ room_after result (plan_steps (entries_of text.now)) steps.old }
    ensures lists_after { lists.new ≡ room_after result (plan_lists (entries_of text.now)) lists.old }
{
    if Plan::BYTES < text.len() {
        return Err(PlanUnread::TooLong);
    }
    let counts = counted(text)?;
    if !counts.fit(names.len(), ends.len(), steps.len(), lists.len()) {
        return Err(PlanUnread::NoRoom);
    }
    fill(text, names, ends, steps, lists);
    Ok(counts)
}
