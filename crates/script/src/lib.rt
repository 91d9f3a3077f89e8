// A book as text, a line for each thing that stands in it, in words; and the fields that such a text says.
//
// The loops over rows and lines are no counts: each turn goes on behind the line that it read or wrote.
#![tactic(auto)]

ghost use Rattle.std.specs.Prelude.{◌≡◌, true, [], ◌++◌, ◌+◌, ◌≤◌, length, take, drop, get_or};
ghost use Rattle.listing.specs.Words.{line_feed};
ghost use Rattle.listing.specs.Texts.{text_of, with_all};
ghost use Rattle.script.specs.Forms.{table, forms, most_fields, sign_of, blank_first, ended, is_figure, figure_first, numeral_of, found_by, says, allows, loose_letter, takes, is_own, fits, count_of, piece_of, shown, form_for};
ghost use Rattle.script.specs.Stages.{letter_of, first_due, stage_due, counted_due, due_after};
ghost use Rattle.script.specs.Scripts.{found_in, said_in, line_says, one_says, first_says, line_in, script_in, script_if_room, ShownBy, book_text, printed_in, printed_if_room};

use listing::Text;
use number::Edition;

// What a byte of a form stands for: a field that has this value and is not written in the line; a field that is written there, as a number; a blank; a letter; nothing.
#[derive(Drop)]
enum Sign {
    Fixed(u32),
    Number,
    Blank,
    Letter,
    Nothing,
}

// What stands at a place of the text of a book.
#[derive(Clone, Copy)]
pub enum Stage {
    Edition,
    Sagas,
    Steps,
    Plain,
    Objects,
    Dependencies,
    Entries,
    Events,
    Loose,
}

// What is due in the text: the stage of the next line, how many lines of that stage follow it, and the book's edition.
#[derive(Clone, Copy)]
pub struct Due {
    stage: Stage,
    left: usize,
    edition: Edition,
}

// What a byte of a form finds at the front of a line: it goes on with what is left; it says a field, and goes on with what is left; or something else stands there. These are three
// cases of one rank: one `Option` inside another would have no word for the first two.
#[derive(Drop)]
enum Found<'a> {
    Goes(&'a [u8]),
    Speaks(u32, &'a [u8]),
    Other,
}

// What a line says: so many fields stand in the room now, and whether numbers alone follow; nothing, if it is passed over; or it is not understood. A line that is passed over is
// neither an error nor a value, so that this is no `Result`.
#[derive(Drop)]
enum Line {
    Takes(usize, bool),
    Passed,
    Unclear,
}

// A line for the first of some fields: its text, how many it says, and whether numbers alone follow.
#[derive(Drop)]
struct Shown {
    text: Text,
    fields: usize,
    loose: bool,
}

// Why a text was not read: the number of the first line that is not understood, from 1; that of the first line with which there are more fields than asked for; or the room is too
// small.
#[derive(Clone, Copy)]
pub enum NotRead {
    NotUnderstood(usize),
    More(usize),
    NoRoom,
}

// The forms of lines.
#[derive(Drop)]
pub struct Form;

impl Form {
    // One form a row. First the stages where it may stand, from one letter to another. Then the line: a figure is a field that has this value and is not written (behind 9
    // come `:` for 10, `;` for 11 and so on), `#` is a field that is written. The last row is for what has no other form.
    const ROWS: [u8; 402] = *b"\
        AAedition #\n\
        BBsagas #\n\
        CCsteps #\n\
        DDplain #\n\
        EEobjects #\n\
        FFdependencies #\n\
        GGdepend # on # kind #\n\
        HI1begin #\n\
        HI2commit #\n\
        HI3abort #\n\
        HH4read # object #0\n\
        HH4write # object #1\n\
        HH4operate # object # mark #\n\
        II4read # object #0 record #\n\
        II4write # object #1 record #\n\
        II4operate # object # mark # record #\n\
        HI5delegate # to # operation #\n\
        HI6commit # operation #\n\
        HI7abort # operation #\n\
        HI8spawn # child #\n\
        AJfield #\n\
    ";

    // No form has more fields, and a room has so many places more than the fields that are asked for.
    pub const FIELDS: usize = 6;

    // The largest number that a line can say.
    const LARGEST: usize = 4294967295;

    // The stage of numbers alone.
    const LOOSE: u8 = b'J';
}

// What a byte of a form stands for.
fn sign_of(b: u8) -> Sign
    ensures { result ≡ sign_of b }
{
    match b {
        b'#' => Sign::Number,
        b' ' => Sign::Blank,
        b'0'..=b'?' => Sign::Fixed((b - b'0') as u32),
        b'a'..=b'z' => Sign::Letter,
        _ => Sign::Nothing,
    }
}

impl Stage {
    // The letter by which a form names it. Events are of two sorts, by the edition.
    fn letter(self, edition: Edition) -> u8
        ensures { result ≡ letter_of self edition }
    {
        match self {
            Stage::Edition => b'A',
            Stage::Sagas => b'B',
            Stage::Steps => b'C',
            Stage::Plain => b'D',
            Stage::Objects => b'E',
            Stage::Dependencies => b'F',
            Stage::Entries => b'G',
            Stage::Events => match edition {
                Edition::First => b'H',
                Edition::Second => b'I',
            },
            Stage::Loose => b'J',
        }
    }
}

impl Due {
    // At the front of a text.
    fn first() -> Due
        ensures { result ≡ first_due }
    {
        Due {
            stage: Stage::Edition,
            left: 0,
            edition: Edition::First,
        }
    }

    // A line of this stage.
    fn at(self, stage: Stage) -> Due
        ensures { result ≡ stage_due self stage }
    {
        let edition = self.edition;
        Due {
            stage,
            left: 0,
            edition,
        }
    }

    // So many lines of one stage, and then one of another.
    fn counted(self, lines: usize, stage: Stage, then: Stage) -> Due
        ensures { result ≡ counted_due self lines stage then }
    {
        if lines == 0 {
            return self.at(then);
        }
        let edition = self.edition;
        Due {
            stage,
            left: lines - 1,
            edition,
        }
    }

    // The letter of what is due.
    fn letter(self) -> u8
        ensures { result ≡ letter_of self.stage self.edition }
    {
        let stage = self.stage;
        let edition = self.edition;
        stage.letter(edition)
    }

    // What is due behind a line whose first field is this one.
    fn after(self, loose: bool, first: usize) -> Due
        ensures { result ≡ due_after self loose first }
    {
        if loose {
            return self.at(Stage::Loose);
        }
        let stage = self.stage;
        let left = self.left;
        match stage {
            Stage::Edition => Due {
                stage: Stage::Sagas,
                left: 0,
                edition: Edition::named(first),
            },
            Stage::Sagas => self.counted(first, Stage::Steps, Stage::Plain),
            Stage::Steps => self.counted(left, Stage::Steps, Stage::Plain),
            Stage::Plain => self.at(Stage::Objects),
            Stage::Objects => self.at(Stage::Dependencies),
            Stage::Dependencies => self.counted(first, Stage::Entries, Stage::Events),
            Stage::Entries => self.counted(left, Stage::Entries, Stage::Events),
            Stage::Events => self.at(Stage::Events),
            Stage::Loose => self.at(Stage::Loose),
        }
    }
}

// ---- what a line says

// A blank, a tab or a carriage return stands first.
fn blank_first(line: &[u8]) -> bool
    ensures { result ≡ blank_first line.now }
{
    match line {
        [b, ..] => plan::is_blank(*b, true),
        [] => false,
    }
}

// Nothing more stands in the line, or a remark.
fn ended(line: &[u8]) -> bool
    ensures { result ≡ ended line.now }
{
    match plan::past_blanks(line, true) {
        [b, ..] => *b == b'#',
        [] => true,
    }
}

fn is_figure(b: u8) -> bool
    ensures { result ≡ is_figure b }
{
    (b'0' <= b) & (b <= b'9')
}

// A figure stands first.
fn figure_first(line: &[u8]) -> bool
    ensures { result ≡ figure_first line.now }
{
    match line {
        [b, ..] => is_figure(*b),
        [] => false,
    }
}

// The number that stands first, in figures.
fn numeral<'a>(line: &'a [u8]) -> Found<'a>
    ensures { found_in result ≡ numeral_of line.now }
{
    if !figure_first(line) {
        return Found::Other;
    }
    let mut v: usize = 0;
    for (i, b) in line.iter().enumerate() {
        if !is_figure(*b) {
            return Found::Speaks(v as u32, &line[i..]);
        }
        let figure = (*b - b'0') as usize;
        let more = 10 * v + figure;
        if Form::LARGEST < more {
            return Found::Other;
        }
        v = more;
    }
    Found::Speaks(v as u32, &line[line.len()..])
}

// What a byte of a form finds at the front of a line.
fn found_by<'a>(line: &'a [u8], b: u8) -> Found<'a>
    ensures { found_in result ≡ found_by b line.now }
{
    let sign = sign_of(b);
    match sign {
        Sign::Fixed(v) => Found::Speaks(v, line),
        Sign::Number => numeral(line),
        Sign::Blank => {
            if !blank_first(line) {
                return Found::Other;
            }
            let rest = plan::past_blanks(line, true);
            Found::Goes(rest)
        }
        Sign::Letter => match line {
            [first, rest @ ..] => {
                if *first != b {
                    return Found::Other;
                }
                Found::Goes(rest)
            }
            [] => Found::Other,
        },
        Sign::Nothing => Found::Goes(line),
    }
}

// The room and how many fields stand in it are two parameters of the four functions `said_by`, `one_says`, `first_said` and `line_says`: a form may break off behind fields that it
// wrote, and the next one starts at the same count, so that a struct of both would have to be set back by hand. That the fields before the count stay is one equation, and a name
// for it would be no plainer.

// What a line says by one form, behind the fields that stand in the room already: so many fields stand there now; none, if it is of another form. It stays out of line: inside `read`,
// which tries form after form, it made a text of lines `field N` take a third longer.
#[inline(never)]
fn said_by(form: &[u8], line: &[u8], room: &mut [u32], from: usize) -> Option<usize>
    requires { from + count_of form.now ≤ length room.old }
    ensures room_after { said_in result room.new ≡ says form.now line.now (take from room.old) }
    ensures room_unchanged { take from room.new ≡ take from room.old }
{
    let mut rest = line;
    let mut n = from;
    for b in form {
        let found = found_by(rest, *b);
        match found {
            Found::Goes(next) => {
                rest = next;
            }
            Found::Speaks(v, next) => {
                room[n] = v;
                n += 1;
                rest = next;
            }
            Found::Other => return None,
        }
    }
    if !ended(rest) {
        return None;
    }
    Some(n)
}

// The form may stand at the stage that has this letter.
fn allows(form: &[u8], letter: u8) -> bool
    ensures { result ≡ allows form.now letter }
{
    if form.len() < 2 {
        return false;
    }
    (form[0] <= letter) & (letter <= form[1])
}

// What a line says by one form, if that may stand there.
fn one_says(form: &[u8], letter: u8, line: &[u8], room: &mut [u32], from: usize) -> Line
    requires { from + count_of form.now ≤ length room.old }
    ensures room_after { line_in result room.new ≡ one_says form.now letter line.now (take from room.old) }
    ensures room_unchanged { take from room.new ≡ take from room.old }
{
    if !allows(form, letter) {
        return Line::Unclear;
    }
    let said = said_by(form, line, room, from);
    let Some(n) = said else {
        return Line::Unclear;
    };
    let loose = allows(form, Form::LOOSE);
    Line::Takes(n, loose)
}

// What a line says by the first form that it has of those that may stand there.
fn first_said(rows: &[u8], letter: u8, line: &[u8], room: &mut [u32], from: usize) -> Line
    requires { (rows.now ≡ table) × (from + most_fields ≤ length room.old) }
    ensures room_after { line_in result room.new ≡ first_says forms letter line.now (take from room.old) }
    ensures room_unchanged { take from room.new ≡ take from room.old }
{
    let mut at: usize = 0;
    while at < rows.len() {
        let end = plan::line_end(rows, at);
        let one = one_says(&rows[at..end], letter, line, room, from);
        match one {
            Line::Takes(_, _) => return one,
            Line::Passed => return one,
            Line::Unclear => {}
        }
        at = end + 1;
    }
    Line::Unclear
}

// What a line says at the stage that has this letter.
fn line_says(letter: u8, line: &[u8], room: &mut [u32], from: usize) -> Line
    requires { from + most_fields ≤ length room.old }
    ensures room_after { line_in result room.new ≡ line_says letter line.now (take from room.old) }
    ensures room_unchanged { take from room.new ≡ take from room.old }
{
    if ended(line) {
        return Line::Passed;
    }
    let rest = plan::past_blanks(line, true);
    first_said(&Form::ROWS, letter, rest, room, from)
}

// The fields that a text says, up to so many, at the front of the room; the answer is how many there are.
pub fn read(text: &[u8], most: usize, room: &mut [u32]) -> Result<usize, NotRead>
    ensures { script_in result room.new ≡ script_if_room most (length room.old) text.now }
{
    if room.len() < Form::FIELDS {
        return Err(NotRead::NoRoom);
    }
    if room.len() - Form::FIELDS < most {
        return Err(NotRead::NoRoom);
    }
    let mut due = Due::first();
    let mut n: usize = 0;
    let mut number: usize = 1;
    let mut at: usize = 0;
    while at < text.len() {
        let end = plan::line_end(text, at);
        let letter = due.letter();
        let line = line_says(letter, &text[at..end], room, n);
        match line {
            Line::Takes(m, loose) => {
                if most < m {
                    return Err(NotRead::More(number));
                }
                let first = field(&room[..m], n);
                due = due.after(loose, first);
                n = m;
            }
            Line::Passed => {}
            Line::Unclear => return Err(NotRead::NotUnderstood(number)),
        }
        number += 1;
        at = end + 1;
    }
    Ok(n)
}

// ---- the line for some fields

// How many fields a byte of a form says.
fn takes(b: u8) -> usize
    ensures { result ≡ takes b }
{
    let sign = sign_of(b);
    match sign {
        Sign::Fixed(_) => 1,
        Sign::Number => 1,
        Sign::Blank => 0,
        Sign::Letter => 0,
        Sign::Nothing => 0,
    }
}

// Field n can be what a byte of a form says: it is there, and has its value.
fn is_own(b: u8, fields: &[u32], n: usize) -> bool
    ensures { result ≡ is_own b (drop n fields.now) }
{
    let sign = sign_of(b);
    match sign {
        Sign::Fixed(v) => {
            if fields.len() <= n {
                return false;
            }
            fields[n] == v
        }
        Sign::Number => n < fields.len(),
        Sign::Blank => true,
        Sign::Letter => true,
        Sign::Nothing => true,
    }
}

// The form says the first of these fields: there are enough, and those that are not written have its values.
fn fits(form: &[u8], fields: &[u32]) -> bool
    ensures { result ≡ fits form.now fields.now }
{
    let mut n: usize = 0;
    for b in form {
        if !is_own(*b, fields, n) {
            return false;
        }
        n += takes(*b);
    }
    true
}

// A field, or 0 if it is not there.
fn field(fields: &[u32], n: usize) -> usize
    ensures { result ≡ get_or fields.now n 0 }
{
    if fields.len() <= n {
        return 0;
    }
    fields[n] as usize
}

// With what a byte of a form writes, where the next field is this one.
fn with_piece(text: Text, b: u8, v: usize) -> Text
    ensures { text_of result ≡ with_all (text_of text) (piece_of b v) }
{
    let sign = sign_of(b);
    match sign {
        Sign::Fixed(_) => text,
        Sign::Number => text.number(v),
        Sign::Blank => text.byte(b),
        Sign::Letter => text.byte(b),
        Sign::Nothing => text,
    }
}

// The line by a form.
fn shown_by(form: &[u8], fields: &[u32]) -> Shown
    ensures { ShownBy form.now fields.now result }
{
    let mut text = Text::empty();
    let mut n: usize = 0;
    for b in form {
        let v = field(fields, n);
        text = with_piece(text, *b, v);
        n += takes(*b);
    }
    let whole = text.end();
    let loose = allows(form, Form::LOOSE);
    Shown {
        text: whole,
        fields: n,
        loose,
    }
}

// The line for the first of some fields, by the first form that may stand there and says them; by the last form, if none does.
fn line_for(rows: &[u8], letter: u8, fields: &[u32]) -> Shown
    requires { rows.now ≡ table }
    ensures { ShownBy (form_for forms letter fields.now) fields.now result }
{
    let mut at: usize = 0;
    loop {
        let end = plan::line_end(rows, at);
        let form = &rows[at..end];
        let next = end + 1;
        if rows.len() <= next {
            return shown_by(form, fields);
        }
        if allows(form, letter) & fits(form, fields) {
            return shown_by(form, fields);
        }
        at = next;
    }
}

// The line for the first of some fields, at the stage that has this letter.
fn first_line(letter: u8, fields: &[u32]) -> Shown
    ensures { ShownBy (form_for forms letter fields.now) fields.now result }
{
    line_for(&Form::ROWS, letter, fields)
}

// The text of fields, at the front of the room; the answer is how many bytes it has, or none where the room is too small.
pub fn show(fields: &[u32], room: &mut [u8]) -> Option<usize>
    ensures { printed_in result room.new ≡ printed_if_room (book_text fields.now) (length room.old) }
{
    let mut due = Due::first();
    let mut n: usize = 0;
    let mut at: usize = 0;
    while at < fields.len() {
        let letter = due.letter();
        let line = first_line(letter, &fields[at..]);
        let text = line.text;
        let loose = line.loose;
        let said = line.fields;
        let more = text.put(&mut room[n..])?;
        n += more;
        due = due.after(loose, fields[at] as usize);
        at += said;
    }
    Some(n)
}
