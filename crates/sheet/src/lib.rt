// What a book's tables say, in numbers that are made once for a book and lent to the judge: the sort of every transaction, the declared
// dependencies, and how many there are of each kind. Numbers of any value have a meaning.
#![tactic(auto)]

ghost use Rattle.std.specs.Prelude.{◌≡◌, cond, min, ℕ, ◌≤◌, ◌<◌, ltb, length, get_or};
ghost use Rattle.terms.specs.Limits.{most_transactions};
ghost use Rattle.tables.specs.Counts.{dependency_count};
ghost use Rattle.tables.specs.Dependencies.{dependency_at};
ghost use Rattle.tables.specs.Sorts.{place_of, sort_of, number_of_all};
ghost use Rattle.tables.specs.declared.Sort.TheVariants.{Plain, Unknown};
ghost use Rattle.sheet.specs.Sheet.{sort_by, sort_in, sort_at, SmallSort, dependency_in, dependency_on, Holds};

use tables::{Dependency, Kind, Sort, Tables};
use terms::Book;

// A sheet of numbers: one for each transaction, one for each dependency, and then how many objects there are, how many dependencies are declared and
// how many transactions sagas own.
#[derive(Drop)]
pub struct Sheet;

impl Sheet {
    pub const OBJECTS: usize = 192;

    pub const DECLARED: usize = 193;

    pub const OWNED: usize = 194;

    pub const NUMBERS: usize = 195;
}

// Sorts and kinds are codes on the sheet, since C lends that memory, and any number has to stand for something.
fn sort_by(k: u32, f: u16, n: u16, i: u16) -> Sort
    ensures { result ≡ sort_by k f n i }
{
    match k {
        1 => Sort::Plain,
        2 => Sort::Saga(f, n),
        3 => Sort::Step(f, n, i),
        4 => Sort::Undo(f, n, i),
        _ => Sort::Unknown,
    }
}

// The sort of any number.
pub fn sort_at(sheet: &[u32; Sheet::NUMBERS], t: usize) -> Sort
    ensures { result ≡ sort_at sheet.now t }
{
    if Book::TRANSACTIONS <= t {
        return Sort::Unknown;
    }
    let c = sheet[t];
    let f = (c / 8 % 64) as u16;
    let n = (c / 512 % 64) as u16;
    let i = (c / 32768 % 64) as u16;
    sort_by(c % 8, f, n, i)
}

// A count as it stands on a sheet, no more than there may be.
pub fn count_in(c: u32, most: usize) -> usize
    ensures { result ≡ min c most }
{
    most.min(c as usize)
}

// The dependency that a number stands for.
pub fn dependency_in(c: u32) -> Dependency
    ensures { result ≡ dependency_in c }
{
    let kind = Kind::of((c / 65536) as usize);
    Dependency {
        dependent: (c % 256) as u8,
        base: (c / 256 % 256) as u8,
        kind,
    }
}

// The number of a sort whose parts are these.
fn packed(k: u32, f: usize, n: usize, i: usize) -> u32
    ensures { k < 8 → f < 64 → n < 64 → i < 64 → sort_in result ≡ sort_by k f n i }
{
    let first = (f % 64) as u32;
    let steps = (n % 64) as u32;
    let which = (i % 64) as u32;
    k % 8 + 8 * first + 512 * steps + 32768 * which
}

// The number of the sort k places after the first of a saga of n steps.
fn place_code(first: usize, n: usize, k: usize) -> u32
    ensures { SmallSort (place_of first n k) → sort_in result ≡ place_of first n k }
{
    if k == 0 {
        return packed(2, first, n, 0);
    }
    if k <= n {
        return packed(3, first, n, k);
    }
    let back = k - n;
    packed(4, first, n, back)
}

// The number of the sort k places after all sagas.
fn rest_code(k: usize, plain: usize) -> u32
    ensures { sort_in result ≡ cond (ltb k plain) Plain Unknown }
{
    if k < plain {
        return packed(1, 0, 0, 0);
    }
    packed(0, 0, 0, 0)
}

// The number that stands for a dependency.
fn dependency_code(d: Dependency) -> u32
    ensures { dependency_in result ≡ d }
{
    let kind = d.kind;
    let a = d.dependent as u32;
    let b = d.base as u32;
    let k = kind.number() as u32;
    a + 256 * b + 65536 * k
}

// Writes the sorts: saga after saga, then the plain ones, then those that are none. One loop goes through the numbers, and none through the sagas with one for each saga's numbers
// inside: tables of any numbers come in here, whose sagas may own more than the sheet has, so that loop would have to test every place again before it writes.
fn put_sorts(sheet: &mut [u32; Sheet::NUMBERS], tables: Tables)
    requires { length sheet.old ≡ 195 }
    ensures { (length sheet.new ≡ 195)
        × (number_of_all tables ≤ most_transactions → (t : ℕ) → t < most_transactions → sort_in (get_or sheet.new t 0) ≡ sort_of tables t) }
{
    let sagas = tables.saga_count();
    let plain = tables.plain;
    let mut i: usize = 0;
    let mut first: usize = 0;
    let mut t: usize = 0;
    while t < Book::TRANSACTIONS {
        let k = t - first;
        if i < sagas {
            let n = tables.steps[i] as usize;
            let own = 2 * n;
            if k < own {
                sheet[t] = place_code(first, n, k);
                t += 1;
            } else {
                first += own;
                i += 1;
            }
        } else {
            sheet[t] = rest_code(k, plain);
            t += 1;
        }
    }
}

// Writes the declared dependencies, and leaves the sorts.
fn put_dependencies(sheet: &mut [u32; Sheet::NUMBERS], tables: Tables)
    requires { length sheet.old ≡ 195 }
    ensures { (length sheet.new ≡ 195)
        × (((i : ℕ) → i < dependency_count tables → dependency_on sheet.new i ≡ dependency_at tables i)
        × ((t : ℕ) → t < most_transactions → get_or sheet.new t 0 ≡ get_or sheet.old t 0)) }
{
    let declared = tables.dependency_count();
    for i in 0..declared {
        let d = tables.dependencies[i];
        sheet[Book::TRANSACTIONS + i] = dependency_code(d);
    }
}

// The sheet of tables; of tables with more transactions than a book can have it says nothing.
pub fn sheet_of(tables: Tables) -> [u32; Sheet::NUMBERS]
    ensures { number_of_all tables ≤ most_transactions → Holds tables result }
{
    let objects = tables.object_count();
    let declared = tables.dependency_count();
    let past = tables::saga_at(tables, Book::SAGAS);
    let mut sheet = [0u32; Sheet::NUMBERS];
    put_sorts(&mut sheet, tables);
    put_dependencies(&mut sheet, tables);
    sheet[Sheet::OBJECTS] = objects as u32;
    sheet[Sheet::DECLARED] = declared as u32;
    sheet[Sheet::OWNED] = past.first as u32;
    sheet
}
