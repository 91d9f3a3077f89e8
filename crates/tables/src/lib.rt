// What a book declares before its events: its sagas, its plain transactions, its objects and the dependencies between transactions.
#![tactic(auto)]

ghost use Rattle.std.specs.Prelude.{◌≡◌, ℕ, ◌*◌, ◌≤◌, ◌<◌, get_or};
ghost use Rattle.terms.specs.Limits.{most_sagas, most_transactions, most_dependencies};
ghost use Rattle.sets.specs.Reach.{leads_to};
ghost use Rattle.sets.specs.Sets.{mem};
ghost use Rattle.tables.specs.Sorts.{place_of, sort_of, is_known, is_saga, is_undo, is_plain, saga_of};
ghost use Rattle.tables.specs.Counts.{saga_count, transaction_count, object_count, dependency_count};
ghost use Rattle.tables.specs.Dependencies.{kind_number, kind_of, may_base, may_depend, allowed, rises_from, rises_to, entry_holds};
ghost use Rattle.tables.specs.Circles.{is_begin_kind, begin_link, has_circle};
ghost use Rattle.tables.specs.Reading.{empty_tables, refused, sagas_stopped, sagas_from, entry_at, dependencies_from, unless_circle, rest_from, edition_ceiling, edition_of, tables_by};

use number::{Edition, Fault, Field, Number, Row};
use terms::{Book, Refusal, Saga};

// What a dependency asks of its base before its dependent may commit (the first three) or begin.
#[derive(Clone, Copy)]
pub enum Kind {
    Commit,
    Abort,
    WeakAbort,
    Begin,
    Serial,
    BeginOnCommit,
    BeginOnAbort,
}

#[derive(Clone, Copy)]
pub struct Dependency {
    pub dependent: u8,
    pub base: u8,
    pub kind: Kind,
}

// The tables of a book. The arrays are as long as tables may be, with their counts beside them: memory is fixed, and there is no heap.
#[derive(Clone, Copy)]
pub struct Tables {
    pub sagas: usize,
    pub steps: [u8; Book::SAGAS],
    pub plain: usize,
    pub objects: usize,
    pub dependencies: [Dependency; Book::DEPENDENCIES],
    pub declared: usize,
}

// What a number stands for: a saga, a step or an undo, with the saga's first number and its steps and which step or undo it is;
// a plain transaction; or none.
#[derive(Clone, Copy)]
pub enum Sort {
    Saga(u16, u16),
    Step(u16, u16, u16),
    Undo(u16, u16, u16),
    Plain,
    Unknown,
}

// The sagas as far as they were read: what they own together and the place after them, or a refusal with its place; and the tables, which are the empty ones at a refusal.
//
// It and TablesRead are no Results: the clause of `read_tables` promises the empty tables beside a refusal, and so do `sagas_from`, `dependencies_from` and `rest_from`, of which its
// definition, `tables_by`, is made. So a refusal is passed on by `refused` or `sagas_stopped`, and not by `?`. One generic record for both would be no plainer: each says by
// its name what its answer is.
#[derive(Drop)]
pub struct SagasRead {
    pub answer: Field,
    pub tables: Tables,
}

// A dependency as it stands in a book: the numbers of its dependent, of its base and of its kind. The kind is still the book's number, which may be none's: `allowed` asks that it be
// from 1 to 7, and refuses the entry at its own place.
#[derive(Clone, Copy)]
pub struct Entry {
    pub dependent: usize,
    pub base: usize,
    pub kind: usize,
}

// An entry with the place after it, or a refusal with its place.
pub type EntryRead = Result<(Entry, usize), Fault>;

// The place of the first event, or a refusal with its place.
pub type TablesAnswer = Result<usize, Fault>;

// The answer with the tables beside it, which are the empty ones at a refusal.
#[derive(Drop)]
pub struct TablesRead {
    pub answer: TablesAnswer,
    pub tables: Tables,
}

// What becomes of tables that can never move, because begin dependencies go round in a circle: they are refused, or, where the caller says so,
// read all the same.
#[derive(Clone, Copy)]
pub enum Circles {
    Forbidden,
    Permitted,
}

impl Kind {
    // The number that the rules give it; a method and no `From`, since it says by its name which of its numbers it is: `kind as u8` would be another.
    pub fn number(self) -> u8
        ensures { result ≡ kind_number self }
    {
        match self {
            Kind::Commit => 1,
            Kind::Abort => 2,
            Kind::WeakAbort => 3,
            Kind::Begin => 4,
            Kind::Serial => 5,
            Kind::BeginOnCommit => 6,
            Kind::BeginOnAbort => 7,
        }
    }

    // Whether it asks something of a begin.
    fn is_begin_kind(self) -> bool
        ensures { result ≡ is_begin_kind self }
    {
        4 <= self.number()
    }

    // The kind that a number from 1 to 7 stands for; any other number is refused before it comes here, so none is an error.
    #[tactic(auto, unfolding(crate::specs::Dependencies::kind_of))]
    pub fn of(k: usize) -> Kind
        ensures { result ≡ kind_of k }
    {
        match k {
            1 => Kind::Commit,
            2 => Kind::Abort,
            3 => Kind::WeakAbort,
            4 => Kind::Begin,
            5 => Kind::Serial,
            6 => Kind::BeginOnCommit,
            _ => Kind::BeginOnAbort,
        }
    }
}

impl Sort {
    pub fn is_known(self) -> bool
        ensures { result ≡ is_known self }
    {
        !matches!(self, Sort::Unknown)
    }

    pub fn is_saga(self) -> bool
        ensures { result ≡ is_saga self }
    {
        matches!(self, Sort::Saga(_, _))
    }

    pub fn is_undo(self) -> bool
        ensures { result ≡ is_undo self }
    {
        matches!(self, Sort::Undo(_, _, _))
    }

    pub fn is_plain(self) -> bool
        ensures { result ≡ is_plain self }
    {
        matches!(self, Sort::Plain)
    }

    // Whether others may depend on it.
    fn may_base(self) -> bool
        ensures { result ≡ may_base self }
    {
        self.is_plain() | self.is_saga()
    }

    // Whether it may depend on others by a kind of this number.
    fn may_depend(self, kind: usize) -> bool
        ensures { result ≡ may_depend self kind }
    {
        self.is_plain() | ((4 <= kind) & self.is_saga())
    }

    // The sort of the transaction k places after the first of a saga of n steps.
    #[tactic(auto, unfolding(crate::specs::Sorts::place_of))]
    fn within(first: usize, n: usize, k: usize) -> Sort
        requires { (first < 65536) × ((n < 256) × (k < 2 * n)) }
        ensures { result ≡ place_of first n k }
    {
        let f = first as u16;
        let steps = n as u16;
        if k == 0 {
            return Sort::Saga(f, steps);
        }
        if k <= n {
            let i = k as u16;
            return Sort::Step(f, steps, i);
        }
        let back = k - n;
        let i = back as u16;
        Sort::Undo(f, steps, i)
    }
}

impl Dependency {
    // Whether an entry comes after this one: by dependent, then base, then kind. It is written out as `rises_from` has it: an entry has wider numbers and a kind not judged yet, so one
    // derived order would need a copy of both in a third type.
    fn rises_to(self, entry: Entry) -> bool
        ensures { result ≡ rises_from self entry.dependent entry.base entry.kind }
    {
        let dependent = self.dependent as usize;
        let base = self.base as usize;
        let kind = self.kind.number() as usize;
        (dependent < entry.dependent)
            | ((dependent == entry.dependent)
                & ((base < entry.base) | ((base == entry.base) & (kind < entry.kind))))
    }
}

impl Tables {
    // Of a book that declares nothing, or whose tables were refused.
    #[tactic(auto, unfolding(crate::specs::Reading::empty_tables))]
    pub fn empty() -> Tables
        ensures { result ≡ empty_tables }
    {
        let none = Dependency {
            dependent: 0,
            base: 0,
            kind: Kind::Commit,
        };
        Tables {
            sagas: 0,
            steps: [0u8; Book::SAGAS],
            plain: 0,
            objects: 0,
            dependencies: [none; Book::DEPENDENCIES],
            declared: 0,
        }
    }

    // How many sagas there are, no more than there may be.
    pub fn saga_count(self) -> usize
        ensures { result ≡ saga_count self }
    {
        self.sagas.min(Book::SAGAS)
    }

    // How many objects, no more than there may be.
    pub fn object_count(self) -> usize
        ensures { result ≡ object_count self }
    {
        self.objects.min(Book::OBJECTS)
    }

    // How many declared dependencies, no more than there may be.
    pub fn dependency_count(self) -> usize
        ensures { result ≡ dependency_count self }
    {
        self.declared.min(Book::DEPENDENCIES)
    }

    // How many transactions of all sorts, no more than there may be.
    pub fn transaction_count(self) -> usize
        ensures { result ≡ transaction_count self }
    {
        let past = saga_at(self, Book::SAGAS);
        let owned = past.first as usize;
        owned.saturating_add(self.plain).min(Book::TRANSACTIONS)
    }
}

// The sort of any number.
pub fn sort_of(tables: Tables, t: usize) -> Sort
    ensures { result ≡ sort_of tables t }
{
    let plain = tables.plain;
    let g = tables.saga_count();
    let mut first: usize = 0;
    for steps in &tables.steps[..g] {
        let n = *steps as usize;
        let next = first + 2 * n;
        if t < next {
            let k = t - first;
            return Sort::within(first, n, k);
        }
        first = next;
    }
    let past = t - first;
    if past < plain {
        return Sort::Plain;
    }
    Sort::Unknown
}

// The first number and the steps of the saga of any index; past the last saga the first number that no saga owns, and no steps.
pub fn saga_at(tables: Tables, index: usize) -> Saga
    ensures { result ≡ saga_of tables index }
{
    let g = tables.saga_count();
    let mut first: usize = 0;
    for (i, steps) in tables.steps[..g].iter().enumerate() {
        let n = *steps as usize;
        if i == index {
            return Saga {
                first: first as u16,
                steps: n as u16,
            };
        }
        first += 2 * n;
    }
    Saga {
        first: first as u16,
        steps: 0,
    }
}

// Refused sagas leave the empty tables.
fn sagas_stopped(fault: Fault) -> SagasRead
    ensures { result ≡ sagas_stopped fault.refusal fault.place }
{
    SagasRead {
        answer: Err(fault),
        tables: Tables::empty(),
    }
}

// The steps of `count` sagas, with the running sum of what they own.
fn sagas_from(book: &[u8], start: usize, most: usize, count: usize) -> SagasRead
    requires { count ≤ most_sagas }
    ensures { result ≡ sagas_from most book.now count start 0 empty_tables }
{
    let mut tables = Tables::empty();
    let mut sum: usize = 0;
    let mut at = start;
    for i in 0..count {
        let (n, next) = match Number::within(book, at, most, 1, Saga::STEPS, Refusal::BadCount) {
            Ok(field) => field,
            Err(fault) => return sagas_stopped(fault),
        };
        let more = sum + 2 * n;
        if Book::TRANSACTIONS < more {
            let refusal = Refusal::BadCount;
            return sagas_stopped(Fault { refusal, place: at });
        }
        tables.steps[i] = n as u8;
        tables.sagas = i + 1;
        sum = more;
        at = next;
    }
    SagasRead {
        answer: Ok((sum, at)),
        tables,
    }
}

// The three fields of a dependency.
#[tactic(auto, unfolding(crate::specs::Reading::entry_at))]
fn entry_at(book: &[u8], at: usize, most: usize) -> EntryRead
    ensures { result ≡ entry_at most book.now at }
{
    let row = Row::read(book, at, most, 3);
    let (_, next) = row.end?;
    let [dependent, base, kind, _] = row.fields;
    let entry = Entry {
        dependent,
        base,
        kind,
    };
    Ok((entry, next))
}

// Whether an entry comes after the last one so far.
#[tactic(auto, unfolding(crate::specs::Dependencies::rises_to))]
fn rises(tables: Tables, entry: Entry) -> bool
    requires { tables.declared ≤ most_dependencies }
    ensures { result ≡ rises_to tables entry.dependent entry.base entry.kind }
{
    let declared = tables.declared;
    if declared == 0 {
        return true;
    }
    let last = tables.dependencies[declared - 1];
    last.rises_to(entry)
}

// Whether known and different transactions depend by a kind that is there and allowed for their sorts; n is how many there are.
fn is_allowed(tables: Tables, n: usize, entry: Entry) -> bool
    ensures { result ≡ allowed tables n entry.dependent entry.base entry.kind }
{
    let dependent = sort_of(tables, entry.dependent);
    let base = sort_of(tables, entry.base);
    ((entry.dependent < n) & (entry.base < n))
        & ((entry.dependent != entry.base)
            & (((1 <= entry.kind) & (entry.kind <= 7))
                & (base.may_base() & dependent.may_depend(entry.kind))))
}

// Whether nothing of refusal 6 holds of an entry; n is how many transactions there are.
#[tactic(auto, unfolding(crate::specs::Dependencies::entry_holds))]
fn entry_holds(tables: Tables, n: usize, entry: Entry) -> bool
    requires { tables.declared ≤ most_dependencies }
    ensures { result ≡ entry_holds tables n entry.dependent entry.base entry.kind }
{
    is_allowed(tables, n, entry) & rises(tables, entry)
}

// Refused tables are the empty tables.
fn refused(fault: Fault) -> TablesRead
    ensures { result ≡ refused fault.refusal fault.place }
{
    TablesRead {
        answer: Err(fault),
        tables: Tables::empty(),
    }
}

// `count` entries into tables that have none; n is how many transactions there are.
fn dependencies_from(
    book: &[u8],
    start: usize,
    most: usize,
    count: usize,
    n: usize,
    first: Tables,
) -> TablesRead
    requires { (count ≤ most_dependencies) × ((n ≤ most_transactions) × (first.declared ≡ 0)) }
    ensures { result ≡ dependencies_from most book.now n count start first }
{
    let mut tables = first;
    let mut at = start;
    for i in 0..count {
        let (entry, next) = match entry_at(book, at, most) {
            Ok(read) => read,
            Err(fault) => return refused(fault),
        };
        let holds = entry_holds(tables, n, entry);
        if !holds {
            let refusal = Refusal::BadDependency;
            return refused(Fault { refusal, place: at });
        }
        tables.dependencies[i] = Dependency {
            dependent: entry.dependent as u8,
            base: entry.base as u8,
            kind: Kind::of(entry.kind),
        };
        tables.declared = i + 1;
        at = next;
    }
    TablesRead {
        answer: Ok(at),
        tables,
    }
}

// For each transaction the set of those that its begin waits for.
fn begin_links(tables: Tables) -> [u64; Book::TRANSACTIONS]
    ensures { (d b : ℕ) → d < most_transactions → b < most_transactions → mem (get_or result d 0) b ≡ begin_link tables d b }
{
    let n = tables.dependency_count();
    let mut links = [0u64; Book::TRANSACTIONS];
    for x in &tables.dependencies[..n] {
        let d = x.dependent as usize;
        let b = x.base as usize;
        if x.kind.is_begin_kind() & (d < Book::TRANSACTIONS) {
            let others = links[d];
            links[d] = sets::with_member(others, b);
        }
    }
    links
}

// The same followed on: each set takes in the sets of those it has.
fn followed(links: [u64; Book::TRANSACTIONS]) -> [u64; Book::TRANSACTIONS]
    ensures { (a b : ℕ) → a < most_transactions → b < most_transactions → mem (get_or result a 0) b ≡ leads_to most_transactions (λ x y. mem (get_or links x 0) y) a b }
{
    let mut rows = links;
    for k in 0..Book::TRANSACTIONS {
        let through = rows[k];
        for row in rows.iter_mut() {
            if sets::member(*row, k) {
                *row |= through;
            }
        }
    }
    rows
}

// Whether begin dependencies lead from a transaction back to itself.
fn has_circle(tables: Tables) -> bool
    ensures { result ≡ has_circle tables }
{
    let declared = tables.declared;
    if declared == 0 {
        return false;
    }
    let links = begin_links(tables);
    let rows = followed(links);
    for (t, row) in rows.iter().enumerate() {
        if sets::member(*row, t) {
            return true;
        }
    }
    false
}

// Tables that were read, unless they go round in a circle and none is permitted; `place` is that of their dependency count.
#[tactic(auto, unfolding(crate::specs::Reading::unless_circle))]
fn unless_circle(circles: Circles, place: usize, read: TablesRead) -> TablesRead
    ensures { result ≡ unless_circle circles place read }
{
    let Circles::Forbidden = circles else {
        return read;
    };
    if read.answer.is_err() {
        return read;
    }
    if has_circle(read.tables) {
        let refusal = Refusal::NeverMoves;
        return refused(Fault { refusal, place });
    }
    read
}

// What follows the sagas, which own `sum` transactions.
#[tactic(auto, unfolding(crate::specs::Reading::rest_from))]
fn rest_from(
    book: &[u8],
    at: usize,
    most: usize,
    sum: usize,
    tables: Tables,
    circles: Circles,
) -> TablesRead
    requires { (sum ≤ most_transactions) × (tables.declared ≡ 0) }
    ensures { result ≡ rest_from circles most book.now at sum tables }
{
    let most_plain = Book::TRANSACTIONS - sum;
    let (plain, p) = match Number::within(book, at, most, 0, most_plain, Refusal::BadCount) {
        Ok(field) => field,
        Err(fault) => return refused(fault),
    };
    let (objects, q) = match Number::within(book, p, most, 0, Book::OBJECTS, Refusal::BadCount) {
        Ok(field) => field,
        Err(fault) => return refused(fault),
    };
    let (count, first) = match Number::within(
        book,
        q,
        most,
        0,
        Book::DEPENDENCIES,
        Refusal::BadCount,
    ) {
        Ok(field) => field,
        Err(fault) => return refused(fault),
    };
    let mut all = tables;
    all.plain = plain;
    all.objects = objects;
    let n = sum + plain;
    let read = dependencies_from(book, first, most, count, n, all);
    unless_circle(circles, q, read)
}

// The largest number that the edition field may hold, in a book of any edition.
fn edition_ceiling() -> usize
    ensures { result ≡ edition_ceiling }
{
    Edition::First.most() as usize
}

// The edition that a book names in its first field, which is always read under the ceiling of the first; where it names none, the book is refused as one of the first.
#[tactic(auto, unfolding(crate::specs::Reading::edition_of))]
pub fn edition_of(book: &[u8]) -> Edition
    ensures { result ≡ edition_of book.now }
{
    let most = edition_ceiling();
    let f = Number::at(book, 0, most);
    match f {
        Ok((n, _)) => Edition::named(n),
        Err(_) => Edition::First,
    }
}

// The tables of a book of this edition, and the place of its first event; or the refusal, with the empty tables.
#[tactic(auto, unfolding(crate::specs::Reading::tables_by))]
pub fn read_tables(book: &[u8], edition: Edition, circles: Circles) -> TablesRead
    ensures { result ≡ tables_by circles edition book.now }
{
    let number = edition.number();
    let low = edition_ceiling();
    let most = edition.most() as usize;
    let (_, p) = match Number::within(book, 0, low, number, number, Refusal::BadEdition) {
        Ok(field) => field,
        Err(fault) => return refused(fault),
    };
    let (count, q) = match Number::within(book, p, most, 0, Book::SAGAS, Refusal::BadCount) {
        Ok(field) => field,
        Err(fault) => return refused(fault),
    };
    let s = sagas_from(book, q, most, count);
    let (sum, after) = match s.answer {
        Ok(owned) => owned,
        Err(fault) => return refused(fault),
    };
    rest_from(book, after, most, sum, s.tables, circles)
}
