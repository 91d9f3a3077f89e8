// The words of the rules that every crate uses: what a book and a saga are limited to, what an event is, why something is refused, and what a
// verdict is.
#![tactic(auto)]

ghost use Rattle.std.specs.Prelude.{◌≡◌};
ghost use Rattle.terms.specs.Limits.{limits};
ghost use Rattle.terms.specs.Events.{is_write};
ghost use Rattle.terms.specs.Refusals.{number_of, refusal_in, verdict_number};

// A book: the bytes in which a service keeps its tables and its events. Its limits are these.
#[derive(Clone, Copy)]
pub struct Book;

impl Book {
    pub const BYTES: usize = 65536;

    pub const SAGAS: usize = 16;

    pub const TRANSACTIONS: usize = 64;

    pub const OBJECTS: usize = 32;

    pub const DEPENDENCIES: usize = 128;
}

// A saga of a book: its own number, which is the first of the numbers it owns, and how many steps it has.
#[derive(Clone, Copy)]
pub struct Saga {
    pub first: u16,
    pub steps: u16,
}

impl Saga {
    pub const STEPS: usize = 16;
}

// The limits side by side, as a caller may want to show them.
#[derive(Drop)]
pub struct Limits {
    pub bytes: usize,
    pub sagas: usize,
    pub steps: usize,
    pub transactions: usize,
    pub objects: usize,
    pub dependencies: usize,
}

impl Limits {
    // Each constant is the limit that the definitions name.
    pub fn all() -> Limits
        ensures { result ≡ limits }
    {
        Limits {
            bytes: Book::BYTES,
            sagas: Book::SAGAS,
            steps: Saga::STEPS,
            transactions: Book::TRANSACTIONS,
            objects: Book::OBJECTS,
            dependencies: Book::DEPENDENCIES,
        }
    }
}

// What an operation does to its object.
#[derive(Clone, Copy, PartialEq, Eq)]
pub enum Mark {
    Read,
    Write,
}

impl Mark {
    pub fn is_write(self) -> bool
        ensures { result ≡ is_write self }
    {
        matches!(self, Mark::Write)
    }
}

// One event of a book: its sort with its fields.
#[derive(Clone, Copy)]
pub enum Event {
    Begin(usize),
    Commit(usize),
    Abort(usize),
    Operation(usize, usize, Mark),
    Delegate(usize, usize, usize),
    CommitOne(usize, usize),
    AbortOne(usize, usize),
    Spawn(usize, usize),
}

// Why a book, an event or a room is refused: one case for each number of the table of refusals.
#[derive(Clone, Copy, PartialEq, Eq)]
pub enum Refusal {
    TooLong,
    Torn,
    BadNumber,
    BadEdition,
    BadCount,
    BadDependency,
    BadCode,
    NotInTables,
    NeverDoes,
    NotIdle,
    NotActive,
    NotResponsible,
    SagaRule,
    DependencyRule,
    DirtyRead,
    OnRing,
    MustWait,
    Full,
    NoRoom,
    AlreadyEnded,
    NeverMoves,
    UndoOnRing,
}

impl Refusal {
    // The number that the table of refusals gives it. It is a method and no `From`, since the lists of promises name it, `Refusal::number`, with the definition of its clause, `number_of`.
    pub fn number(self) -> u8
        ensures { result ≡ number_of self }
    {
        match self {
            Refusal::TooLong => 1,
            Refusal::Torn => 2,
            Refusal::BadNumber => 3,
            Refusal::BadEdition => 4,
            Refusal::BadCount => 5,
            Refusal::BadDependency => 6,
            Refusal::BadCode => 7,
            Refusal::NotInTables => 8,
            Refusal::NeverDoes => 9,
            Refusal::NotIdle => 10,
            Refusal::NotActive => 11,
            Refusal::NotResponsible => 12,
            Refusal::SagaRule => 13,
            Refusal::DependencyRule => 14,
            Refusal::DirtyRead => 15,
            Refusal::OnRing => 16,
            Refusal::MustWait => 17,
            Refusal::Full => 18,
            Refusal::NoRoom => 19,
            Refusal::AlreadyEnded => 20,
            Refusal::NeverMoves => 21,
            Refusal::UndoOnRing => 22,
        }
    }
}

// A number that the table of refusals gives to none.
#[derive(Clone, Copy, PartialEq, Eq)]
pub struct NoRefusal {
    pub number: u64,
}

// The refusal that a number names, and none for a number outside the table.
impl TryFrom<u64> for Refusal {
    type Error = NoRefusal;

    ghost try_from_gives = { λ n r. r ≡ refusal_in n };

    #[tactic(auto, unfolding(crate::specs::Refusals::refusal_in))]
    fn try_from(n: u64) -> Result<Refusal, NoRefusal> {
        match n {
            1 => Ok(Refusal::TooLong),
            2 => Ok(Refusal::Torn),
            3 => Ok(Refusal::BadNumber),
            4 => Ok(Refusal::BadEdition),
            5 => Ok(Refusal::BadCount),
            6 => Ok(Refusal::BadDependency),
            7 => Ok(Refusal::BadCode),
            8 => Ok(Refusal::NotInTables),
            9 => Ok(Refusal::NeverDoes),
            10 => Ok(Refusal::NotIdle),
            11 => Ok(Refusal::NotActive),
            12 => Ok(Refusal::NotResponsible),
            13 => Ok(Refusal::SagaRule),
            14 => Ok(Refusal::DependencyRule),
            15 => Ok(Refusal::DirtyRead),
            16 => Ok(Refusal::OnRing),
            17 => Ok(Refusal::MustWait),
            18 => Ok(Refusal::Full),
            19 => Ok(Refusal::NoRoom),
            20 => Ok(Refusal::AlreadyEnded),
            21 => Ok(Refusal::NeverMoves),
            22 => Ok(Refusal::UndoOnRing),
            _ => Err(NoRefusal { number: n }),
        }
    }
}

// What judging answers. It is no Result: theorems speak of `Accepted` and `Refused`, such as `AcceptedWhen` of `histories` and `NextAccepted` of `desk`, and reading on goes past a refused event as past
// an accepted one, so that no caller would pass the refusal on by `?`.
#[derive(Clone, Copy, PartialEq, Eq)]
pub enum Verdict {
    Accepted,
    Refused(Refusal),
}

impl Verdict {
    // The number of its refusal, 0 for accepted; a method by its name, `Verdict::number`, as that of a refusal is.
    pub fn number(self) -> u8
        ensures { result ≡ verdict_number self }
    {
        match self {
            Verdict::Accepted => 0,
            Verdict::Refused(refusal) => refusal.number(),
        }
    }
}
