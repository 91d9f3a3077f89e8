// Accepted operations, how one of them ends and changes hands, the ties between them, and which reads are dirty.
#![tactic(auto)]

ghost use Rattle.std.specs.Prelude.{◌≡◌};
ghost use Rattle.ties.specs.Operations.{is_aborted, is_active, is_committed, most_operations, no_operation, no_ops, size, passed_to, given_to, held_by, ended_as, ended_alone};
ghost use Rattle.ties.specs.Ties.{conflict, tied_to, is_gone, counts, pairs_of, read_by, dirties, waits_for};

use terms::{Book, Mark};

// How an operation stands. A blank place counts as aborted: nothing may end or change it.
#[derive(Clone, Copy)]
pub enum Fate {
    Aborted,
    Active,
    Committed,
}

// An accepted operation; `ended` is how many operations were accepted when it ended.
#[derive(Clone, Copy)]
pub struct Operation {
    pub object: u8,
    pub mark: Mark,
    pub responsible: u16,
    pub fate: Fate,
    pub ended: u16,
}

impl Operation {
    // A book has at most so many.
    pub const MOST: usize = 256;

    pub fn most() -> usize
        ensures { result ≡ most_operations }
    {
        Operation::MOST
    }

    // What stands where no operation was accepted.
    pub fn none() -> Operation
        ensures { result ≡ no_operation }
    {
        Operation {
            object: 0,
            mark: Mark::Read,
            responsible: 0,
            fate: Fate::Aborted,
            ended: 0,
        }
    }

    // With another responsible transaction.
    pub fn passed_to(self, receiver: u16) -> Operation
        ensures { result ≡ passed_to receiver self }
    {
        Operation {
            responsible: receiver,
            ..self
        }
    }

    // The same, where it is active.
    pub fn given_to(self, receiver: u16) -> Operation
        ensures { result ≡ given_to receiver self }
    {
        if self.fate.is_active() {
            return self.passed_to(receiver);
        }
        self
    }

    // Whether it is active and t is responsible for it.
    pub fn held_by(self, t: usize) -> bool
        ensures { result ≡ held_by t self }
    {
        self.fate.is_active() & (self.responsible as usize == t)
    }

    // Ended in this fate when so many operations were accepted.
    pub fn ended_as(self, fate: Fate, accepted: u16) -> Operation
        ensures { result ≡ ended_as fate accepted self }
    {
        Operation {
            fate,
            ended: accepted,
            ..self
        }
    }

    // The same, where it is active.
    pub fn ended_alone(self, fate: Fate, accepted: u16) -> Operation
        ensures { result ≡ ended_alone fate accepted self }
    {
        if self.fate.is_active() {
            return self.ended_as(fate, accepted);
        }
        self
    }

    // Whether it conflicts with an operation on this object: the same object, at least one a write.
    fn conflicts(self, object: usize, mark: Mark) -> bool
        ensures { result ≡ conflict self object mark }
    {
        (self.object as usize == object) & (self.mark.is_write() | mark.is_write())
    }

    // Whether it is tied to q, which is later and numbered j.
    fn tied_to(self, q: Operation, j: usize) -> bool
        ensures { result ≡ tied_to self q j }
    {
        let ended = self.ended as usize;
        self.conflicts(q.object as usize, q.mark) & (!self.fate.is_aborted() | (j < ended))
    }

    // Whether it does not count for the order of transactions: it is aborted, or its numbers are past the limits.
    pub fn is_gone(self) -> bool
        ensures { result ≡ is_gone self }
    {
        let a = self.responsible as usize;
        let o = self.object as usize;
        self.fate.is_aborted() | ((Book::TRANSACTIONS <= a) | (Book::OBJECTS <= o))
    }

    // Whether its tie to the later q counts for the order of transactions.
    fn counts_with(self, q: Operation) -> bool
        ensures { result ≡ counts self q }
    {
        self.conflicts(q.object as usize, q.mark)
            & (!(self.is_gone() | q.is_gone()) & (self.responsible != q.responsible))
    }

    // Whether it is a read that t answers for.
    pub fn read_by(self, t: usize) -> bool
        ensures { result ≡ read_by t self }
    {
        (self.responsible as usize == t) & (!self.mark.is_write() & !self.fate.is_aborted())
    }

    // Whether it is a write tied before the read q, numbered j, and neither committed nor active and t's own.
    pub fn dirties(self, t: usize, q: Operation, j: usize) -> bool
        ensures { result ≡ dirties t q j self }
    {
        let fate = self.fate;
        let a = self.responsible as usize;
        self.mark.is_write()
            & (self.tied_to(q, j) & !(fate.is_committed() | (fate.is_active() & (a == t))))
    }

    // Whether it is active, another's, and in conflict with an operation of t on this object.
    pub fn awaited_by(self, t: usize, object: usize, mark: Mark) -> bool
        ensures { result ≡ waits_for t object mark self }
    {
        let a = self.responsible as usize;
        self.fate.is_active() & ((a != t) & self.conflicts(object, mark))
    }
}

// The operations accepted so far, by their numbers. There is no heap: a fixed array has room for all, and how many there are stands beside it.
#[derive(Clone, Copy)]
pub struct Ops {
    pub all: [Operation; Operation::MOST],
    pub count: usize,
}

impl Fate {
    pub fn is_aborted(self) -> bool
        ensures { result ≡ is_aborted self }
    {
        matches!(self, Fate::Aborted)
    }

    pub fn is_active(self) -> bool
        ensures { result ≡ is_active self }
    {
        matches!(self, Fate::Active)
    }

    pub fn is_committed(self) -> bool
        ensures { result ≡ is_committed self }
    {
        matches!(self, Fate::Committed)
    }
}

impl Ops {
    // Before the first operation.
    pub fn none() -> Ops
        ensures { result ≡ no_ops }
    {
        Ops {
            all: [Operation::none(); Operation::MOST],
            count: 0,
        }
    }

    // How many operations were accepted, no more than there is room for.
    pub fn size(self) -> usize
        ensures { result ≡ size self }
    {
        self.count.min(Operation::MOST)
    }

    // For every ordered pair of transactions, whether the first stands before the second by one tie.
    pub fn pairs(self) -> [[bool; Book::TRANSACTIONS]; Book::TRANSACTIONS]
        ensures { result ≡ pairs_of self }
    {
        let n = self.size();
        let mut table = [[false; Book::TRANSACTIONS]; Book::TRANSACTIONS];
        for j in 0..n {
            let q = self.all[j];
            let b = q.responsible as usize;
            for i in 0..j {
                let p = self.all[i];
                if p.counts_with(q) {
                    let a = p.responsible as usize;
                    table[a][b] = true;
                }
            }
        }
        table
    }
}
