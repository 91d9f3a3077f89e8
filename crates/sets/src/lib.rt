// A set of transactions is held as the bits of one number: bit t is 1 when t is in the set. It has no type of its own: C is given
// such numbers as they are (`desk::pairs`), and `mem`, `inserted` and `less`, which the clauses name, are of a number.
#![tactic(auto)]

ghost use Rattle.std.specs.Prelude.{◌≡◌};
ghost use Rattle.laws.specs.Index.{count_below, first_below};
ghost use Rattle.terms.specs.Limits.{most_transactions};
ghost use Rattle.sets.specs.Sets.{mem, inserted, less};

use terms::Book;

// Whether t is in the set; a number past 63 is in none.
pub fn member(set: u64, t: usize) -> bool
    ensures { result ≡ mem set t }
{
    if Book::TRANSACTIONS <= t {
        return false;
    }
    set >> t & 1 == 1
}

// The set with t too; a number past 63 goes into none.
#[tactic(auto, unfolding(crate::specs::Sets::inserted))]
pub fn with_member(set: u64, t: usize) -> u64
    ensures { result ≡ inserted set t }
{
    if Book::TRANSACTIONS <= t {
        return set;
    }
    set | 1u64 << t
}

// Those in the set that are not among the others.
#[tactic(auto, unfolding(crate::specs::Sets::less))]
pub fn without(set: u64, others: u64) -> u64
    ensures { result ≡ less set others }
{
    set ^ (set & others)
}

// How many are in the set.
pub fn how_many(set: u64) -> usize
    ensures { result ≡ count_below most_transactions (mem set) }
{
    set.count_ones() as usize
}

// The lowest in the set, 64 where there is none. It is no Option: its clause names `first_below`, which is the bound where nothing is found, and C is told the same 64.
pub fn lowest(set: u64) -> usize
    ensures { result ≡ first_below most_transactions (mem set) }
{
    set.trailing_zeros() as usize
}
