// Sets of states, a bit for each of 32. A state is a plain number, and one from 32 on is in no set.
#![tactic(auto)]

ghost use Rattle.std.specs.Prelude.{◌≡◌, ◌≤◌, ◌<◌, ℕ, Bool, not, ◌&&◌, ◌||◌, eqb, ltb};
ghost use Rattle.sets.specs.Member.{member, set_of, count_of, lowest_of};

mod members;

pub use members::{Members, members_of};

/// Whether the state s is in the set. No state from 32 on is.
pub fn contains(set: u32, s: usize) -> bool
    ensures { result ≡ member set s }
{
    if s < 32 { set >> s & 1 == 1 } else { false }
}

/// The set with the state s. A state from 32 on leaves it as it is.
pub fn insert(set: u32, s: usize) -> u32
    ensures { result ≡ set_of 32 (λ t. member set t || eqb t s) }
{
    if s < 32 { set | 1 << s } else { set }
}

/// The set with the state s where `yes` is true, and as it is where not.
pub fn insert_if(set: u32, s: usize, yes: bool) -> u32
    ensures { result ≡ set_of 32 (λ t. member set t || (yes && eqb t s)) }
{
    if yes {
        return insert(set, s);
    }
    set
}

/// The states below n, at most 32, that pass a test. The test is asked once for each, in ascending order.
// Counts and states are plain numbers here and above, with their bounds in the clauses: they are fields of records or
// counted by loops, and a type of its own would be made anew at each call.
#[tactic(auto, using(crate::proofs::Collecting::collect), unfolding(crate::specs::Member::set_of))]
pub fn collect<F: Fn(usize) -> bool>(n: usize, test: F) -> u32
    requires few { n ≤ 32 }
    requires callable { (s : ℕ) → s < n → F.pre test s }
    ensures { (P : ℕ → Bool) → ((s : ℕ) (b : Bool) → s < n → F.post test s b → b ≡ P s) → result ≡ set_of n P }
{
    let mut set = 0u32;
    for s in 0..n {
        set = insert_if(set, s, test(s));
    }
    set
}

/// The set without the state s. A state from 32 on leaves it as it is.
pub fn remove(set: u32, s: usize) -> u32
    ensures { result ≡ set_of 32 (λ t. member set t && not (eqb t s)) }
{
    if s < 32 { set & !(1 << s) } else { set }
}

/// The first n states: all 32 for an n from 32 on.
pub fn below(n: usize) -> u32
    ensures { result ≡ set_of 32 (λ t. ltb t n) }
{
    if n < 32 { (1 << n) - 1 } else { 0xffff_ffff }
}

/// The states of a that are not in b.
pub fn minus(a: u32, b: u32) -> u32
    ensures { result ≡ set_of 32 (λ t. member a t && not (member b t)) }
{
    a & !b
}

/// The states of a and those of b.
pub fn union(a: u32, b: u32) -> u32
    ensures { result ≡ set_of 32 (λ t. member a t || member b t) }
{
    a | b
}

/// The states that a and b share.
pub fn intersection(a: u32, b: u32) -> u32
    ensures { result ≡ set_of 32 (λ t. member a t && member b t) }
{
    a & b
}

/// How many states the set has: at most 32.
pub fn count(set: u32) -> u32
    ensures { result ≡ count_of 32 (member set) }
{
    u32::count_ones(set)
}

/// The lowest state of the set, or 32 where it is empty.
// No Option: whoever asks has found a member already, and `members_of` gives them as Options.
pub fn lowest(set: u32) -> usize
    ensures { result ≡ lowest_of 32 (member set) }
{
    u32::trailing_zeros(set) as usize
}
