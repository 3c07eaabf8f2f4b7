// Sets read off the state records.
ghost use Rattle.std.specs.Prelude.{◌≡◌, ◌≤◌, ◌||◌, ℕ, eqb};
ghost use Rattle.sets.specs.Member.{member, set_of};
ghost use Rattle.table.specs.StateSets.{initial_word, labelled_word};

use crate::record::{State, record_at};

/// The initial states among the first n of a section of states, as a set.
pub fn initial_states(states: &[u8], n: usize) -> u32
    requires { n ≤ 32 }
    ensures { result ≡ initial_word states.now n }
{
    sets::collect(n, |s| record_at::<State>(states, s).initial == 1)
}

// Whether p is in a set, where `only` is the set of p alone: no branch hangs on the set's bits.
fn has_only(set: u32, only: u32) -> bool
    ensures { (p : ℕ) → only ≡ set_of 32 (λ t. member 0 t || eqb t p) → result ≡ member set p }
{
    sets::intersection(set, only) != 0
}

/// The states among the first n of a section of states that have proposition p in their label, as a set.
pub fn labelled_states(states: &[u8], n: usize, p: usize) -> u32
    requires { n ≤ 32 }
    ensures { result ≡ labelled_word states.now n p }
{
    let only = sets::insert(0, p);
    sets::collect(n, |s| {
        has_only(record_at::<State>(states, s).label as u32, only)
    })
}
