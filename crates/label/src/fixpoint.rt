// What the next states say, and the levels of a fixed-point kind.
ghost use Rattle.std.specs.Prelude.{◌≡◌};
ghost use Rattle.label.specs.Words.{row_next, next_word, join_word, levels_word};

use crate::rows::KeptRows;
use table::{Family, Quantifier};

// AX or EX of a set at a state with this row. A state without a next state has neither.
fn row_next(q: Quantifier, row: u32, set: u32) -> bool
    ensures { result ≡ row_next q row set }
{
    match q {
        Quantifier::Every => row != 0 && row & !set == 0,
        Quantifier::Some => row & set != 0,
    }
}

// What a level joins: the sets of a and b, and the states at which the level below is next.
fn join_sets(family: Family, a: u32, b: u32, next: u32) -> u32
    ensures { result ≡ join_word family a b next }
{
    match family {
        Family::Release => b & (a | next),
        Family::Until => b | a & next,
        Family::Eventually => b | next,
        Family::Always => b & next,
    }
}

impl KeptRows {
    #[tactic(auto, unfolding(crate::specs::Words::next_word))]
    pub fn next_states(&self, q: Quantifier, set: u32) -> u32
        ensures { result ≡ next_word q self.now.rows self.now.states set }
    {
        // There are at most 32 states. The bound is said in the code too, so that the compiler can leave out the test
        // of the bound at each state.
        sets::collect(self.states.min(32), |s| row_next(q, self.rows[s], set))
    }

    // Level n of a family, from the set of b, for n states; a level that changes nothing is the last that is needed.
    pub fn fixpoint_states(&self, family: Family, q: Quantifier, a: u32, b: u32) -> u32
        ensures { result ≡ levels_word family q self.now.rows self.now.states a b self.now.states }
    {
        let mut level = b;
        for m in 0..self.states {
            let next = join_sets(family, a, b, self.next_states(q, level));
            if next == level {
                return level;
            }
            level = next;
        }
        level
    }
}
