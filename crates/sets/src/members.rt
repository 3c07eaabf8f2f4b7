// Going through the members of a set.
ghost use Rattle.std.specs.Prelude.{◌≡◌};
ghost use Rattle.std.specs.Iterator.{at_most};
ghost use Rattle.sets.specs.Member.{member, count_of, NextMember};

use crate::{lowest, remove};

/// An iterator over the members of a set, ascending. `left` has those that are still to come.
#[derive(Drop)]
pub struct Members {
    pub left: u32,
}

/// The members of the set, ascending, each once.
pub fn members_of(set: u32) -> Members
    ensures { result.left ≡ set }
{
    Members { left: set }
}

impl Iterator for Members {
    type Item = usize;

    ghost next_gives = { λ s member t. NextMember s.left member t.left };

    ghost remaining = { λ s. at_most (count_of 32 (member s.left)) };

    fn next(&mut self) -> Option<usize> {
        if self.left == 0 {
            return None;
        }
        let s = lowest(self.left);
        self.left = remove(self.left, s);
        Some(s)
    }
}
