// The step rows: what is known of each step.
ghost use Rattle.std.specs.Prelude.{◌≡◌, ◌<◌};
ghost use Rattle.rows.specs.Steps.{word_of, step_bit, step_settled};

use crate::row::ROW_WORDS;
use table::{MOST_STATES, Step};

/// The word of the steps out of s that are kept, or of those that are struck.
pub fn word_of(s: usize, kept: bool) -> usize
    requires { s < MOST_STATES }
    ensures { result ≡ word_of kept s }
{
    if kept { 2 * s } else { 2 * s + 1 }
}

/// Whether the step is known kept, or known struck.
pub fn is_known(rows: &[u32; ROW_WORDS], x: Step, kept: bool) -> bool
    requires { x.from < MOST_STATES }
    ensures { result ≡ step_bit rows.now kept x }
{
    let at = word_of(x.from, kept);
    sets::contains(rows[at], x.to)
}

/// Whether the step is known either way.
pub fn is_settled(rows: &[u32; ROW_WORDS], x: Step) -> bool
    requires { x.from < MOST_STATES }
    ensures { result ≡ step_settled rows.now x }
{
    is_known(rows, x, true) || is_known(rows, x, false)
}
