// Rules on whole rows: K with the steps out of a state, AND, and the row of a constant.
ghost use Rattle.std.specs.Prelude.{◌≡◌, ◌<◌};
ghost use Rattle.rows.specs.Rules.{kept_row, kept_back, and_output, and_input, constant_row};

use crate::row::{Row, last_left};
use table::MOST_STATES;

/// What the steps out of s add to K.
pub fn kept_row(s: usize, target: u32, step: Row) -> Row
    requires { s < MOST_STATES }
    ensures { result ≡ kept_row s target step }
{
    Row {
        yes: step.yes | sets::insert_if(0, s, step.yes != 0),
        no: sets::insert_if(0, s, target & !step.no == 0),
    }
}

/// What K adds to the steps out of s.
pub fn kept_back(s: usize, target: u32, step: Row, kept: Row) -> Row
    ensures { result ≡ kept_back s target step kept }
{
    let left = target & !step.no;
    let last = last_left(sets::contains(kept.yes, s), left);
    let own = if sets::contains(kept.no, s) {
        target
    } else {
        0
    };
    Row {
        yes: last,
        no: own | target & kept.no,
    }
}

/// What the inputs of an AND add to its output.
pub fn and_output(g: Row, a: Row, b: Row) -> Row
    ensures { result ≡ and_output g a b }
{
    Row {
        yes: g.yes | a.yes & b.yes,
        no: g.no | (a.no | b.no),
    }
}

/// What the output adds to an input beside the other.
pub fn and_input(g: Row, other: Row) -> Row
    ensures { result ≡ and_input g other }
{
    Row {
        yes: g.yes,
        no: g.no & other.yes,
    }
}

/// Of n states, those of a set true and the others false.
pub fn constant_row(n: usize, set: u32) -> Row
    ensures { result ≡ constant_row n set }
{
    Row {
        yes: set,
        no: sets::below(n) & !set,
    }
}
