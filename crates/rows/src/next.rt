// N, the AND over the steps out of a state of: it is struck, or its end has the literal; forward and back.
ghost use Rattle.std.specs.Prelude.{◌≡◌, true, false, get_or};
ghost use Rattle.rows.specs.Row.{known};
ghost use Rattle.rows.specs.Rules.{ahead_at};
ghost use Rattle.rows.specs.Words.{row_at, step_place};
ghost use Rattle.rows.specs.Pushed.{pushed};

use crate::row::{ROW_WORDS, Row, last_left, step_row};
use table::MOST_STATES;

/// N at each state of a set: true where no step is left, false where a kept step's end is known false.
pub fn ahead(targets: &[u32; MOST_STATES], rows: &[u32; ROW_WORDS], set: u32, end: Row) -> Row
    ensures { result ≡ ahead_at (λ s. get_or targets.now s 0) (λ s. row_at rows.now (step_place s)) set end }
{
    let mut yes = 0u32;
    let mut no = 0u32;
    for s in sets::members_of(set) {
        let x = step_row(rows, s);
        let unmet = targets[s] & !(x.no | end.yes);
        yes = sets::insert_if(yes, s, unmet == 0);
        no = sets::insert_if(no, s, x.yes & end.no != 0);
    }
    Row { yes, no }
}

/// What N at one state adds to the steps out of it, and to what is known at their ends.
#[derive(Clone, Copy)]
pub struct Pushed {
    pub steps: Row,
    pub end: Row,
}

/// N at each state is known as `ahead` says.
pub fn push(s: usize, target: u32, step: Row, ahead: Row, end: Row) -> Pushed
    ensures { result ≡ pushed target step end (known ahead true s) (known ahead false s) }
{
    let unmet = target & !(step.no | end.yes);
    let last = last_left(sets::contains(ahead.no, s), unmet);
    if sets::contains(ahead.yes, s) {
        return Pushed {
            steps: Row {
                yes: last,
                no: target & end.no,
            },
            end: Row {
                yes: step.yes,
                no: last,
            },
        };
    }
    Pushed {
        steps: Row { yes: last, no: 0 },
        end: Row { yes: 0, no: last },
    }
}
