// A level of a fixed-point node from what is known around it, by the node's family.
ghost use Rattle.std.specs.Prelude.{◌≡◌, false};
ghost use Rattle.rows.specs.Rules.{join_release, join_always, turn_joined, join_of};

use crate::row::{Row, clashes, new_of, turn, union};
use crate::rules::{and_input, and_output};
use table::Family;

/// What the level and the children a and b get, N with what the level adds to it, that alone, and whether G or N is
/// known both ways. Where it fails the rows are added all the same, so it is no option.
#[derive(Clone, Copy)]
pub struct Joined {
    pub level: Row,
    pub a: Row,
    pub b: Row,
    pub ahead: Row,
    pub more: Row,
    pub fails: bool,
}

// G = a or N, and the level = b and G.
fn join_release(level: Row, a: Row, b: Row, ahead: Row) -> Joined
    ensures { result ≡ join_release level a b ahead }
{
    let either = Row {
        yes: a.yes | ahead.yes | level.yes,
        no: a.no & ahead.no | level.no & b.yes,
    };
    let next = Row {
        yes: ahead.yes | either.yes & a.no,
        no: ahead.no | either.no,
    };
    Joined {
        level: Row {
            yes: b.yes & either.yes,
            no: b.no | either.no,
        },
        a: Row {
            yes: either.yes & ahead.no,
            no: either.no,
        },
        b: Row {
            yes: level.yes,
            no: level.no & either.yes,
        },
        ahead: next,
        more: new_of(next, ahead),
        fails: clashes(either) || clashes(next),
    }
}

// The level = b and N.
fn join_always(level: Row, b: Row, ahead: Row) -> Joined
    ensures { result ≡ join_always level b ahead }
{
    let up = and_output(level, b, ahead);
    let next = union(ahead, and_input(up, b));
    Joined {
        level: up,
        a: Row::default(),
        b: and_input(up, ahead),
        ahead: next,
        more: new_of(next, ahead),
        fails: clashes(next),
    }
}

// The dual of each row.
fn turn_joined(j: Joined) -> Joined
    ensures { result ≡ turn_joined false j }
{
    Joined {
        level: turn(false, j.level),
        a: turn(false, j.a),
        b: turn(false, j.b),
        ahead: turn(false, j.ahead),
        more: turn(false, j.more),
        fails: j.fails,
    }
}

/// Until is the dual of release, and eventually that of always.
pub fn join(family: Family, level: Row, a: Row, b: Row, ahead: Row) -> Joined
    ensures { result ≡ join_of family level a b ahead }
{
    match family {
        Family::Release => join_release(level, a, b, ahead),
        Family::Until => turn_joined(join_release(
            turn(false, level),
            turn(false, a),
            turn(false, b),
            turn(false, ahead),
        )),
        Family::Eventually => turn_joined(join_always(
            turn(false, level),
            turn(false, b),
            turn(false, ahead),
        )),
        Family::Always => join_always(level, b, ahead),
    }
}
