// A row: what is known of one kind of variable, a bit for each state.
ghost use Rattle.std.specs.Prelude.{◌≡◌, ◌+◌, ◌<◌, ◌&&◌, cond, length};
ghost use Rattle.rows.specs.Row.{turn, only, union, clashes};
ghost use Rattle.rows.specs.Rules.{masked, new_of, is_none};
ghost use Rattle.rows.specs.Words.{row_at, row_added, report_of, both_reports, quiet, step_place};

use table::MOST_STATES;

/// How many words the rows are, two words a row: of the steps out of each state, of each node, and of K.
pub const ROW_WORDS: usize = 130;

/// The states where the variable is known true, and those where it is known false.
#[derive(Clone, Copy, PartialEq, Eq, Default)]
pub struct Row {
    pub yes: u32,
    pub no: u32,
}

/// What a rule did: whether it added a bit, and whether something is now known both ways. By default it did neither. A
/// rule that fails may still have added bits, so these are two flags.
#[derive(Clone, Copy, PartialEq, Eq, Default)]
pub struct Report {
    pub changed: bool,
    pub fails: bool,
}

/// The row itself, or its dual, known true and known false exchanged.
pub fn turn(same: bool, r: Row) -> Row
    ensures { result ≡ turn same r }
{
    if same {
        return r;
    }
    Row {
        yes: r.no,
        no: r.yes,
    }
}

/// What two rules did, one after the other.
pub fn both(a: Report, b: Report) -> Report
    ensures { result ≡ both_reports a b }
{
    Report {
        changed: a.changed | b.changed,
        fails: a.fails | b.fails,
    }
}

/// Whether nothing was added and nothing is known both ways.
pub fn is_quiet(r: Report) -> bool
    ensures { result ≡ quiet r }
{
    !(r.changed | r.fails)
}

/// All that either row knows.
pub fn union(r: Row, q: Row) -> Row
    ensures { result ≡ union r q }
{
    Row {
        yes: r.yes | q.yes,
        no: r.no | q.no,
    }
}

/// Whether something is known both ways.
pub fn clashes(r: Row) -> bool
    ensures { result ≡ clashes r }
{
    r.yes & r.no != 0
}

/// What r knows that q does not.
pub fn new_of(r: Row, q: Row) -> Row
    ensures { result ≡ new_of r q }
{
    Row {
        yes: r.yes & !q.yes,
        no: r.no & !q.no,
    }
}

/// What r knows of the states of a set.
pub fn mask(set: u32, r: Row) -> Row
    ensures { result ≡ masked set r }
{
    Row {
        yes: r.yes & set,
        no: r.no & set,
    }
}

/// Whether the row knows nothing.
pub fn is_none(r: Row) -> bool
    ensures { result ≡ is_none r }
{
    r.yes | r.no == 0
}

/// Whether the set has exactly one member.
pub fn is_only(set: u32) -> bool
    ensures { result ≡ only set }
{
    set != 0 && sets::remove(set, sets::lowest(set)) == 0
}

/// The last one left, where one has to be taken; else none.
pub fn last_left(forced: bool, left: u32) -> u32
    ensures { result ≡ cond (forced && only left) left 0 }
{
    if forced && is_only(left) { left } else { 0 }
}

/// The row of the words at a place and at the next.
pub fn row_at(words: &[u32], at: usize) -> Row
    requires { at + 1 < length words.now }
    ensures { result ≡ row_at words.now at }
{
    Row {
        yes: words[at],
        no: words[at + 1],
    }
}

/// Adds what a row knows to the row of the words at a place and at the next.
pub fn add(words: &mut [u32], at: usize, x: Row) -> Report
    requires { at + 1 < length words.old }
    ensures value { result ≡ report_of words.old at x }
    ensures words_after { words.new ≡ row_added words.old at x }
{
    let old = row_at(words, at);
    let all = union(old, x);
    words[at] = all.yes;
    words[at + 1] = all.no;
    Report {
        changed: all != old,
        fails: clashes(all),
    }
}

// A state is a plain number, with its bound in the contracts: it is a field of a record or counted by a loop, and a
// type of its own would be made anew at each call.

/// The row of the steps out of s: a bit for each end.
pub fn step_row(rows: &[u32; ROW_WORDS], s: usize) -> Row
    requires { s < MOST_STATES }
    ensures { result ≡ row_at rows.now (step_place s) }
{
    row_at(rows, 2 * s)
}
