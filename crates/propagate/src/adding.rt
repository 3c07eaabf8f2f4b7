// One function adds bits to a row and puts every reader of them into its word. Every rule adds by it. That the words
// to look at have room is asked here and in all that adds: they are lent, and change hands at each call, and a struct
// of them with the fact would be made anew for each.
ghost use Rattle.std.specs.Prelude.{◌≡◌, false, ◌+◌, ◌≤◌, ◌<◌, length};
ghost use Rattle.rows.specs.Words.{row_at, row_added, report_of};
ghost use Rattle.readers.specs.Readers.{words_end};
ghost use Rattle.readers.specs.Marked.{Raised};
ghost use Rattle.propagate.specs.Marked.{HasWord, ReadersMarked, RowMarked};

use readers::{Readers, grown_at, mark_kept, mark_level, mark_node, mark_steps};
use rows::{Report, Row, add, row_at};

/// Whose row it is: that of the steps out of a state, of a node, of K, or of a stored level, which is told by its word.
#[derive(Clone, Copy)]
pub enum RowOf {
    Steps(usize),
    Node(usize),
    Kept,
    Level(usize),
}

// Puts the readers of a row at the states of a set into their words.
fn mark(readers: &Readers, looks: &mut [u32], of: RowOf, set: u32)
    requires has_word { HasWord looks.old of }
    requires room { words_end readers.now ≤ length looks.old }
    ensures raised { Raised looks.old looks.new }
    ensures marked { ReadersMarked readers.now looks.new of set }
{
    match of {
        RowOf::Steps(s) => mark_steps(readers, looks, sets::insert(0, s)),
        RowOf::Node(c) => mark_node(readers, looks, c, set),
        RowOf::Kept => mark_kept(readers, looks, set),
        RowOf::Level(k) => mark_level(readers, looks, k, set),
    }
}

/// Adds what x knows to the row at a place, which is that of `of`, and puts its readers into their words.
pub fn add_to(
    readers: &Readers,
    words: &mut [u32],
    at: usize,
    x: Row,
    looks: &mut [u32],
    of: RowOf,
) -> Report
    requires in_words { at + 1 < length words.old }
    requires has_word { HasWord looks.old of }
    requires room { words_end readers.now ≤ length looks.old }
    ensures value { result ≡ report_of words.old at x }
    ensures words_after { words.new ≡ row_added words.old at x }
    ensures raised { Raised looks.old looks.new }
    ensures marked { RowMarked readers.now looks.new of (row_at words.old at) (row_at words.new at) }
    ensures calm { result.changed ≡ false → looks.new ≡ looks.old }
{
    let old = row_at(words, at);
    let report = add(words, at, x);
    if report.changed {
        mark(readers, looks, of, grown_at(old, x));
    }
    report
}
