// A level of a fixed-point node: level 0 is the row of b and level n that of the node, the others lie in the lent
// words from `base` on, two words a row, for C lends single ones. The words of the states to look at begin at `word`:
// those of the levels 1 to n.
ghost use Rattle.std.specs.Prelude.{◌≡◌, false, ◌≤◌, ◌<◌, length};
ghost use Rattle.readers.specs.Readers.{words_end};
ghost use Rattle.propagate.specs.Memory.{memory, stepped, go_back_more};
ghost use Rattle.propagate.specs.Level.{level_at, add_level, add_joined, joined_at, level_step, Fits, HasWords};
ghost use Rattle.propagate.specs.Marked.{RowsMarked, LevelsMarked};

use crate::adding::{RowOf, add_to};
use crate::back::go_back;
use crate::graph::Graph;
use crate::layout::{add_node, node_row};
use rows::{Joined, ROW_WORDS, Report, Row, ahead, both, is_none, join, mask, row_at, turn};
use table::Family;

// That a fixed point fits the memory (`Fits`), and that a level is one of its n, is asked in the contracts and is no
// invariant: `Fits` speaks of the lent words too, which change hands at each call, and the definitions speak of fixed
// points anywhere. Graph, rows, words, fixed point and level are handed on one by one, since some are changed and
// some are lent in parts. `every` is a bool, as `turn` takes it.

/// A fixed-point node: its family, its number and children, whether it is of every path, where its levels lie, and
/// where their words do.
#[derive(Clone, Copy)]
pub struct Fixpoint {
    pub family: Family,
    pub node: usize,
    pub a: usize,
    pub b: usize,
    pub every: bool,
    pub base: usize,
    pub word: usize,
}

/// The row of level m, of the levels 0 to n.
pub fn level_row(rows: &[u32; ROW_WORDS], words: &[u32], n: usize, x: Fixpoint, m: usize) -> Row
    requires fits { Fits n x rows.now words.now }
    requires m_le_n { m ≤ n }
    ensures { result ≡ level_at n x m (memory rows.now words.now) }
{
    if m == 0 {
        return node_row(rows, x.b);
    }
    if m == n {
        return node_row(rows, x.node);
    }
    row_at(words, x.base + 2 * (m - 1))
}

fn add_level(
    graph: &Graph,
    rows: &mut [u32; ROW_WORDS],
    words: &mut [u32],
    looks: &mut [u32],
    x: Fixpoint,
    m: usize,
    r: Row,
) -> Report
    requires fits { Fits graph.now.states x rows.old words.old }
    requires has_words { HasWords graph.now.states x looks.old }
    requires room { words_end graph.now.readers ≤ length looks.old }
    requires m_le_n { m ≤ graph.now.states }
    ensures value { stepped rows.new words.new result ≡ add_level graph.now.states x m r (memory rows.old words.old) }
    ensures marked { RowsMarked graph.now.readers looks.old looks.new rows.old rows.new }
    ensures calm { result.changed ≡ false → looks.new ≡ looks.old }
    ensures levels { LevelsMarked graph.now.readers graph.now.states x looks.old looks.new words.old words.new }
{
    if m == 0 {
        return add_node(graph, rows, looks, x.b, r);
    }
    if m == graph.states {
        return add_node(graph, rows, looks, x.node, r);
    }
    let place = x.base + 2 * (m - 1);
    let word = x.word + (m - 1);
    add_to(&graph.readers, words, place, r, looks, RowOf::Level(word))
}

// What is known around level m + 1 at the states of a set, joined: the level, a and b, and N over the level below.
fn joined_at(
    graph: &Graph,
    rows: &[u32; ROW_WORDS],
    words: &[u32],
    x: Fixpoint,
    m: usize,
    look: u32,
    below: Row,
) -> Joined
    requires fits { Fits graph.now.states x rows.now words.now }
    requires m_lt_n { m < graph.now.states }
    ensures { result ≡ joined_at graph.now.targets graph.now.states x m look below (memory rows.now words.now) }
{
    let every = x.every;
    let up = turn(every, ahead(&graph.targets, rows, look, turn(every, below)));
    let level = mask(look, level_row(rows, words, graph.states, x, m + 1));
    let a = mask(look, node_row(rows, x.a));
    let b = mask(look, node_row(rows, x.b));
    let family = x.family;
    join(family, level, a, b, up)
}

// Adds what the join gives to the level, a and b.
fn add_joined(
    graph: &Graph,
    rows: &mut [u32; ROW_WORDS],
    words: &mut [u32],
    looks: &mut [u32],
    x: Fixpoint,
    m: usize,
    j: Joined,
) -> Report
    requires fits { Fits graph.now.states x rows.old words.old }
    requires has_words { HasWords graph.now.states x looks.old }
    requires room { words_end graph.now.readers ≤ length looks.old }
    requires m_lt_n { m < graph.now.states }
    ensures value { stepped rows.new words.new result
        ≡ add_joined graph.now.targets graph.now.states x m j (memory rows.old words.old) }
    ensures marked { RowsMarked graph.now.readers looks.old looks.new rows.old rows.new }
    ensures calm { result.changed ≡ false → looks.new ≡ looks.old }
    ensures levels { LevelsMarked graph.now.readers graph.now.states x looks.old looks.new words.old words.new }
{
    let start = Report {
        fails: j.fails,
        ..Report::default()
    };
    let first = both(
        start,
        add_level(graph, rows, words, looks, x, m + 1, j.level),
    );
    let second = both(first, add_node(graph, rows, looks, x.a, j.a));
    both(second, add_node(graph, rows, looks, x.b, j.b))
}

// Back from N to the steps and the level below, with what is known of N beside what its ends say.
fn level_back(
    graph: &Graph,
    rows: &mut [u32; ROW_WORDS],
    words: &mut [u32],
    looks: &mut [u32],
    x: Fixpoint,
    m: usize,
    more: Row,
    below: Row,
) -> Report
    requires fits { Fits graph.now.states x rows.old words.old }
    requires has_words { HasWords graph.now.states x looks.old }
    requires room { words_end graph.now.readers ≤ length looks.old }
    requires m_lt_n { m < graph.now.states }
    ensures value { stepped rows.new words.new result
        ≡ go_back_more graph.now.targets graph.now.states x.every more below (add_level graph.now.states x m)
        (memory rows.old words.old) }
    ensures marked { RowsMarked graph.now.readers looks.old looks.new rows.old rows.new }
    ensures calm { result.changed ≡ false → looks.new ≡ looks.old }
    ensures levels { LevelsMarked graph.now.readers graph.now.states x looks.old looks.new words.old words.new }
{
    if is_none(more) {
        return Report::default();
    }
    let every = x.every;
    let k = go_back(graph, rows, looks, turn(every, more), turn(every, below));
    both(
        k.report,
        add_level(graph, rows, words, looks, x, m, turn(every, k.end)),
    )
}

/// Level m + 1 over level m, at the states of a set.
pub fn level_step(
    graph: &Graph,
    rows: &mut [u32; ROW_WORDS],
    words: &mut [u32],
    looks: &mut [u32],
    x: Fixpoint,
    m: usize,
    look: u32,
) -> Report
    requires fits { Fits graph.now.states x rows.old words.old }
    requires has_words { HasWords graph.now.states x looks.old }
    requires room { words_end graph.now.readers ≤ length looks.old }
    requires m_lt_n { m < graph.now.states }
    ensures value { stepped rows.new words.new result
        ≡ level_step graph.now.targets graph.now.states x m look (memory rows.old words.old) }
    ensures marked { RowsMarked graph.now.readers looks.old looks.new rows.old rows.new }
    ensures calm { result.changed ≡ false → looks.new ≡ looks.old }
    ensures levels { LevelsMarked graph.now.readers graph.now.states x looks.old looks.new words.old words.new }
{
    let below = level_row(rows, words, graph.states, x, m);
    let j = joined_at(graph, rows, words, x, m, look, below);
    let first = add_joined(graph, rows, words, looks, x, m, j);
    both(
        first,
        level_back(graph, rows, words, looks, x, m, j.more, below),
    )
}
