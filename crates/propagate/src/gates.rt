// The gates of a node that has no levels, where their rows lie: one input, two inputs, next states. Those of OR and E
// are those of AND and A with each row turned, so what tells them apart is a bool, as `turn` takes it.
ghost use Rattle.std.specs.Prelude.{◌≡◌, false, true, cond, List, eqb, ℕ, ◌≤◌, ◌<◌, length};
ghost use Rattle.readers.specs.Readers.{words_end};
ghost use Rattle.propagate.specs.Memory.{memory, stepped, node_place, add_row, go_back_more};
ghost use Rattle.propagate.specs.Gates.{one_input_step, both_step, next_step};
ghost use Rattle.propagate.specs.Marked.{RowsMarked};

use crate::back::go_back;
use crate::graph::Graph;
use crate::layout::{add_node, node_row};
use rows::{
    ROW_WORDS, Report, Row, ahead, and_input, and_output, both, is_none, mask, new_of, turn,
};
use table::MOST_NODES;

/// One input: what is known passes both ways.
pub fn one_input_step(
    graph: &Graph,
    rows: &mut [u32; ROW_WORDS],
    looks: &mut [u32],
    i: usize,
    same: bool,
    a: usize,
) -> Report
    requires places { (i < MOST_NODES) × (a < MOST_NODES) }
    requires room { words_end graph.now.readers ≤ length looks.old }
    ensures value { (w : List ℕ) → stepped rows.new w result ≡ one_input_step i same a (memory rows.old w) }
    ensures marked { RowsMarked graph.now.readers looks.old looks.new rows.old rows.new }
    ensures calm { result.changed ≡ false → looks.new ≡ looks.old }
{
    let x = node_row(rows, a);
    let first = add_node(graph, rows, looks, i, turn(same, x));
    let g = node_row(rows, i);
    both(first, add_node(graph, rows, looks, a, turn(same, g)))
}

// AND of two inputs; OR is its dual.
fn both_step(
    graph: &Graph,
    rows: &mut [u32; ROW_WORDS],
    looks: &mut [u32],
    i: usize,
    same: bool,
    a: usize,
    b: usize,
) -> Report
    requires places { (i < MOST_NODES) × ((a < MOST_NODES) × (b < MOST_NODES)) }
    requires room { words_end graph.now.readers ≤ length looks.old }
    ensures value { (w : List ℕ) → stepped rows.new w result ≡ both_step i same a b (memory rows.old w) }
    ensures marked { RowsMarked graph.now.readers looks.old looks.new rows.old rows.new }
    ensures calm { result.changed ≡ false → looks.new ≡ looks.old }
{
    let x = turn(same, node_row(rows, a));
    let y = turn(same, node_row(rows, b));
    let g = and_output(turn(same, node_row(rows, i)), x, y);
    let first = add_node(graph, rows, looks, i, turn(same, g));
    let second = both(
        first,
        add_node(graph, rows, looks, a, turn(same, and_input(g, y))),
    );
    both(
        second,
        add_node(graph, rows, looks, b, turn(same, and_input(g, x))),
    )
}

/// AND or OR of a and b, which may be one node: then the literal that stands twice counts once.
pub fn pair_step(
    graph: &Graph,
    rows: &mut [u32; ROW_WORDS],
    looks: &mut [u32],
    i: usize,
    same: bool,
    a: usize,
    b: usize,
) -> Report
    requires places { (i < MOST_NODES) × ((a < MOST_NODES) × (b < MOST_NODES)) }
    requires room { words_end graph.now.readers ≤ length looks.old }
    ensures value { (w : List ℕ)
        → stepped rows.new w result
        ≡ cond (eqb a b) (one_input_step i true a (memory rows.old w)) (both_step i same a b (memory rows.old w)) }
    ensures marked { RowsMarked graph.now.readers looks.old looks.new rows.old rows.new }
    ensures calm { result.changed ≡ false → looks.new ≡ looks.old }
{
    if a == b {
        return one_input_step(graph, rows, looks, i, true, a);
    }
    both_step(graph, rows, looks, i, same, a, b)
}

// Back from N to the steps and to a, with what is known of N beside what its ends say. `level_back` differs in where
// the end goes: a closure for that would change the rows, and the contract would have to say how.
fn next_back(
    graph: &Graph,
    rows: &mut [u32; ROW_WORDS],
    looks: &mut [u32],
    every: bool,
    more: Row,
    a: usize,
    below: Row,
) -> Report
    requires places { a < MOST_NODES }
    requires room { words_end graph.now.readers ≤ length looks.old }
    ensures value { (w : List ℕ)
        → stepped rows.new w result
        ≡ go_back_more graph.now.targets graph.now.states every more below (add_row (node_place a))
        (memory rows.old w) }
    ensures marked { RowsMarked graph.now.readers looks.old looks.new rows.old rows.new }
    ensures calm { result.changed ≡ false → looks.new ≡ looks.old }
{
    if is_none(more) {
        return Report::default();
    }
    let k = go_back(graph, rows, looks, turn(every, more), turn(every, below));
    both(
        k.report,
        add_node(graph, rows, looks, a, turn(every, k.end)),
    )
}

/// AX; EX is its dual. Of N only the states of a set are looked at.
pub fn next_step(
    graph: &Graph,
    rows: &mut [u32; ROW_WORDS],
    looks: &mut [u32],
    look: u32,
    i: usize,
    every: bool,
    a: usize,
) -> Report
    requires places { (i < MOST_NODES) × (a < MOST_NODES) }
    requires room { words_end graph.now.readers ≤ length looks.old }
    ensures value { (w : List ℕ)
        → stepped rows.new w result ≡ next_step graph.now.targets graph.now.states look i every a (memory rows.old w) }
    ensures marked { RowsMarked graph.now.readers looks.old looks.new rows.old rows.new }
    ensures calm { result.changed ≡ false → looks.new ≡ looks.old }
{
    let below = node_row(rows, a);
    let up = turn(every, ahead(&graph.targets, rows, look, turn(every, below)));
    let first = add_node(graph, rows, looks, i, up);
    let more = new_of(mask(look, node_row(rows, i)), up);
    both(first, next_back(graph, rows, looks, every, more, a, below))
}
