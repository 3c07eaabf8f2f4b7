// Where the rows lie: those of the steps out of state s at 2 s, those of the nodes behind them, and that of K at the
// end. They are one array of words, as the lent ones of the levels are, so that one function adds to both and one
// `row_at` reads both; their places are told here and in `rows`.
ghost use Rattle.std.specs.Prelude.{◌≡◌, false, ◌≤◌, ◌<◌, length};
ghost use Rattle.rows.specs.Words.{row_at, row_added, report_of, step_place};
ghost use Rattle.readers.specs.Readers.{words_end};
ghost use Rattle.propagate.specs.Memory.{node_place, kept_place};
ghost use Rattle.propagate.specs.Marked.{RowsMarked};

use crate::adding::{RowOf, add_to};
use crate::graph::Graph;
use rows::{ROW_WORDS, Report, Row, row_at};
use table::{MOST_NODES, MOST_STATES};

/// Where the rows of the nodes lie, from node 0 on, behind those of the steps.
pub const NODE_ROWS: usize = 64;

/// Where the row of K lies, behind those of the nodes.
pub const KEPT_PLACE: usize = 128;

// A node is a plain number, as a state is in `rows`.

/// What is known of X of node i: a bit for each state.
pub fn node_row(rows: &[u32; ROW_WORDS], i: usize) -> Row
    requires { i < MOST_NODES }
    ensures { result ≡ row_at rows.now (node_place i) }
{
    row_at(rows, NODE_ROWS + 2 * i)
}

/// To the row of node i.
pub fn add_node(
    graph: &Graph,
    rows: &mut [u32; ROW_WORDS],
    looks: &mut [u32],
    i: usize,
    x: Row,
) -> Report
    requires i_below { i < MOST_NODES }
    requires room { words_end graph.now.readers ≤ length looks.old }
    ensures value { result ≡ report_of rows.old (node_place i) x }
    ensures rows_after { rows.new ≡ row_added rows.old (node_place i) x }
    ensures marked { RowsMarked graph.now.readers looks.old looks.new rows.old rows.new }
    ensures calm { result.changed ≡ false → looks.new ≡ looks.old }
{
    let place = NODE_ROWS + 2 * i;
    add_to(&graph.readers, rows, place, x, looks, RowOf::Node(i))
}

/// To the row of the steps out of s.
pub fn add_step(
    graph: &Graph,
    rows: &mut [u32; ROW_WORDS],
    looks: &mut [u32],
    s: usize,
    x: Row,
) -> Report
    requires s_below { s < MOST_STATES }
    requires room { words_end graph.now.readers ≤ length looks.old }
    ensures value { result ≡ report_of rows.old (step_place s) x }
    ensures rows_after { rows.new ≡ row_added rows.old (step_place s) x }
    ensures marked { RowsMarked graph.now.readers looks.old looks.new rows.old rows.new }
    ensures calm { result.changed ≡ false → looks.new ≡ looks.old }
{
    add_to(&graph.readers, rows, 2 * s, x, looks, RowOf::Steps(s))
}

/// To the row of K.
pub fn add_kept(graph: &Graph, rows: &mut [u32; ROW_WORDS], looks: &mut [u32], x: Row) -> Report
    requires room { words_end graph.now.readers ≤ length looks.old }
    ensures value { result ≡ report_of rows.old kept_place x }
    ensures rows_after { rows.new ≡ row_added rows.old kept_place x }
    ensures marked { RowsMarked graph.now.readers looks.old looks.new rows.old rows.new }
    ensures calm { result.changed ≡ false → looks.new ≡ looks.old }
{
    add_to(&graph.readers, rows, KEPT_PLACE, x, looks, RowOf::Kept)
}
