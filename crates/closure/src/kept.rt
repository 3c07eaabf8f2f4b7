// K of each state with its steps, and the demands of the initial states.
ghost use Rattle.std.specs.Prelude.{◌≡◌, false, List, ℕ, ◌≤◌, ◌<◌, length};
ghost use Rattle.readers.specs.Readers.{words_end};
ghost use Rattle.closure.specs.MemoryRules.{kept_step, start_step};
ghost use Rattle.propagate.specs.Memory.{memory, stepped};
ghost use Rattle.propagate.specs.Marked.{RowsMarked};

use propagate::{Graph, KEPT_PLACE, add_kept, add_node, add_step, node_row};
use rows::{ROW_WORDS, Report, Row, both, kept_back, kept_row, last_left, row_at, step_row};
use table::{MOST_NODES, MOST_STATES};

/// K of s with the steps out of s, forward and back.
pub fn kept_step(graph: &Graph, rows: &mut [u32; ROW_WORDS], looks: &mut [u32], s: usize) -> Report
    requires s_below { s < MOST_STATES }
    requires room { words_end graph.now.readers ≤ length looks.old }
    ensures value { (w : List ℕ) → stepped rows.new w result ≡ kept_step graph.now.targets s (memory rows.old w) }
    ensures marked { RowsMarked graph.now.readers looks.old looks.new rows.old rows.new }
    ensures calm { result.changed ≡ false → looks.new ≡ looks.old }
{
    let target = graph.targets[s];
    let x = step_row(rows, s);
    let k = row_at(rows, KEPT_PLACE);
    let first = add_kept(graph, rows, looks, kept_row(s, target, x));
    both(
        first,
        add_step(graph, rows, looks, s, kept_back(s, target, x, k)),
    )
}

/// An initial state is kept, and the root holds at each that is.
pub fn start_step(
    graph: &Graph,
    rows: &mut [u32; ROW_WORDS],
    looks: &mut [u32],
    initial: u32,
    root: usize,
) -> Report
    requires root_below { root < MOST_NODES }
    requires room { words_end graph.now.readers ≤ length looks.old }
    ensures value { (w : List ℕ) → stepped rows.new w result ≡ start_step initial root (memory rows.old w) }
    ensures marked { RowsMarked graph.now.readers looks.old looks.new rows.old rows.new }
    ensures calm { result.changed ≡ false → looks.new ≡ looks.old }
{
    let k = row_at(rows, KEPT_PLACE);
    let x = node_row(rows, root);
    let left = initial & !k.no;
    let start = Report {
        fails: left == 0,
        ..Report::default()
    };
    let kept = Row {
        yes: last_left(true, left),
        no: x.no & initial,
    };
    let first = both(start, add_kept(graph, rows, looks, kept));
    let holds = Row {
        yes: k.yes & initial,
        no: 0,
    };
    both(first, add_node(graph, rows, looks, root, holds))
}
