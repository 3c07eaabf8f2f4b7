// All nodes of a table, one after the other.
ghost use Rattle.std.specs.Prelude.{◌≡◌, true, ℕ, ◌≤◌, ◌<◌, length, get_or};
ghost use Rattle.readers.specs.Readers.{word_total};
ghost use Rattle.propagate.specs.Memory.{memory};
ghost use Rattle.closure.specs.Knowledge.{Sized};
ghost use Rattle.events.specs.NetTable.{table_in};
ghost use Rattle.events.specs.Looked.{Looked, CellsOf, NodeCells, Always};

use crate::levels::levels_visit;
use crate::net::Net;
use crate::order::in_order;
use crate::visit::plain_visit;
use closure::is_every;
use propagate::Fixpoint;
use rows::{ROW_WORDS, Report, both};
use table::Operator;

// Whether the words from one place on up to another have no state.
fn are_empty(looks: &[u32], first: usize, end: usize) -> bool
    requires { end ≤ length looks.now }
    ensures { result ≡ true → (k : ℕ) → first ≤ k → k < end → get_or looks.now k 0 ≡ 0 }
{
    for k in first..end {
        if looks[k] != 0 {
            return false;
        }
    }
    true
}

// A node with all its cells. It is read only where one of them is to be looked at.
fn node_visit(
    net: &Net<'_>,
    rows: &mut [u32; ROW_WORDS],
    words: &mut [u32],
    looks: &mut [u32],
    down: bool,
    i: usize,
) -> Report
    requires sized { Sized (table_in net.now) (memory rows.old words.old) }
    requires i_below { i < length (table_in net.now).nodes }
    requires room { word_total (table_in net.now) ≤ length looks.old }
    ensures { Looked (table_in net.now) (CellsOf (table_in net.now) i) Always looks.old looks.new
        (memory rows.old words.old) (memory rows.new words.new) result }
{
    let word = net.graph.readers.first[i];
    let end = net.graph.readers.first[i + 1];
    if are_empty(looks, word, end) {
        return Report::default();
    }
    let operator = Operator::from(net.table.node(i));
    let Operator::Fixpoint(family, q, a, b) = operator else {
        return plain_visit(net, rows, looks, i, operator);
    };
    let every = is_every(q);
    let base = net.bases.at[i];
    let x = Fixpoint {
        family,
        node: i,
        a,
        b,
        every,
        base,
        word,
    };
    levels_visit(net, rows, words, looks, x, down)
}

/// Upward or downward, until something is known both ways. `down` is the order of the same visits, and picks no other
/// step.
pub fn nodes_visit(
    net: &Net<'_>,
    rows: &mut [u32; ROW_WORDS],
    words: &mut [u32],
    looks: &mut [u32],
    down: bool,
) -> Report
    requires sized { Sized (table_in net.now) (memory rows.old words.old) }
    requires room { word_total (table_in net.now) ≤ length looks.old }
    ensures { Looked (table_in net.now) (NodeCells (table_in net.now)) Always looks.old looks.new
        (memory rows.old words.old) (memory rows.new words.new) result }
{
    let f = net.table.node_count();
    let mut report = Report::default();
    for k in 0..f {
        let i = in_order(down, f, k);
        report = both(report, node_visit(net, rows, words, looks, down, i));
        if report.fails {
            return report;
        }
    }
    report
}
