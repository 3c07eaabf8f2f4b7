// Looks at the cells of K, at the initial states, or at those of a node without levels. What is added puts its
// readers into their words; a word whose cells had nothing to add is emptied.
ghost use Rattle.std.specs.Prelude.{◌≡◌, true, false, List, ℕ, ◌≤◌, ◌<◌, length};
ghost use Rattle.sets.specs.Member.{member};
ghost use Rattle.ctl.specs.Rule.{operator_of};
ghost use Rattle.table.specs.Table.{node_at};
ghost use Rattle.readers.specs.Reads.{has_levels};
ghost use Rattle.readers.specs.Readers.{word_total};
ghost use Rattle.propagate.specs.Memory.{memory};
ghost use Rattle.propagate.specs.Marked.{RowsMarked};
ghost use Rattle.closure.specs.Knowledge.{Sized};
ghost use Rattle.closure.specs.Rest.{RestStart};
ghost use Rattle.events.specs.NetTable.{table_in};
ghost use Rattle.events.specs.Looked.{Looked, CellsOf, KeptAlone, Always};

use crate::net::Net;
use closure::{kept_step, node_step, start_step};
use readers::KEPT_WORD;
use rows::{ROW_WORDS, Report, both, is_quiet};
use table::Operator;

// K at each state of a set, until something is known both ways.
fn visit_kept_states(
    net: &Net<'_>,
    rows: &mut [u32; ROW_WORDS],
    looks: &mut [u32],
    look: u32,
) -> Report
    requires inside { (s : ℕ) → member look s ≡ true → s < length (table_in net.now).states }
    requires room { word_total (table_in net.now) ≤ length looks.old }
    ensures kept { (w : List ℕ) → Sized (table_in net.now) (memory rows.old w)
        → KeptAlone (table_in net.now) look (memory rows.old w) (memory rows.new w) result }
    ensures marked { RowsMarked net.now.graph.readers looks.old looks.new rows.old rows.new }
    ensures calm { result.changed ≡ false → looks.new ≡ looks.old }
{
    let mut report = Report::default();
    for s in sets::members_of(look) {
        report = both(report, kept_step(&net.graph, rows, looks, s));
        if report.fails {
            return report;
        }
    }
    report
}

/// K, at the states of its word.
pub fn kept_visit(net: &Net<'_>, rows: &mut [u32; ROW_WORDS], looks: &mut [u32]) -> Report
    requires room { word_total (table_in net.now) ≤ length looks.old }
    ensures { (w : List ℕ) → Sized (table_in net.now) (memory rows.old w)
        → Looked (table_in net.now) (λ k. k ≡ KEPT_WORD) Always looks.old looks.new
        (memory rows.old w) (memory rows.new w) result }
{
    let look = looks[KEPT_WORD] & sets::below(net.graph.states);
    let report = visit_kept_states(net, rows, looks, look);
    if !is_quiet(report) {
        return report;
    }
    looks[KEPT_WORD] = 0;
    report
}

/// The demands of the initial states.
pub fn start_visit(net: &Net<'_>, rows: &mut [u32; ROW_WORDS], looks: &mut [u32]) -> Report
    requires room { word_total (table_in net.now) ≤ length looks.old }
    ensures { (w : List ℕ) → Sized (table_in net.now) (memory rows.old w)
        → Looked (table_in net.now) (λ k. ⊥) (RestStart (table_in net.now)) looks.old looks.new (memory rows.old w)
        (memory rows.new w) result }
{
    let root = net.table.node_count() - 1;
    start_step(&net.graph, rows, looks, net.initial, root)
}

/// A node without levels, at the states of its word.
pub fn plain_visit(
    net: &Net<'_>,
    rows: &mut [u32; ROW_WORDS],
    looks: &mut [u32],
    i: usize,
    operator: Operator,
) -> Report
    requires i_below { i < length (table_in net.now).nodes }
    requires is_operator { operator ≡ operator_of (node_at (table_in net.now) i) }
    requires plain { has_levels operator ≡ false }
    requires room { word_total (table_in net.now) ≤ length looks.old }
    ensures { (w : List ℕ) → Sized (table_in net.now) (memory rows.old w)
        → Looked (table_in net.now) (CellsOf (table_in net.now) i) Always looks.old looks.new (memory rows.old w)
        (memory rows.new w) result }
{
    let place = net.graph.readers.first[i];
    let word = looks[place];
    if word == 0 {
        return Report::default();
    }
    let look = word & sets::below(net.graph.states);
    let report = node_step(&net.table, &net.graph, rows, looks, i, operator, look);
    if !is_quiet(report) {
        return report;
    }
    looks[place] = 0;
    report
}
