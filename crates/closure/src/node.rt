// The rules of a node without levels, by its operator; at the states of a set, where it reads steps.
ghost use Rattle.std.specs.Prelude.{◌≡◌, true, false, List, ℕ, ◌≤◌, ◌<◌, length};
ghost use Rattle.sets.specs.Member.{set_of};
ghost use Rattle.closure.specs.Dual.{is_every};
ghost use Rattle.readers.specs.Reads.{is_child};
ghost use Rattle.readers.specs.Readers.{words_end};
ghost use Rattle.closure.specs.MemoryRules.{node_step};
ghost use Rattle.propagate.specs.Memory.{memory, stepped};
ghost use Rattle.propagate.specs.Marked.{RowsMarked};

use propagate::{Graph, add_node, next_step, one_input_step, pair_step};
use rows::{ROW_WORDS, Report, constant_row};
use table::{Accepted, MOST_NODES, MOST_STATES, Operator, Quantifier};

/// A is taken as it is, E as its dual.
pub fn is_every(q: Quantifier) -> bool
    ensures { result ≡ is_every q }
{
    q == Quantifier::Every
}

// All states, or none.
fn constant_set(n: usize, holds: bool) -> u32
    requires { n ≤ MOST_STATES }
    ensures { result ≡ set_of n (λ s. holds) }
{
    if holds { sets::below(n) } else { 0 }
}

/// Of the table only the section of its states is read. A fixed point has its levels in place of these.
pub fn node_step(
    table: &Accepted<'_>,
    graph: &Graph,
    rows: &mut [u32; ROW_WORDS],
    looks: &mut [u32],
    i: usize,
    operator: Operator,
    look: u32,
) -> Report
    requires i_below { i < MOST_NODES }
    requires children_below { (c : ℕ) → is_child operator c ≡ true → c < MOST_NODES }
    requires room { words_end graph.now.readers ≤ length looks.old }
    ensures value { (w : List ℕ) → stepped rows.new w result
        ≡ node_step table.now.bytes.now graph.now.targets graph.now.states look i operator (memory rows.old w) }
    ensures marked { RowsMarked graph.now.readers looks.old looks.new rows.old rows.new }
    ensures calm { result.changed ≡ false → looks.new ≡ looks.old }
{
    let n = graph.states;
    match operator {
        Operator::Constant(holds) => {
            let set = constant_set(n, holds);
            add_node(graph, rows, looks, i, constant_row(n, set))
        }
        Operator::Atom(p) => {
            let set = table::labelled_states(table.states, n, p);
            add_node(graph, rows, looks, i, constant_row(n, set))
        }
        Operator::Negation(a) => one_input_step(graph, rows, looks, i, false, a),
        Operator::Conjunction(a, b) => pair_step(graph, rows, looks, i, true, a, b),
        Operator::Disjunction(a, b) => pair_step(graph, rows, looks, i, false, a, b),
        Operator::Next(q, a) => next_step(graph, rows, looks, look, i, is_every(q), a),
        Operator::Fixpoint(..) => Report::default(),
    }
}
