// The labelling pass: the set of each node, children first.
ghost use Rattle.std.specs.Prelude.{◌≡◌};
ghost use Rattle.table.specs.Table.{table_of, states_part};
ghost use Rattle.label.specs.Words.{ChildrenBelow, node_word, pass_words};

use crate::rows::KeptRows;
use table::{Accepted, Operator};

// The set of a node, from the sets of the nodes before it. The arrays are lent, not copied for each node.
#[tactic(auto, unfolding(crate::specs::Words::node_word))]
fn node_states(o: Operator, words: &[u32; 32], k: &KeptRows, states: &[u8]) -> u32
    requires { ChildrenBelow 32 o }
    ensures { result ≡ node_word k.now.rows k.now.kept k.now.states states.now words.now o }
{
    match o {
        Operator::Constant(false) => 0,
        Operator::Constant(true) => k.kept,
        Operator::Atom(p) => k.kept & table::labelled_states(states, k.states, p),
        Operator::Negation(a) => k.kept & !words[a],
        Operator::Conjunction(a, b) => words[a] & words[b],
        Operator::Disjunction(a, b) => words[a] | words[b],
        Operator::Next(q, a) => k.next_states(q, words[a]),
        Operator::Fixpoint(family, q, a, b) => k.fixpoint_states(family, q, words[a], words[b]),
    }
}

// Takes the array of node sets and returns it anew, with the set of each node of the table.
pub fn label_pass(words: [u32; 32], table: &Accepted<'_>, k: &KeptRows) -> [u32; 32]
    ensures { result
        ≡ pass_words k.now.rows k.now.kept k.now.states (states_part table.now.bytes.now) 0
        (table_of table.now.bytes.now).nodes words }
{
    let mut next = words;
    for i in 0..table.node_count() {
        next[i] = node_states(Operator::from(table.node(i)), &next, k, table.states);
    }
    next
}
