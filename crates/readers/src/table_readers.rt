// Who reads what, worked out once before a search.
ghost use Rattle.std.specs.Prelude.{◌≡◌, true, ℕ, ◌+◌, ◌≤◌, ◌<◌, length, get_or};
ghost use Rattle.sets.specs.Member.{member};
ghost use Rattle.table.specs.Table.{table_of, node_at};
ghost use Rattle.table.specs.Rows.{target_set};
ghost use Rattle.ctl.specs.Rule.{operator_of};
ghost use Rattle.readers.specs.Reads.{is_child, reads_steps};
ghost use Rattle.readers.specs.Marked.{Raised};
ghost use Rattle.readers.specs.Readers.{AreReaders};

use crate::marking::put;
use crate::who_reads::{NODE_READERS, READER_PLACES, Readers, STEP_READERS};
use crate::word_places::word_places;
use table::{Accepted, MOST_NODES, MOST_STATES, Operator};

// Adds states to the words of some states.
fn raise(readers: &mut [u32; READER_PLACES], states: u32, set: u32)
    ensures raised { Raised readers.old readers.new }
    ensures added { (t s : ℕ) → member states t ≡ true → member set s ≡ true
        → member (get_or readers.new t 0) s ≡ true }
{
    for t in sets::members_of(states) {
        put(readers, t, set);
    }
}

// A state reads the ends of the steps out of it.
fn state_readers(targets: &[u32; MOST_STATES], n: usize, readers: &mut [u32; READER_PLACES])
    requires { n ≤ MOST_STATES }
    ensures raised { Raised readers.old readers.new }
    ensures of_state { (s t : ℕ) → s < n → member (get_or targets.now s 0) t ≡ true
        → member (get_or readers.new t 0) s ≡ true }
{
    for s in 0..n {
        let ends = targets[s];
        let one = sets::insert(0, s);
        raise(readers, ends, one);
    }
}

// Node i stands where its children are read.
fn child_reader(operator: Operator, i: usize, readers: &mut [u32; READER_PLACES])
    requires i_below { i < MOST_NODES }
    requires children_below { (c : ℕ) → is_child operator c ≡ true → c < MOST_NODES }
    ensures raised { Raised readers.old readers.new }
    ensures of_node { (c : ℕ) → is_child operator c ≡ true → member (get_or readers.new (NODE_READERS + c) 0) i ≡ true }
{
    let one = sets::insert(0, i);
    match operator {
        Operator::Constant(_) | Operator::Atom(_) => {}
        Operator::Negation(a) | Operator::Next(_, a) => put(readers, NODE_READERS + a, one),
        Operator::Conjunction(a, b)
        | Operator::Disjunction(a, b)
        | Operator::Fixpoint(_, _, a, b) => {
            put(readers, NODE_READERS + a, one);
            put(readers, NODE_READERS + b, one);
        }
    }
}

// Where it reads steps, it stands there too.
fn step_reader(operator: Operator, i: usize, readers: &mut [u32; READER_PLACES])
    requires { i < MOST_NODES }
    ensures raised { Raised readers.old readers.new }
    ensures of_steps { reads_steps operator ≡ true → member (get_or readers.new STEP_READERS 0) i ≡ true }
{
    if let Operator::Next(..) | Operator::Fixpoint(..) = operator {
        put(readers, STEP_READERS, sets::insert(0, i));
    }
}

fn node_readers(table: &Accepted<'_>, readers: &mut [u32; READER_PLACES])
    ensures raised { Raised readers.old readers.new }
    ensures of_node { (i c : ℕ) → i < length (table_of table.now.bytes.now).nodes
        → is_child (operator_of (node_at (table_of table.now.bytes.now) i)) c ≡ true
        → member (get_or readers.new (NODE_READERS + c) 0) i ≡ true }
    ensures of_steps { (i : ℕ) → i < length (table_of table.now.bytes.now).nodes
        → reads_steps (operator_of (node_at (table_of table.now.bytes.now) i)) ≡ true
        → member (get_or readers.new STEP_READERS 0) i ≡ true }
{
    for i in 0..table.node_count() {
        let operator = Operator::from(table.node(i));
        child_reader(operator, i, readers);
        step_reader(operator, i, readers);
    }
}

/// More may stand there than reads it.
pub fn readers_of(table: &Accepted<'_>, targets: &[u32; MOST_STATES]) -> Readers
    requires targets_at { (s : ℕ) → s < MOST_STATES
        → get_or targets.now s 0 ≡ target_set (table_of table.now.bytes.now).steps s }
    ensures { AreReaders (table_of table.now.bytes.now) result }
{
    let mut of = [0u32; READER_PLACES];
    state_readers(targets, table.state_count(), &mut of);
    node_readers(table, &mut of);
    let first = word_places(table);
    Readers { of, first }
}
