// Where the words of the stored levels lie, one fixed-point node after the other.
ghost use Rattle.std.specs.Prelude.{◌≡◌, ◌≤◌};
ghost use Rattle.table.specs.Table.{table_of};
ghost use Rattle.closure.specs.Knowledge.{level_size};
ghost use Rattle.closure.specs.Bases.{AreBases};

use table::{Accepted, MOST_NODES, MOST_STATES, Operator};

/// Where those of each node begin, and how many there are in all.
#[derive(Clone, Copy)]
pub struct Bases {
    pub at: [usize; MOST_NODES],
    pub total: usize,
}

// How many words a node takes, with n states.
fn level_size(n: usize, operator: Operator) -> usize
    requires { (1 ≤ n) × (n ≤ MOST_STATES) }
    ensures { result ≡ level_size n operator }
{
    match operator {
        Operator::Fixpoint(..) => 2 * (n - 1),
        _ => 0,
    }
}

/// A node past the last reads as zeros and takes no words, so that every place has a base.
pub fn level_bases(table: &Accepted<'_>) -> Bases
    ensures { AreBases (table_of table.now.bytes.now) result }
{
    let n = table.state_count();
    let mut at = [0usize; MOST_NODES];
    let mut total = 0;
    for i in 0..MOST_NODES {
        at[i] = total;
        total += level_size(n, Operator::from(table.node(i)));
    }
    Bases { at, total }
}
