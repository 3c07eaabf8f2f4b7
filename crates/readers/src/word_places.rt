// Where the words of each node begin, behind that of K: a word for each row of cells.
ghost use Rattle.std.specs.Prelude.{◌≡◌, ◌≤◌, ◌<◌};
ghost use Rattle.table.specs.Table.{table_of};
ghost use Rattle.readers.specs.Readers.{AreFirsts, row_count};

use crate::who_reads::FIRST_PLACES;
use table::{Accepted, MOST_NODES, MOST_STATES, Operator};

/// How many rows of cells a node has, with n states: its levels, or one.
pub fn row_count(n: usize, operator: Operator) -> usize
    requires { n ≤ MOST_STATES }
    ensures { result ≡ row_count n operator }
{
    match operator {
        Operator::Fixpoint(..) => n,
        _ => 1,
    }
}

/// Those past the last node begin where all end.
pub fn word_places(table: &Accepted<'_>) -> [usize; FIRST_PLACES]
    ensures { AreFirsts (table_of table.now.bytes.now) result }
{
    let n = table.state_count();
    let f = table.node_count();
    let mut total = 1;
    let mut first = [1usize; FIRST_PLACES];
    for i in 0..MOST_NODES {
        if i < f {
            total += row_count(n, Operator::from(table.node(i)));
        }
        first[i + 1] = total;
    }
    first
}
