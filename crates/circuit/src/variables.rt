// The number of variables of a table's circuit, by the tallies of its nodes.
ghost use Rattle.std.specs.Prelude.{◌≡◌, ◌≤◌, ◌+◌, ◌*◌};
ghost use Rattle.table.specs.Table.{table_of};
ghost use Rattle.circuit.specs.Variables.{variable_count, variable_formula};
ghost use Rattle.circuit.specs.Tally.{tallied};

use crate::tallies::{Tallies, tallies_of};
use table::Accepted;

// How many variables a node with levels has, with n states, e steps and so many variables of its own at each state of
// a level above 0.
fn levels_cost(n: usize, e: usize, own: usize) -> usize
    requires { (n ≤ 32) × (e ≤ 128) × (own ≤ 3) }
    ensures value { result ≡ n + n * (e + own * n) }
    ensures few { result ≤ 7200 }
{
    n + n * (e + own * n)
}

// How many variables a table has, with n states, e steps and so many nodes of each tally.
fn variables_of(n: usize, e: usize, nodes: Tallies) -> usize
    requires { (n ≤ 32) × (e ≤ 128) × (nodes.plain + nodes.next + nodes.paired + nodes.single ≤ 32) }
    ensures { result ≡ tallied n e nodes }
{
    e + n
        + nodes.plain * n
        + nodes.next * (e + n)
        + nodes.paired * levels_cost(n, e, 3)
        + nodes.single * levels_cost(n, e, 2)
}

/// V: how many variables the circuit of a table has.
pub fn variable_count(table: &Accepted<'_>) -> usize
    ensures formula { result ≡ variable_formula (table_of table.now.bytes.now) }
    ensures counted { result ≡ variable_count (table_of table.now.bytes.now) }
{
    variables_of(table.state_count(), table.step_count(), tallies_of(table))
}
