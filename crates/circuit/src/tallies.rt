// How many nodes there are of the kinds that cost alike.
ghost use Rattle.std.specs.Prelude.{◌≡◌};
ghost use Rattle.table.specs.Table.{table_of};
ghost use Rattle.circuit.specs.Tally.{of_kinds, tally, tallies};
ghost use Rattle.circuit.specs.Exact.{TalliesAreRight};

use table::{Accepted, Node};

/// How many nodes have kinds 0 to 5, which have no step gates; 6 and 7, the next states; 8 to 11, levels with two
/// children; and 12 to 15, levels with one.
#[derive(Clone, Copy, Debug, PartialEq, Eq)]
pub struct Tallies {
    pub plain: usize,
    pub next: usize,
    pub paired: usize,
    pub single: usize,
}

fn is_of_kinds(x: Node, first: usize, last: usize) -> bool
    ensures { result ≡ of_kinds first last x }
{
    first <= x.kind && x.kind <= last
}

// How many nodes have a kind from `first` to `last`.
fn count_kinds(table: &Accepted<'_>, first: usize, last: usize) -> usize
    ensures { result ≡ tally first last (table_of table.now.bytes.now).nodes }
{
    let mut count = 0;
    for i in 0..table.node_count() {
        count += is_of_kinds(table.node(i), first, last) as usize;
    }
    count
}

/// The four tallies of a table.
pub fn tallies_of(table: &Accepted<'_>) -> Tallies
    ensures value { result ≡ tallies (table_of table.now.bytes.now).nodes }
    ensures right { TalliesAreRight (table_of table.now.bytes.now) result }
{
    Tallies {
        plain: count_kinds(table, 0, 5),
        next: count_kinds(table, 6, 7),
        paired: count_kinds(table, 8, 11),
        single: count_kinds(table, 12, 15),
    }
}
