// The four counts that a packed table begins with.
ghost use Rattle.std.specs.Prelude.{◌≡◌, ◌<◌};
ghost use Rattle.table.specs.Table.{counts_of, packed_length};
ghost use Rattle.table.specs.Accept.{counts_fit};

use crate::limits::{MOST_NODES, MOST_PROPS, MOST_STATES, MOST_STEPS};
use crate::part::byte_at;
use crate::width::{HEADER_WIDTH, RECORD_WIDTH};

/// How many states, steps, nodes and propositions a table has, as they are written: each may be out of its range.
#[derive(Clone, Copy, Debug, PartialEq, Eq)]
pub struct Counts {
    pub states: usize,
    pub steps: usize,
    pub nodes: usize,
    pub props: usize,
}

// A count that the bytes do not reach is 0.
pub fn counts_of(table: &[u8]) -> Counts
    ensures { result ≡ counts_of table.now }
{
    Counts {
        states: byte_at(table, 0) as usize,
        steps: byte_at(table, 1) as usize,
        nodes: byte_at(table, 2) as usize,
        props: byte_at(table, 3) as usize,
    }
}

/// How many bytes a table of these counts has, its header included.
pub fn packed_length(c: Counts) -> usize
    requires { (c.states < 256) × ((c.steps < 256) × (c.nodes < 256)) }
    ensures { result ≡ packed_length c }
{
    HEADER_WIDTH + RECORD_WIDTH * c.states + RECORD_WIDTH * c.steps + RECORD_WIDTH * c.nodes
}

// Whether each count is in its range.
pub fn counts_fit(c: Counts) -> bool
    ensures { result ≡ counts_fit c }
{
    1 <= c.states
        && c.states <= MOST_STATES
        && c.steps <= MOST_STEPS
        && 1 <= c.nodes
        && c.nodes <= MOST_NODES
        && c.props <= MOST_PROPS
}
