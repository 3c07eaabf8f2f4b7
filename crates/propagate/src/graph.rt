// The states and steps of a table, as propagation reads them, and who reads what.
ghost use Rattle.std.specs.Prelude.{◌≤◌};
ghost use Rattle.table.specs.declared.limits.TheConstants.{MOST_STATES};

use readers::Readers;
use table::MOST_STATES;

/// The ends of the steps out of each state, and how many states there are.
#[derive(Clone, Copy)]
pub struct Graph {
    pub targets: [u32; MOST_STATES],
    pub states: usize,
    pub readers: Readers,
    pub ghost few: { states ≤ MOST_STATES },
}
