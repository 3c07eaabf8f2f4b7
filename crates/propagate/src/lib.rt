// The rules on rows applied to a memory: what they add goes where its rows lie, and its readers are to be looked at.
// Nothing here speaks of a table.
#![tactic(auto)]

mod adding;
mod back;
mod gates;
mod graph;
mod layout;
mod level;

pub use gates::{next_step, one_input_step, pair_step};
pub use graph::Graph;
pub use layout::{KEPT_PLACE, add_kept, add_node, add_step, node_row};
pub use level::{Fixpoint, level_row, level_step};
