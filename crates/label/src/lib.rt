// Labels: the set of states of each node of a table, under a kept list. Label and Holding.
#![tactic(auto)]

mod analysis;
mod fixpoint;
mod holding;
mod label;
mod pass;
mod room;
mod rows;

pub use analysis::{Analysis, analyse};
pub use holding::holding_states;
pub use label::label_nodes;
pub use room::Room;
