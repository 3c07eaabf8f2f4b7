// The closure of a set of literals: what it is, and unit propagation over rows of machine words.
#![tactic(auto)]

mod bases;
mod kept;
mod laws;
mod node;
mod settled;

pub use bases::{Bases, level_bases};
pub use kept::{kept_step, start_step};
pub use laws::{computed_is_the_forced, forced_is_the_smallest};
pub use node::{is_every, node_step};
pub use settled::settled_steps;
