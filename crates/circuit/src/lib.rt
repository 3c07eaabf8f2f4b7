// The circuit of a table: its variables, gates and clauses, and why its models are the repairs.
#![tactic(auto)]

mod laws;
mod tallies;
mod variables;

pub use laws::{models_are_the_repairs, variables_are_the_numbers};
pub use tallies::{Tallies, tallies_of};
pub use variables::variable_count;
