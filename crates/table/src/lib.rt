// The packed table: its counts, sections and records, the tests of a table and of a list, and the refusals with their
// numbers. Knows nothing of what a formula means.
#![tactic(auto)]

mod accepted;
mod counts;
mod first;
mod header_check;
mod limits;
mod list_check;
mod node_check;
mod operator;
mod part;
mod record;
mod refusal;
mod section;
mod shape;
mod state_check;
mod state_sets;
mod step_check;
mod targets;
mod width;

pub use accepted::Accepted;
pub use counts::{Counts, packed_length};
pub use first::first_table;
pub use limits::{MOST_NODES, MOST_STATES, MOST_STEPS};
pub use list_check::check_list;
pub use operator::{Family, Operator, Quantifier};
pub use record::{Node, State, Step, record_at};
pub use refusal::{Refusal, verdict_number};
pub use state_sets::{initial_states, labelled_states};
pub use targets::target_sets;
pub use width::{HEADER_WIDTH, RECORD_WIDTH};
