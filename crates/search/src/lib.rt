// The search for the cheapest repair, and the first in rank of those: its definition, and what the code of the tries
// is made of.
#![tactic(auto)]

mod answer;
mod best;
mod choices;
mod ending;
mod laws;
mod step_rows;

pub use answer::Answer;
pub use best::{Cut, Passed, undercuts};
pub use choices::Choices;
pub use ending::finish;
pub use laws::search_is_right;
pub use step_rows::{changed_by, choose_step, lowest_unsettled, struck_price, write_list};
