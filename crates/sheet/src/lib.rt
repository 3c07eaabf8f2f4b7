// The sheet: whether a text is of its form, and the values of its lines.
#![tactic(auto)]

mod block;
mod field;
mod form;
mod laws;
mod line;
mod names;

pub use field::{NEWLINE, SPACE, ZERO};
pub use form::{Form, check_form};
pub use laws::a_sheet_has_one_reading;
pub use line::Line;
pub use names::{COUNTS_NAMES, NODES_NAMES, STATES_NAMES, STEPS_NAMES};
