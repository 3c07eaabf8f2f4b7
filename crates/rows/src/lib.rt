// Rows of machine words, what is known of a variable at each state, and the rules on them.
#![tactic(auto)]

mod joined;
mod next;
mod row;
mod rules;
mod steps;

pub use joined::{Joined, join};
pub use next::{Pushed, ahead, push};
pub use row::{
    ROW_WORDS, Report, Row, add, both, is_none, is_quiet, last_left, mask, new_of, row_at,
    step_row, turn, union,
};
pub use rules::{and_input, and_output, constant_row, kept_back, kept_row};
pub use steps::{is_known, is_settled, word_of};
