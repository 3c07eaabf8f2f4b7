// The calls of the fitter, with types: each is the function of that name of the crate that has it, under its contract
// there. It answers by a Result or an enum, and leaves in every lent buffer what its contract says. What they promise
// together is in `promises`. The crate fitter_c exports them to C, with numbers.
#![tactic(auto)]

mod promises;

pub use batch::{BatchEnd, MOST_TABLES, repair_batch};
pub use judge::judge_list;
pub use label::{holding_states, label_nodes};
pub use promises::{labels_mean_ctl, lent_memory, repairer_and_judge};
pub use reader::read;
pub use repair::repair;
pub use search::Answer;
pub use table::Refusal;
