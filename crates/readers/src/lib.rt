// Who reads what, and the words of the states to look at.
#![tactic(auto)]

mod marking;
mod table_readers;
mod who_reads;
mod word_places;

pub use marking::{grown_at, mark_kept, mark_level, mark_node, mark_steps};
pub use table_readers::readers_of;
pub use who_reads::{KEPT_WORD, Readers};
