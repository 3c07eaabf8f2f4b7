// The two tries in code: what a closure comes to, and the search of a table.
#![tactic(auto)]

mod assess;
mod parts;
mod start;
mod tries;
mod words;

pub use start::search_table;
