// Read: the text of a sheet in, a packed table or a refusal out.
#![tactic(auto)]

mod laws;
mod pack;
mod reader;
mod record;

pub use laws::{readings_of_the_form, samples};
pub use reader::{LONGEST, read, read_into};
