// Writing a packed table back as a sheet, and the pieces of text that other crates write too.
#![tactic(auto)]

mod emit;
mod laws;
mod record;
mod write_line;
mod writer;

pub use emit::put_bytes;
pub use laws::{samples, sheets_round_trip};
pub use write_line::write_values;
pub use writer::render_table;
