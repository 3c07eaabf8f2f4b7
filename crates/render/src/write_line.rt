// A line of values, written: a space behind each but the last, and byte 10 behind that.
ghost use Rattle.sheet.specs.Form.{line};
ghost use Rattle.render.specs.Stored.{HasRoom, Stored};

use crate::emit::{put_bytes, put_field};
use sheet::{NEWLINE, SPACE};

/// Writes a line of values in decimal from a place on, and answers the place behind it.
#[tactic(auto, unfolding(sheet::specs::Form::line))]
pub fn write_values(text: &mut [u8], at: usize, values: &[usize]) -> usize
    requires { HasRoom text.old at (line values.now) }
    ensures { Stored text.old at (line values.now) text.new result }
{
    match values {
        [] => put_bytes(text, at, &[NEWLINE]),
        [last] => put_field(text, at, *last, NEWLINE),
        [value, rest @ ..] => {
            let next = put_field(text, at, *value, SPACE);
            write_values(text, next, rest)
        }
    }
}
