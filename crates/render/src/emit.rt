// Bytes stored in a text from a place on. Each function answers the place behind what it stored.
// The text and the place stay two parameters: a struct of both would hold a lent text, and each contract would have
// to say besides that it still holds the same one (its ghost name).
ghost use Rattle.sheet.specs.Form.{decimal, ended};
ghost use Rattle.render.specs.Stored.{HasRoom, Stored};

use sheet::ZERO;

/// Stores the bytes from a place on, and answers the place behind them.
pub fn put_bytes(text: &mut [u8], at: usize, bytes: &[u8]) -> usize
    requires { HasRoom text.old at bytes.now }
    ensures { Stored text.old at bytes.now text.new result }
{
    let next = at + bytes.len();
    text[at..next].copy_from_slice(bytes);
    next
}

// A number in decimal: one digit, or the digits of its tenth and its last digit. `write!` into a lent slice promises
// nothing of the bytes, and `fmt::InlineText`, a text of fixed size, does not promise that a number which fits stands
// there whole.
fn put_number(text: &mut [u8], at: usize, value: usize) -> usize
    requires { HasRoom text.old at (decimal value) }
    ensures { Stored text.old at (decimal value) text.new result }
{
    if value < 10 {
        text[at] = ZERO + value as u8;
        return at + 1;
    }
    let next = put_number(text, at, value / 10);
    text[next] = ZERO + (value % 10) as u8;
    next + 1
}

// A number, and the byte that ends it.
pub fn put_field(text: &mut [u8], at: usize, value: usize, stop: u8) -> usize
    requires { HasRoom text.old at (ended stop value) }
    ensures { Stored text.old at (ended stop value) text.new result }
{
    let next = put_number(text, at, value);
    text[next] = stop;
    next + 1
}
