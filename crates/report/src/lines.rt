// The two lines that found, none and spent begin with.
ghost use Rattle.render.specs.Stored.{HasRoom, Stored};
ghost use Rattle.report.specs.Texts.{counted};

use render::{put_bytes, write_values};

pub fn write_answer(text: &mut [u8], word: &[u8], choices: usize, price: usize) -> usize
    requires { HasRoom text.old 0 (counted word.now choices price) }
    ensures { Stored text.old 0 (counted word.now choices price) text.new result }
{
    let second = put_bytes(text, 0, b"answer choices price\n");
    let third = put_bytes(text, second, word);
    write_values(text, third, &[choices, price])
}
