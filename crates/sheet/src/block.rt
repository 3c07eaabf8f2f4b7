// A block: a line of names, and then lines of values. The names are fixed bytes.
ghost use Rattle.std.specs.Prelude.{◌≡◌};
ghost use Rattle.sheet.specs.Parse.{block as block_of, counts_block, times};
ghost use Rattle.sheet.specs.Reading.{reading, passing, block_reading, values};

use crate::line::Line;
use crate::names::{COUNTS_NAMES, skip_names};
use table::Counts;

pub fn counts_block(text: &[u8]) -> Option<(Counts, &[u8])>
    ensures { reading result ≡ counts_block text.now }
{
    Counts::read(skip_names(text, &COUNTS_NAMES)?)
}

// The lines of a block passed over, so many as its count says: their form is tested, and their values are left.
fn skip<L: Line>(text: &[u8], count: usize) -> Option<&[u8]>
    ensures { passing (values count L.parser text.now) result ≡ times count L.parser text.now }
{
    let mut rest = text;
    for _ in 0..count {
        let (_, behind) = L::read(rest)?;
        rest = behind;
    }
    Some(rest)
}

// The lines of the block with these names, and the text behind them.
pub fn block<'a, L: Line>(
    text: &'a [u8],
    names: &[u8],
    count: usize,
) -> Option<(&'a [u8], &'a [u8])>
    ensures { block_reading count L.parser result ≡ block_of names.now count L.parser text.now }
{
    let lines = skip_names(text, names)?;
    let rest = skip::<L>(lines, count)?;
    Some((lines, rest))
}
