// One value: its digits, and the byte behind them.
ghost use Rattle.std.specs.Prelude.{◌≡◌, ◌≤◌};
ghost use Rattle.sheet.specs.Parse.{field, extends as may_follow};
ghost use Rattle.sheet.specs.Reading.{reading};

/// The byte between two values of a line.
pub const SPACE: u8 = 32;

/// The byte that ends a line.
pub const NEWLINE: u8 = 10;

/// The digit 0; the others are the nine bytes behind it.
pub const ZERO: u8 = 48;

// Whether b may stand behind the digits of value: behind a 0 no digit does, and a value is at most max.
fn extends(max: usize, value: usize, b: u8) -> bool
    requires { value ≤ 65535 }
    ensures { result ≡ may_follow max value b }
{
    if !b.is_ascii_digit() {
        return false;
    }
    if value == 0 {
        return false;
    }
    10 * value + (b - ZERO) as usize <= max
}

// A value of at most max, no leading zero, with the byte stop behind it, and the text behind that. `str::parse` wants
// a &str that ends where the number does, and takes a `+` and leading zeros.
#[tactic(auto, unfolding(crate::specs::Parse::field, crate::specs::Parse::digits_up_to))]
pub fn read_field(text: &[u8], max: usize, stop: u8) -> Option<(usize, &[u8])>
    requires { max ≤ 65535 }
    ensures { reading result ≡ field max stop text.now }
{
    let (first, mut rest) = text.split_first()?;
    if !first.is_ascii_digit() {
        return None;
    }
    let mut value = (*first - ZERO) as usize;
    while let Some((b, behind)) = rest.split_first() {
        if *b == stop {
            return Some((value, behind));
        }
        if !extends(max, value, *b) {
            return None;
        }
        value = 10 * value + (*b - ZERO) as usize;
        rest = behind;
    }
    None
}
