// Numbers and bytes in a text.
ghost use Rattle.std.specs.Prelude.{◌<◌, IfSome};
ghost use Rattle.std.specs.Counts.{IsPrefixLen};

// A hex digit, in small letters: `char::to_digit` would take the capitals A to F too.
fn digit(byte: u8) -> Option<u8>
    ensures { IfSome result (λ d. d < 16) }
{
    match byte {
        b'0'..=b'9' => Some(byte - b'0'),
        b'a'..=b'f' => Some(byte - b'a' + 10),
        _ => None,
    }
}

// The number in decimal digits, below 1,000,000. None where it is not below that, or a byte is no such digit.
// `str::parse` wants a &str, and takes a `+` and larger numbers.
pub fn number_of(text: &[u8]) -> Option<usize> {
    let mut value: usize = 0;
    for byte in text {
        let d = digit(*byte)?;
        if 9 < d || 99999 < value {
            return None;
        }
        value = 10 * value + usize::from(d);
    }
    Some(value)
}

// The bytes that the text has in pairs of hex digits, into out, and how many. Stops at what is no digit, and where out
// is full: so they are counted as they come.
pub fn bytes_of(text: &[u8], out: &mut [u8]) -> usize
    ensures { IsPrefixLen result out.new }
{
    let mut n = 0;
    for (place, pair) in out.iter_mut().zip(text.chunks_exact(2)) {
        let (Some(high), Some(low)) = (digit(pair[0]), digit(pair[1])) else {
            break;
        };
        *place = 16 * high + low;
        n += 1;
    }
    n
}
