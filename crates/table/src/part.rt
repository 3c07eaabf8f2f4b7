// Reading bytes and parts of a slice at any place: past the end there is nothing, and a byte there reads as 0.
ghost use Rattle.std.specs.Prelude.{◌≡◌, get_or, take, drop};

// The byte at a place, and 0 past the end.
pub fn byte_at(bytes: &[u8], at: usize) -> u8
    ensures { result ≡ get_or bytes.now at 0 }
{
    bytes.get(at).copied().unwrap_or(0)
}

// The bytes from start on, as many as size, or as many as there are.
pub fn part_of(bytes: &[u8], start: usize, size: usize) -> &[u8]
    ensures { result.now ≡ take size (drop start bytes.now) }
{
    let rest = bytes.get(start..).unwrap_or(&bytes[..0]);
    rest.get(..size).unwrap_or(rest)
}
