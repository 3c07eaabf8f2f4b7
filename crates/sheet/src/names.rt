// The four lines of names, which the reader compares and the crate `render` writes.
ghost use Rattle.std.specs.Prelude.{◌≡◌};
ghost use Rattle.sheet.specs.Parse.{exactly};
ghost use Rattle.sheet.specs.Reading.{passing};

/// The names of the counts, with the byte that ends their line; likewise below.
pub const COUNTS_NAMES: [u8; 25] = *b"states edges nodes props\n";

/// The names of a state's values.
pub const STATES_NAMES: [u8; 14] = *b"initial label\n";

/// The names of a step's values.
pub const STEPS_NAMES: [u8; 14] = *b"from to price\n";

/// The names of a node's values.
pub const NODES_NAMES: [u8; 9] = *b"kind a b\n";

// The text behind these names.
pub fn skip_names<'a>(text: &'a [u8], names: &[u8]) -> Option<&'a [u8]>
    ensures { passing tt result ≡ exactly names.now text.now }
{
    text.strip_prefix(names)
}
