// How many bytes the header and a record of any section have.
/// How many bytes the header has: the four counts, a byte each.
pub const HEADER_WIDTH: usize = 4;

/// How many bytes the record of a state, of a step or of a node has.
pub const RECORD_WIDTH: usize = 3;
