// The first of several tables that stand end to end.
ghost use Rattle.table.specs.First.{FirstTable};

use crate::accepted::Accepted;
use crate::counts::{counts_of, packed_length};
use crate::part::part_of;

/// The table that the bytes begin with, as long as its own counts say: its field `bytes` tells how many that are.
/// Bytes behind it are not looked at. None where it is refused.
pub fn first_table(bytes: &[u8]) -> Option<Accepted<'_>>
    ensures { FirstTable bytes.now result }
{
    match Accepted::try_from(part_of(bytes, 0, packed_length(counts_of(bytes)))) {
        Ok(table) => Some(table),
        Err(_) => None,
    }
}
