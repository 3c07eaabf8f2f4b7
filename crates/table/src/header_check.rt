// The tests that come before those of the records, of bytes of any length: of their length and counts, in their order.
ghost use Rattle.std.specs.Prelude.{◌≡◌, IfOk, Err, IfErr};
ghost use Rattle.table.specs.Table.{counts_of};
ghost use Rattle.table.specs.Accept.{table_verdict};
ghost use Rattle.table.specs.Refused.{RightLength};

use crate::counts::{Counts, counts_fit, counts_of, packed_length};
use crate::refusal::Refusal;
use crate::width::HEADER_WIDTH;

// The counts of bytes that are as long as they say.
pub fn check_header(table: &[u8]) -> Result<Counts, Refusal>
    ensures accepted { IfOk result (λ c. (c ≡ counts_of table.now) × RightLength table.now) }
    ensures refused { IfErr result (λ r. table_verdict table.now ≡ Err r) }
{
    if table.len() < HEADER_WIDTH {
        return Err(Refusal::Length);
    }
    let c = counts_of(table);
    if !counts_fit(c) {
        return Err(Refusal::Counts);
    }
    if table.len() != packed_length(c) {
        return Err(Refusal::Length);
    }
    Ok(c)
}
