// How many steps the step rows settle.
ghost use Rattle.std.specs.Prelude.{◌≡◌};
ghost use Rattle.table.specs.Table.{table_of};
ghost use Rattle.closure.specs.Closes.{rows_settled};

use rows::{ROW_WORDS, is_settled};
use table::Accepted;

/// Those that are known kept, and those that are known struck.
pub fn settled_steps(table: &Accepted<'_>, rows: &[u32; ROW_WORDS]) -> u32
    ensures { result ≡ rows_settled (table_of table.now.bytes.now) rows.now }
{
    let mut count = 0;
    for j in 0..table.step_count() {
        count += is_settled(rows, table.step(j)) as u32;
    }
    count
}
