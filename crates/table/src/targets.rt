// The ends of the steps out of each state, as a set.
ghost use Rattle.std.specs.Prelude.{◌≡◌};
ghost use Rattle.table.specs.Table.{table_of};
ghost use Rattle.table.specs.Rows.{target_sets};

use crate::accepted::Accepted;

/// The next states of each of 32 states, as sets: bit t of entry s is set where the table has a step from s to t.
// One pass over the steps: each sets its bit.
pub fn target_sets(table: &Accepted<'_>) -> [u32; 32]
    ensures { result ≡ target_sets (table_of table.now.bytes.now).steps }
{
    let mut rows = [0u32; 32];
    for j in 0..table.step_count() {
        let x = table.step(j);
        let row = &mut rows[x.from];
        *row = sets::insert(*row, x.to);
    }
    rows
}
