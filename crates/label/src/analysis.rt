// What Label, Holding and the judge share: the tests of a list of an accepted table, and the sets of the nodes.
ghost use Rattle.std.specs.Prelude.{◌≡◌, length};
ghost use Rattle.table.specs.Table.{table_of};
ghost use Rattle.label.specs.Analysis.{total_sets, analysis_of};

use crate::pass::label_pass;
use crate::room::{Room, room_fits};
use crate::rows::KeptRows;
use table::{Accepted, Refusal};

/// What a total list makes of a table, as sets of states: `rows` has the kept next states of each state, `words` the
/// set of each node, clear past the last one, and `root` that of the root. `initial` has every initial state, kept or
/// not.
// A record of the definitions too, which have no `KeptRows`.
#[derive(Clone, Copy)]
pub struct Analysis {
    pub rows: [u32; 32],
    pub initial: u32,
    pub kept: u32,
    pub root: u32,
    pub words: [u32; 32],
}

// Whether the list is total, and the sets of one that is.
fn total_sets(table: &Accepted<'_>, list: &[u8]) -> Result<Analysis, Refusal>
    requires { length list.now ≡ length (table_of table.now.bytes.now).steps }
    ensures { result ≡ total_sets (table_of table.now.bytes.now) list.now }
{
    let k = KeptRows::new(table, list);
    if !k.is_total() {
        return Err(Refusal::NotTotal);
    }
    let words = label_pass([0; 32], table, &k);
    Ok(Analysis {
        rows: k.rows,
        initial: table::initial_states(table.states, k.states),
        kept: k.kept,
        root: words[table.node_count() - 1],
        words,
    })
}

/// The tests of a list and of the room in their order, 9 to 11, and the sets of a list that passes them.
pub fn analyse(table: &Accepted<'_>, list: &[u8], room: Room) -> Result<Analysis, Refusal>
    ensures { result ≡ analysis_of room table.now.bytes.now list.now }
{
    table::check_list(list, table.step_count())?;
    if !room_fits(room, table) {
        return Err(Refusal::ShortBuffer);
    }
    total_sets(table, list)
}
