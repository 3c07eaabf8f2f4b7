// What a list keeps of a table: the kept next states of each state, as a set, and the kept states.
ghost use Rattle.std.specs.Prelude.{◌≡◌, ◌≤◌, length};
ghost use Rattle.table.specs.Table.{table_of};
ghost use Rattle.table.specs.Rows.{target_sets};
ghost use Rattle.ctl.specs.Labels.{kept_steps};
ghost use Rattle.label.specs.Words.{kept_word, total_rows};

use table::Accepted;

// `rows` has a set for each state, and `kept` the states whose set is not empty.
#[derive(Clone, Copy)]
pub struct KeptRows {
    pub rows: [u32; 32],
    pub states: usize,
    pub kept: u32,
    pub ghost few: { states ≤ 32 },
    pub ghost kept_are: { kept ≡ kept_word rows states },
}

impl KeptRows {
    // That the list is as long as the steps is asked here, in `kept_rows` and in `total_sets`. A struct of table and
    // list would be no plainer: each clause would take both out of it again.
    pub fn new(table: &Accepted<'_>, list: &[u8]) -> KeptRows
        requires { length list.now ≡ length (table_of table.now.bytes.now).steps }
        ensures rows_are { result.rows ≡ target_sets (kept_steps (table_of table.now.bytes.now).steps list.now) }
        ensures states_are { result.states ≡ length (table_of table.now.bytes.now).states }
    {
        let rows = kept_rows(table, list);
        let states = table.state_count();
        KeptRows {
            rows,
            states,
            kept: states_with_next(&rows, states),
        }
    }

    // Each kept step ends in a kept state.
    pub fn is_total(&self) -> bool
        ensures { result ≡ total_rows self.now.rows self.now.kept }
    {
        for row in &self.rows {
            if sets::minus(*row, self.kept) != 0 {
                return false;
            }
        }
        true
    }
}

// One pass over the steps: a kept step sets its bit. `table::target_sets` lets every step through; one pass for both,
// over a closure, is no plainer: the rows of the steps that pass by their numbers would be a definition of their own,
// and both would have to be shown from it.
fn kept_rows(table: &Accepted<'_>, list: &[u8]) -> [u32; 32]
    requires { length list.now ≡ length (table_of table.now.bytes.now).steps }
    ensures { result ≡ target_sets (kept_steps (table_of table.now.bytes.now).steps list.now) }
{
    let mut rows = [0u32; 32];
    for (j, bit) in list.iter().enumerate() {
        if *bit == 1 {
            let x = table.step(j);
            rows[x.from] = sets::insert(rows[x.from], x.to);
        }
    }
    rows
}

// The kept states: those with a next state.
fn states_with_next(rows: &[u32; 32], n: usize) -> u32
    requires { n ≤ 32 }
    ensures { result ≡ kept_word rows.now n }
{
    sets::collect(n, |s| rows[s] != 0)
}
