// The step rows of a closure, read and written step by step.
ghost use Rattle.std.specs.Prelude.{◌≡◌, false, cond, ◌++◌, ◌≤◌, ◌<◌, length, drop};
ghost use Rattle.table.specs.Table.{table_of};
ghost use Rattle.rows.specs.Steps.{step_bit};
ghost use Rattle.search.specs.StepRows.{lowest_unsettled, rows_price, kept_bytes, with_step, changed_by};

use rows::{ROW_WORDS, is_known, is_settled, word_of};
use table::{Accepted, MOST_STATES, Step};

/// The lowest step that is known neither way, where there is one.
#[tactic(auto, using(crate::proofs::StepEnds::from_below))]
pub fn lowest_unsettled(table: &Accepted<'_>, rows: &[u32; ROW_WORDS]) -> Option<usize>
    ensures { result ≡ lowest_unsettled (table_of table.now.bytes.now) rows.now }
{
    for j in 0..table.step_count() {
        if !is_settled(rows, table.step(j)) {
            return Some(j);
        }
    }
    None
}

// What a step costs, where it is known struck.
fn price_if_struck(rows: &[u32; ROW_WORDS], x: Step) -> u32
    requires { (x.from < MOST_STATES) × (x.price < 256) }
    ensures { result ≡ cond (step_bit rows.now false x) x.price 0 }
{
    if is_known(rows, x, false) {
        x.price as u32
    } else {
        0
    }
}

/// What the steps cost that are known struck.
#[tactic(auto, using(crate::proofs::StepEnds::from_below))]
pub fn struck_price(table: &Accepted<'_>, rows: &[u32; ROW_WORDS]) -> u32
    ensures { result ≡ rows_price (table_of table.now.bytes.now) rows.now }
{
    let mut price = 0;
    for j in 0..table.step_count() {
        price += price_if_struck(rows, table.step(j));
    }
    price
}

/// A byte for each step, 1 kept and 0 struck, at the front of the list.
#[tactic(auto, using(crate::proofs::StepEnds::from_below))]
pub fn write_list(table: &Accepted<'_>, rows: &[u32; ROW_WORDS], list: &mut [u8])
    requires { length (table_of table.now.bytes.now).steps ≤ length list.old }
    ensures { list.new ≡ kept_bytes (table_of table.now.bytes.now) rows.now
        ++ drop (length (table_of table.now.bytes.now).steps) list.old }
{
    for j in 0..table.step_count() {
        list[j] = is_known(rows, table.step(j), true) as u8;
    }
}

/// Chooses step j in the rows, kept or struck.
#[tactic(auto, using(crate::proofs::StepEnds::from_below))]
pub fn choose_step(table: &Accepted<'_>, rows: &mut [u32; ROW_WORDS], j: usize, kept: bool)
    requires { j < length (table_of table.now.bytes.now).steps }
    ensures { rows.new ≡ with_step (table_of table.now.bytes.now) rows.old kept j }
{
    let x = table.step(j);
    let at = word_of(x.from, kept);
    rows[at] = sets::insert(rows[at], x.to);
}

/// The state whose steps that changes, as a set.
pub fn changed_by(table: &Accepted<'_>, j: usize) -> u32
    requires { j < length (table_of table.now.bytes.now).steps }
    ensures { result ≡ changed_by (table_of table.now.bytes.now) j }
{
    sets::insert(0, table.step(j).from)
}
