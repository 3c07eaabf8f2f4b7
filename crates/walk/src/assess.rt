// What the closure of what was chosen comes to.
ghost use Rattle.std.specs.Prelude.{◌≡◌, false, ◌≤◌, length};
ghost use Rattle.std.specs.Option.{ForSome};
ghost use Rattle.closure.specs.Knowledge.{knowledge, Sized};
ghost use Rattle.propagate.specs.Memory.{memory};
ghost use Rattle.events.specs.NetTable.{table_in};
ghost use Rattle.closure.specs.Advance.{Founded};
ghost use Rattle.events.specs.Watched.{RestBut};
ghost use Rattle.walk.specs.KeptWords.{room_total};
ghost use Rattle.walk.specs.Stands.{GoesOn, Resting, Somewhere, ComesOf, ComesFrom, ComesAfter};

use crate::parts::close_parts;
use events::Net;
use rows::ROW_WORDS;
use search::{changed_by, choose_step, lowest_unsettled, struck_price, undercuts, write_list};
use table::MOST_STEPS;

// No Result, for both are values to go on with, and neither is an error.

/// The price of the cheapest find, if there is one, or the lowest step left unsettled.
#[derive(Clone, Copy)]
pub enum Assessed {
    Ended(Option<u32>),
    Unsettled(usize),
}

/// It fails where the closure fails, or where its struck steps cost at least as much as the cheapest find. It is a
/// find where it settles every step, and its list is written over that of the find before.
pub fn assess(
    net: &Net<'_>,
    rows: &[u32; ROW_WORDS],
    closed: Option<u32>,
    best: Option<u32>,
    find: &mut [u8; MOST_STEPS],
) -> Assessed
    ensures { ComesOf (table_in net.now) closed best rows.now find.old find.new result }
{
    if closed.is_none() {
        return Assessed::Ended(best);
    }
    let price = struck_price(&net.table, rows);
    if !undercuts(price, best) {
        return Assessed::Ended(best);
    }
    if let Some(j) = lowest_unsettled(&net.table, rows) {
        return Assessed::Unsettled(j);
    }
    write_list(&net.table, rows, find);
    Assessed::Ended(Some(price))
}

// Works out the closure, and what it comes to. Unless it begins afresh, all is at rest but what reads the steps out
// of the changed states.
fn close_and_assess(
    net: &Net<'_>,
    rows: &mut [u32; ROW_WORDS],
    best: Option<u32>,
    find: &mut [u8; MOST_STEPS],
    words: &mut [u32],
    changed: Option<u32>,
) -> Assessed
    requires sized { Sized (table_in net.now) (memory rows.old words.old) }
    requires words_room { room_total (table_in net.now) ≤ length words.old }
    requires founded { Founded (table_in net.now) (memory rows.old words.old) }
    requires rest_but { ForSome changed
        (λ set. RestBut (table_in net.now) set (knowledge (table_in net.now) (memory rows.old words.old))) }
    ensures { ComesAfter (table_in net.now) best (memory rows.old words.old) (memory rows.new words.new) find.old
        find.new result }
{
    let closed = close_parts(net, rows, words, changed);
    assess(net, rows, closed, best, find)
}

/// Chooses step j, kept or struck, and works out the closure, and what it comes to. `fresh` says that no word of the
/// levels is known: an Option of the set of the state that changed, handed on in its place, would need a clause that
/// it is that of step j.
pub fn choose(
    net: &Net<'_>,
    rows: &mut [u32; ROW_WORDS],
    j: usize,
    kept: bool,
    best: Option<u32>,
    find: &mut [u8; MOST_STEPS],
    words: &mut [u32],
    fresh: bool,
) -> Assessed
    requires words_room { room_total (table_in net.now) ≤ length words.old }
    requires resting { «fresh» ≡ false → Resting (table_in net.now) (memory rows.old words.old) }
    requires somewhere { Somewhere (GoesOn (table_in net.now) j (memory rows.old words.old) best find.old) }
    ensures { ComesFrom (GoesOn (table_in net.now) j (memory rows.old words.old) best find.old) (table_in net.now) kept
        j
        best (memory rows.new words.new) find.new result }
{
    let changed = if fresh {
        None
    } else {
        Some(changed_by(&net.table, j))
    };
    choose_step(&net.table, rows, j, kept);
    close_and_assess(net, rows, best, find, words, changed)
}
