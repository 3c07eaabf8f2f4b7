// The closure, by events: sweeps up and down in turn over what is to be looked at, until nothing is or something is
// known both ways.
ghost use Rattle.std.specs.Prelude.{◌≡◌, ◌≤◌, false, length};
ghost use Rattle.std.specs.Option.{ForSome};
ghost use Rattle.closure.specs.Knowledge.{knowledge, Sized};
ghost use Rattle.closure.specs.Rest.{RestStart};
ghost use Rattle.propagate.specs.Memory.{memory};
ghost use Rattle.readers.specs.Readers.{word_total};
ghost use Rattle.events.specs.NetTable.{table_in};
ghost use Rattle.events.specs.Watched.{RestBut};
ghost use Rattle.closure.specs.Advance.{Founded};
ghost use Rattle.events.specs.Looked.{Looked, AllCells, FirstLooks};
ghost use Rattle.closure.specs.Closes.{is_failed, ClosesEvery};

use crate::net::Net;
use crate::nodes::nodes_visit;
use crate::visit::{kept_visit, start_visit};
use closure::settled_steps;
use readers::mark_steps;
use rows::{ROW_WORDS, Report, both};

// K, the initial states and the nodes.
fn sweep_once(
    net: &Net<'_>,
    rows: &mut [u32; ROW_WORDS],
    words: &mut [u32],
    looks: &mut [u32],
    down: bool,
) -> Report
    requires sized { Sized (table_in net.now) (memory rows.old words.old) }
    requires room { word_total (table_in net.now) ≤ length looks.old }
    ensures { Looked (table_in net.now) (AllCells (table_in net.now)) (RestStart (table_in net.now)) looks.old
        looks.new (memory rows.old words.old) (memory rows.new words.new) result }
{
    let first = kept_visit(net, rows, looks);
    if first.fails {
        return first;
    }
    let second = both(first, start_visit(net, rows, looks));
    if second.fails {
        return second;
    }
    both(second, nodes_visit(net, rows, words, looks, down))
}

// The words of the states to look at: all states, or where the steps out of the states of a set have changed.
fn first_looks(net: &Net<'_>, looks: &mut [u32], changed: Option<u32>)
    requires room { length looks.old ≡ word_total (table_in net.now) }
    ensures first { FirstLooks net.now.graph.readers changed looks.new }
    ensures looks_len_unchanged { length looks.new ≡ length looks.old }
{
    match changed {
        None => looks.fill(0xffff_ffff),
        Some(set) => {
            looks.fill(0);
            mark_steps(&net.graph.readers, looks, set);
        }
    }
}

// Rows and words stay two, with what holds of both asked in clauses, here, in what calls this and in what this calls:
// rows are copied for a try, and words are lent in parts.

/// Works out the closure of every set of step literals P for which the rows lie between P and its closure: how many
/// steps it settles, or None where it fails. Where a set of states is given, all is at rest but what reads the steps
/// out of them; else all is looked at.
pub fn close(
    net: &Net<'_>,
    rows: &mut [u32; ROW_WORDS],
    words: &mut [u32],
    looks: &mut [u32],
    changed: Option<u32>,
) -> Option<u32>
    requires sized { Sized (table_in net.now) (memory rows.old words.old) }
    requires founded { Founded (table_in net.now) (memory rows.old words.old) }
    requires rest_but { ForSome changed
        (λ set. RestBut (table_in net.now) set (knowledge (table_in net.now) (memory rows.old words.old))) }
    requires room { length looks.old ≡ word_total (table_in net.now) }
    ensures closed { ClosesEvery (table_in net.now) result (memory rows.old words.old) (memory rows.new words.new) }
    ensures resting { is_failed result ≡ false
        → RestBut (table_in net.now) 0 (knowledge (table_in net.now) (memory rows.new words.new)) }
    ensures looks_len_unchanged { length looks.new ≡ length looks.old }
{
    first_looks(net, looks, changed);
    let mut down = false;
    loop {
        let r = sweep_once(net, rows, words, looks, down);
        if r.fails {
            return None;
        }
        if !r.changed {
            return Some(settled_steps(&net.table, rows));
        }
        down = !down;
    }
}
