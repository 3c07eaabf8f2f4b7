// Holding: the states of the root's set.
ghost use Rattle.std.specs.Prelude.{◌≡◌, ◌↔◌, ◌≤◌, ◌++◌, IsOk, IfOk, IfErr, OnErr, length, drop};
ghost use Rattle.table.specs.Table.{table_of};
ghost use Rattle.ctl.specs.Refused.{ListRefused};
ghost use Rattle.sets.specs.Member.{member};
ghost use Rattle.ctl.specs.Range.{below};
ghost use Rattle.label.specs.ReadingOrder.{reading_order, states_with};
ghost use Rattle.label.specs.Calls.{holding_answer, holding_buffer};
ghost use Rattle.label.specs.TotalWithRoom.{TotalWithRoom};
ghost use Rattle.label.specs.Exact.{HoldingIsExact};

use crate::analysis::analyse;
use crate::room::Room;
use table::{Accepted, Refusal};

// The states of a set, ascending, at the start of the buffer.
fn write_ascending(set: u32, out: &mut [u8])
    requires { length (states_with (below 32) (member set)) ≤ length out.old }
    ensures { out.new
        ≡ states_with (below 32) (member set) ++ drop (length (states_with (below 32) (member set))) out.old }
{
    for (i, s) in sets::members_of(set).enumerate() {
        out[i] = s as u8;
    }
}

// The states of a set in reading order: the initial ones at the start of the buffer, and the others behind them.
fn write_states(set: u32, initial: u32, out: &mut [u8])
    requires { length (states_with (reading_order (member initial)) (member set)) ≤ length out.old }
    ensures { out.new
        ≡ states_with (reading_order (member initial)) (member set)
        ++ drop (length (states_with (reading_order (member initial)) (member set))) out.old }
{
    let first = sets::intersection(set, initial);
    let others = sets::minus(set, initial);
    let k = sets::count(first) as usize;
    write_ascending(first, out);
    write_ascending(others, &mut out[k..]);
}

/// The kept states at which the root holds, a byte each: the initial ones first, ascending, then the others, ascending.
/// The answer is how many there are. The buffer needs a byte for each state of the table.
pub fn holding_states(table: &[u8], list: &[u8], out: &mut [u8]) -> Result<u32, Refusal>
    ensures value { result ≡ holding_answer table.now list.now (length out.old) }
    ensures out_after { out.new ≡ holding_buffer table.now list.now out.old }
    ensures accepted { IsOk result
        ↔ TotalWithRoom table.now list.now (length (table_of table.now).states) (length out.old) }
    ensures refused { IfErr result
        (ListRefused (length (table_of table.now).states) (length out.old) table.now list.now) }
    ensures states { IfOk result (λ count. HoldingIsExact (table_of table.now) list.now count out.old out.new) }
    ensures untouched { OnErr result (out.new ≡ out.old) }
{
    let table = Accepted::try_from(table)?;
    let a = analyse(&table, list, Room::States(out.len()))?;
    write_states(a.root, a.initial, out);
    Ok(sets::count(a.root))
}
