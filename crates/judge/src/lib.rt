// The judge: is a list a repair of a table, in the narrower sense?
#![tactic(auto)]

mod reached;

ghost use Rattle.std.specs.Prelude.{◌≡◌, ◌↔◌, Ok, IfErr};
ghost use Rattle.table.specs.Table.{table_of};
ghost use Rattle.table.specs.Facts.{IsTable};
ghost use Rattle.ctl.specs.Kept.{NarrowRepair};
ghost use Rattle.ctl.specs.Refused.{JudgeRefused};
ghost use Rattle.ctl.specs.Tests.{judge_verdict};

use label::{Room, analyse};
use reached::reached_states;
use table::{Accepted, Refusal};

/// The judge: whether a list is a repair of a table in the narrower sense.
///
/// The tests of a table come first, and then those of a list, in the order of its form, total, an initial state kept,
/// only reached states left, and the rule, whatever the bytes: 2 to 9, 11, 12, 16 and 13.
pub fn judge_list(table: &[u8], list: &[u8]) -> Result<(), Refusal>
    ensures value { result ≡ judge_verdict table.now list.now }
    ensures exact { (result ≡ Ok tt) ↔ (IsTable table.now × NarrowRepair (table_of table.now) list.now) }
    ensures refused { IfErr result (JudgeRefused table.now list.now) }
{
    let table = Accepted::try_from(table)?;
    let a = analyse(&table, list, Room::Any)?;
    let starts = sets::intersection(a.initial, a.kept);
    if starts == 0 {
        return Err(Refusal::NoInitialKept);
    }
    let reached = reached_states(&a.rows, starts);
    if sets::minus(a.kept, reached) != 0 {
        return Err(Refusal::UnreachedStep);
    }
    if sets::minus(starts, a.root) != 0 {
        return Err(Refusal::RootFails);
    }
    Ok(())
}
