// Label: the set of each node, written into lent words.
ghost use Rattle.std.specs.Prelude.{◌≡◌, ◌↔◌, Ok, IfErr, OnOk, OnErr, length};
ghost use Rattle.table.specs.Table.{table_of};
ghost use Rattle.ctl.specs.Refused.{ListRefused};
ghost use Rattle.label.specs.Calls.{label_verdict, label_buffer};
ghost use Rattle.label.specs.TotalWithRoom.{TotalWithRoom};
ghost use Rattle.label.specs.Exact.{LabelIsExact};

use crate::analysis::analyse;
use crate::room::Room;
use table::{Accepted, Refusal};

/// Bit s of entry i says whether state s is kept and node i holds there; one entry for each node, the rest as it was.
/// Node i is a formula over the infinite paths of kept steps.
pub fn label_nodes(table: &[u8], list: &[u8], out: &mut [u32]) -> Result<(), Refusal>
    ensures value { result ≡ label_verdict table.now list.now (length out.old) }
    ensures out_after { out.new ≡ label_buffer table.now list.now out.old }
    ensures accepted { (result ≡ Ok tt)
        ↔ TotalWithRoom table.now list.now (length (table_of table.now).nodes) (length out.old) }
    ensures refused { IfErr result
        (ListRefused (length (table_of table.now).nodes) (length out.old) table.now list.now) }
    ensures marks { OnOk result (LabelIsExact (table_of table.now) list.now out.old out.new) }
    ensures untouched { OnErr result (out.new ≡ out.old) }
{
    let table = Accepted::try_from(table)?;
    let a = analyse(&table, list, Room::Nodes(out.len()))?;
    let f = table.node_count();
    out[..f].copy_from_slice(&a.words[..f]);
    Ok(())
}
