// The states that a list reaches. The repairer works them out from the steps, round by round, apart from the judge.
ghost use Rattle.std.specs.Prelude.{◌≡◌, length};
ghost use Rattle.sets.specs.Member.{set_of};
ghost use Rattle.table.specs.Table.{table_of};
ghost use Rattle.ctl.specs.Labels.{is_kept};
ghost use Rattle.ctl.specs.Reached.{is_reached};
ghost use Rattle.events.specs.NetTable.{table_in};
ghost use Rattle.repair.specs.Round.{Round};

use events::Net;
use table::Accepted;

// That the list has a byte for each step is asked, here and of `strike_unreached`: a struct of table and list would
// be no plainer, since each clause would take both out of it again.

// The states that a kept step leaves.
fn kept_states(table: &Accepted<'_>, list: &[u8]) -> u32
    requires { length list.now ≡ length (table_of table.now.bytes.now).steps }
    ensures { result ≡ set_of 32 (is_kept (table_of table.now.bytes.now) list.now) }
{
    let mut kept = 0u32;
    for (j, byte) in list.iter().enumerate() {
        if *byte == 1 {
            let x = table.step(j);
            kept = sets::insert(kept, x.from);
        }
    }
    kept
}

// One round over the steps: the set, and the end of each kept step out of it or out of what the round has added.
fn add_ends(table: &Accepted<'_>, list: &[u8], set: u32) -> u32
    requires { length list.now ≡ length (table_of table.now.bytes.now).steps }
    ensures { Round (table_of table.now.bytes.now) list.now set result }
{
    let mut next = set;
    for (j, byte) in list.iter().enumerate() {
        if *byte == 1 {
            let x = table.step(j);
            next = sets::insert_if(next, x.to, sets::contains(next, x.from));
        }
    }
    next
}

/// From the kept initial states. A round that adds nothing is the last that is needed.
pub fn reached_states(net: &Net<'_>, list: &[u8]) -> u32
    requires { length list.now ≡ length (table_in net.now).steps }
    ensures { result ≡ set_of 32 (is_reached (table_in net.now) list.now) }
{
    let kept = kept_states(&net.table, list);
    let mut reached = sets::intersection(net.initial, kept);
    let n = net.table.state_count();
    for _m in 0..n {
        let next = add_ends(&net.table, list, reached);
        if next == reached {
            return reached;
        }
        reached = next;
    }
    reached
}
