// Striking: what leaves a state that is not reached is not kept.
ghost use Rattle.std.specs.Prelude.{◌≡◌, length};
ghost use Rattle.ctl.specs.Reached.{strike};
ghost use Rattle.events.specs.NetTable.{table_in};

use crate::reached::reached_states;
use events::Net;

/// Strikes every step out of a state that the list does not reach.
pub fn strike_unreached(net: &Net<'_>, list: &mut [u8])
    requires { length list.old ≡ length (table_in net.now).steps }
    ensures { list.new ≡ strike (table_in net.now) list.old }
{
    let reached = reached_states(net, list);
    for j in 0..list.len() {
        let x = net.table.step(j);
        if !sets::contains(reached, x.from) {
            list[j] = 0;
        }
    }
}
