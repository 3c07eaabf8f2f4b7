// The lent words in the parts that a closure takes: in front those of the levels, and behind them those of the states
// to look at.
ghost use Rattle.std.specs.Prelude.{◌≡◌, ◌≤◌, false, length, List};
ghost use Rattle.std.specs.Option.{ForSome};
ghost use Rattle.circuit.specs.Logic.{Literal};
ghost use Rattle.circuit.specs.Variables.{Var};
ghost use Rattle.closure.specs.Knowledge.{knowledge, Sized};
ghost use Rattle.closure.specs.Advance.{Founded};
ghost use Rattle.closure.specs.Closes.{Between, Closes, is_failed};
ghost use Rattle.propagate.specs.Memory.{memory};
ghost use Rattle.events.specs.NetTable.{table_in};
ghost use Rattle.events.specs.Watched.{RestBut};
ghost use Rattle.walk.specs.KeptWords.{room_total};

use events::{Net, close};
use rows::ROW_WORDS;

/// Works out the closure, as `close`. The words behind the levels are written to.
pub fn close_parts(
    net: &Net<'_>,
    rows: &mut [u32; ROW_WORDS],
    words: &mut [u32],
    changed: Option<u32>,
) -> Option<u32>
    requires sized { Sized (table_in net.now) (memory rows.old words.old) }
    requires words_room { room_total (table_in net.now) ≤ length words.old }
    requires founded { Founded (table_in net.now) (memory rows.old words.old) }
    requires rest_but { ForSome changed
        (λ set. RestBut (table_in net.now) set (knowledge (table_in net.now) (memory rows.old words.old))) }
    ensures sized { Sized (table_in net.now) (memory rows.new words.new) }
    ensures closes { (P : List (Literal Var)) → Between (table_in net.now) P (memory rows.old words.old)
        → Closes (table_in net.now) P result (memory rows.new words.new) }
    ensures resting { is_failed result ≡ false
        → RestBut (table_in net.now) 0 (knowledge (table_in net.now) (memory rows.new words.new)) }
{
    let (levels, rest) = words.split_at_mut(net.bases.total);
    close(net, rows, levels, &mut rest[..net.word_count()], changed)
}
