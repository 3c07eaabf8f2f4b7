// The search of an accepted table, in buffers that are long enough, and the striking of what it finds.
ghost use Rattle.std.specs.Prelude.{◌≡◌, ◌≤◌, length};
ghost use Rattle.events.specs.NetTable.{table_in};
ghost use Rattle.search.specs.TableSearch.{search_under};
ghost use Rattle.search.specs.Answer.{answer_of};
ghost use Rattle.walk.specs.KeptWords.{room_total};
ghost use Rattle.repair.specs.Effect.{written_after};

use crate::strike::strike_unreached;
use events::Net;
use search::Answer;

/// What is found is struck where it lies; none and spent leave the list.
pub fn run(net: &Net<'_>, cap: u64, list: &mut [u8], words: &mut [u32]) -> Answer
    requires list_room { length (table_in net.now).steps ≤ length list.old }
    requires words_room { room_total (table_in net.now) ≤ length words.old }
    ensures value { result ≡ answer_of (search_under (table_in net.now) cap) }
    ensures list_after { list.new ≡ written_after (table_in net.now) (search_under (table_in net.now) cap) list.old }
{
    let answer = walk::search_table(net, cap, list, words);
    let Answer::Found { .. } = answer else {
        return answer;
    };
    let e = net.table.step_count();
    strike_unreached(net, &mut list[..e]);
    answer
}
