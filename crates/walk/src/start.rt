// The search of a table, from nothing chosen.
ghost use Rattle.std.specs.Prelude.{◌≡◌, false, [], ◌≤◌, length, replicate};
ghost use Rattle.propagate.specs.Memory.{memory};
ghost use Rattle.closure.specs.Knowledge.{Sized};
ghost use Rattle.closure.specs.Closes.{Closes, is_failed};
ghost use Rattle.events.specs.NetTable.{table_in};
ghost use Rattle.search.specs.Search.{unfound};
ghost use Rattle.search.specs.TableSearch.{search_under};
ghost use Rattle.search.specs.Answer.{answer_of, list_after};
ghost use Rattle.search.specs.Finds.{Gives};
ghost use Rattle.walk.specs.KeptWords.{room_total};
ghost use Rattle.walk.specs.Stands.{Resting, search_from};

use crate::assess::{Assessed, assess};
use crate::parts::close_parts;
use crate::tries::kept_try;
use events::Net;
use rows::ROW_WORDS;
use search::{Answer, Choices, Cut, Passed, finish};
use table::MOST_STEPS;

// The closure of nothing, with no step and no level known at first.
fn close_nothing(net: &Net<'_>, rows: &mut [u32; ROW_WORDS], words: &mut [u32]) -> Option<u32>
    requires rows_value { rows.old ≡ replicate ROW_WORDS 0 }
    requires words_room { room_total (table_in net.now) ≤ length words.old }
    ensures sized { Sized (table_in net.now) (memory rows.new words.new) }
    ensures closes { Closes (table_in net.now) [] result (memory rows.new words.new) }
    ensures resting { is_failed result ≡ false → Resting (table_in net.now) (memory rows.new words.new) }
{
    words.fill(0);
    close_parts(net, rows, words, None)
}

// All of the search: what is tried from the closure of nothing. The list of the cheapest find is left in `find`. That
// the words have room is asked, here and of the tries: they are lent in parts, and a struct of words and fact would
// be made anew for each.
fn walk_table(
    net: &Net<'_>,
    rows: &[u32; ROW_WORDS],
    closed: Option<u32>,
    cap: u64,
    find: &mut [u8; MOST_STEPS],
    words: &mut [u32],
) -> Result<Passed, Cut>
    requires words_room { room_total (table_in net.now) ≤ length words.old }
    requires closes { Closes (table_in net.now) [] closed (memory rows.now words.old) }
    requires resting { is_failed closed ≡ false → Resting (table_in net.now) (memory rows.now words.old) }
    ensures { Gives (table_in net.now) cap (search_from (table_in net.now) cap 0 [] unfound 0) find.new result }
{
    let choices = Choices { made: 0, cap };
    match assess(net, rows, closed, None, find) {
        Assessed::Ended(best) => Ok(Passed { best, choices }),
        Assessed::Unsettled(j) => kept_try(net, rows, j, choices, None, find, words),
    }
}

/// The answer under a cap. A found list is written to the front of `list`. All of the words may be used, and there
/// has to be room for one closure: `Net::room` words.
pub fn search_table(net: &Net<'_>, cap: u64, list: &mut [u8], words: &mut [u32]) -> Answer
    requires words_room { room_total (table_in net.now) ≤ length words.old }
    requires list_room { length (table_in net.now).steps ≤ length list.old }
    ensures value { result ≡ answer_of (search_under (table_in net.now) cap) }
    ensures list_after { list.new ≡ list_after (table_in net.now) (search_under (table_in net.now) cap) list.old }
    ensures words_len_unchanged { length words.new ≡ length words.old }
{
    let mut find = [0u8; MOST_STEPS];
    let mut rows = [0u32; ROW_WORDS];
    let closed = close_nothing(net, &mut rows, words);
    let walked = walk_table(net, &rows, closed, cap, &mut find, words);
    finish(&net.table, walked, closed.unwrap_or(0), &find, list)
}
