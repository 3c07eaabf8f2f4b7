// What is answered once the search has ended.
ghost use Rattle.std.specs.Prelude.{◌≡◌, ◌≤◌, length};
ghost use Rattle.table.specs.Table.{table_of};
ghost use Rattle.search.specs.Finds.{finished, written};

use crate::answer::Answer;
use crate::best::{Cut, Passed};
use table::Accepted;

// That the caller's list is long enough is asked, here, of `write_list` and of those who hand the list on: a struct of
// table and list would only be taken apart again.

/// The answer. The cheapest find, a byte for each step, is written to the front of the caller's list, where there is
/// one and the cap was not reached.
pub fn finish(
    table: &Accepted<'_>,
    walked: Result<Passed, Cut>,
    settled: u32,
    find: &[u8],
    list: &mut [u8],
) -> Answer
    requires { (length (table_of table.now.bytes.now).steps ≤ length find.now)
        × (length (table_of table.now.bytes.now).steps ≤ length list.old) }
    ensures value { result ≡ finished settled walked }
    ensures list_after { list.new ≡ written (length (table_of table.now.bytes.now).steps) walked find.now list.old }
{
    match walked {
        Ok(passed) => match passed.best {
            None => Answer::None {
                choices: passed.choices.made,
                settled,
            },
            Some(price) => {
                let e = table.step_count();
                list[..e].copy_from_slice(&find[..e]);
                Answer::Found {
                    price,
                    choices: passed.choices.made,
                    settled,
                }
            }
        },
        Err(cut) => Answer::Spent {
            choices: cut.choices.made,
            settled,
        },
    }
}
