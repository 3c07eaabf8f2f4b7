// Runs the check of the packed table, and the count of its circuit's variables, on the vectors of standard input.
// Prints how many there are of each expected number, and with how many of those the code agrees. Stops at a line out of
// form, and says so, as where the input is longer than there is room for.
//
// A line: kind (table or list), expected number, count (of an accepted table its variables, of a list its table's
// steps), and the bytes in hex. Tabs stand between, `-` for empty or none, and a line of names comes first.
// `tests/table_vectors` draws the lines from the vectors of the repository.
#![tactic(auto)]

mod count;
mod report;
mod text;
mod vector;

ghost use Rattle.std.specs.Prelude.{◌≡◌, length};

use count::Tally;
use input::{Input, read_input};
use report::print_tally;
use std::io;
use vector::tally_text;

// Room for the whole input.
fn space() -> [u8; 262144]
    ensures { 262144 ≡ length result }
{
    [0; 262144]
}

fn main(rt: HostRuntime) -> io::Result<()> {
    let mut text = space();
    let tally = match read_input(&mut rt.stdin(), &mut text)? {
        Input::All(n) => tally_text(&text[..n]),
        Input::More => Tally {
            broken: true,
            ..Tally::default()
        },
    };
    print_tally(&rt, &tally)
}
