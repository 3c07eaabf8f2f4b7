// The most steps that a table may have.
use crate::print::print_tested;
use std::io;
use table::Accepted;

// 32 states, the first one initial, and 129 steps: all from 0, 1, 2 and 3, and one from 4, each priced by its number.
// The node behind them is still missing.
fn stepped() -> [u8; 490] {
    let mut table = [0u8; 490];
    table[0] = 32;
    table[2] = 1;
    table[4] = 1;
    for j in 0..129 {
        table[100 + 3 * j] = (j / 32) as u8;
        table[101 + 3 * j] = (j % 32) as u8;
        table[102 + 3 * j] = j as u8;
    }
    table
}

fn print_checked(rt: &impl Print, table: &[u8], sample: &str) -> io::Result<()> {
    print_tested(rt, Accepted::try_from(table), sample)
}

// The node, true, stands behind the last step that counts.
pub fn run_steps(rt: &impl Print) -> io::Result<()> {
    let mut most = stepped();
    most[1] = 128;
    most[484] = 1;
    most[485] = 0;
    most[486] = 0;
    print_checked(rt, &most[..487], "128 steps")?;
    let mut more = stepped();
    more[1] = 129;
    more[487] = 1;
    print_checked(rt, &more, "129 steps")
}
