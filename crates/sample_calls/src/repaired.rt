// None and spent, and the sample sheet, with the prices 1 to 4, found at a cap that is just enough.
use crate::calls::{repair, sheet};
use crate::print::print_answer;
use std::io;

fn run_repair(rt: &impl Print, table: &[u8], cap: u64, sample: &str) -> io::Result<()> {
    print_answer(rt, repair(table, cap), sample)
}

pub fn run_repairs(rt: &impl Print) -> io::Result<()> {
    let table = sheet();
    run_repair(
        rt,
        b"\x01\x00\x01\x00\x01\x00\x00\x01\x00\x00",
        1000000,
        "one state, no step",
    )?;
    run_repair(rt, &table, 3, "the sheet, cap 3")?;
    run_repair(rt, &table, 5, "the sheet, cap 5")?;
    run_repair(rt, &table, 6, "the sheet, cap 6")
}
