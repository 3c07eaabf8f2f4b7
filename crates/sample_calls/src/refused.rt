// 1 to 13, 16 and 17: the example of each refusal.
use crate::calls::{repair, repair_in, sheet};
use crate::print::{print_answer, print_tested};
use fitter::Answer;
use std::io;

fn print_refused(rt: &impl Print, table: &[u8], sample: &str) -> io::Result<()> {
    print_answer(rt, repair(table, 1000000), sample)
}

fn print_judged(rt: &impl Print, table: &[u8], list: &[u8], sample: &str) -> io::Result<()> {
    print_tested(rt, fitter::judge_list(table, list), sample)
}

fn run_read(rt: &impl Print) -> io::Result<()> {
    let mut out = [0u8; 580];
    print_tested(rt, fitter::read(b"", &mut out), "an empty text")
}

// 33 states of 3 bytes, and one node.
fn run_counts(rt: &impl Print) -> io::Result<()> {
    let mut table = [0u8; 106];
    table[0] = 33;
    table[2] = 1;
    print_refused(rt, &table, "n = 33")
}

// The sample sheet's circuit has 100 variables.
fn run_short(rt: &impl Print) -> io::Result<()> {
    let table = sheet();
    let mut bytes = [0u8; 99];
    print_answer(
        rt,
        repair_in(&table, 1000000, &mut bytes),
        "100 variables, 99 work bytes",
    )
}

pub fn run_tables(rt: &impl Print) -> io::Result<()> {
    run_read(rt)?;
    print_refused(rt, b"\x01\x00\x01", "bytes 1 0 1")?;
    run_counts(rt)?;
    print_refused(rt, b"\x01\x00\x01\x00\x02\x00\x00\x01\x00\x00", "initial 2")?;
    print_refused(
        rt,
        b"\x01\x00\x01\x00\x00\x00\x00\x01\x00\x00",
        "one state, initial 0",
    )?;
    print_refused(
        rt,
        b"\x02\x01\x01\x00\x01\x00\x00\x00\x00\x00\x00\x02\x05\x01\x00\x00",
        "two states, step 0 to 2",
    )?;
    print_refused(
        rt,
        b"\x02\x02\x01\x00\x01\x00\x00\x00\x00\x00\x00\x01\x01\x00\x01\x02\x01\x00\x00",
        "steps 0 1 and 0 1",
    )?;
    print_refused(
        rt,
        b"\x01\x00\x01\x00\x01\x00\x00\x03\x00\x00",
        "node 0: 3 0 0",
    )
}

pub fn run_lists(rt: &impl Print) -> io::Result<()> {
    let table = sheet();
    print_judged(rt, &table, b"\x01\x01\x00", "list 1 1 0 of four steps")?;
    run_short(rt)?;
    print_judged(
        rt,
        b"\x02\x01\x01\x00\x01\x00\x00\x00\x00\x00\x00\x01\x05\x01\x00\x00",
        b"\x01",
        "one step 0 to 1, kept",
    )?;
    print_judged(rt, &table, b"\x00\x00\x00\x00", "list 0 0 0 0")?;
    print_judged(rt, &table, b"\x01\x01\x01\x01", "list 1 1 1 1")?;
    print_judged(rt, &table, b"\x01\x01\x00\x01", "list 1 1 0 1")?;
    run_batch(rt)
}

// The sample sheet's table, and a byte behind it that is no table.
fn run_batch(rt: &impl Print) -> io::Result<()> {
    let mut tables = [0u8; 41];
    tables[..40].copy_from_slice(&sheet());
    let (mut lists, mut bytes, mut words) = ([0u8; 8], [0u8; 100], [0u32; 100]);
    let mut answers = [Answer::None {
        choices: 0,
        settled: 0,
    }; 8];
    let tried = fitter::repair_batch(
        &tables,
        10,
        &mut lists,
        &mut bytes,
        &mut words,
        &mut answers,
    );
    print_tested(rt, tried, "the sheet and a byte")
}
