// Printing a tally, a line for each number that has a vector.
use crate::count::{Count, Tally};
use std::io;

fn print_count(rt: &impl Print, c: Count) -> io::Result<()> {
    println!(rt; " {} {}", c.vectors, c.agreed)
}

fn print_number(rt: &impl Print, number: usize, c: Count) -> io::Result<()> {
    if 0 < c.vectors {
        print!(rt; "{number}")?;
        print_count(rt, c)?;
    }
    Ok(())
}

pub fn print_tally(rt: &impl Print, t: &Tally) -> io::Result<()> {
    println!(rt; "refusal vectors agreed")?;
    for (number, count) in t.by_number.iter().enumerate() {
        print_number(rt, number, *count)?;
    }
    print!(rt; "all")?;
    print_count(rt, t.all)?;
    print!(rt; "variables")?;
    print_count(rt, t.variables)?;
    if t.broken {
        println!(rt; "the input was not read to its end")?;
    }
    Ok(())
}
