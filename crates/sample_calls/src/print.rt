// A line for each sample: what the call answered, and what was called.
use fitter::{Answer, Refusal};
use std::io;

pub fn print_names(rt: &impl Print) -> io::Result<()> {
    println!(rt; "answer sample")
}

fn print_number(rt: &impl Print, number: u32, sample: &str) -> io::Result<()> {
    println!(rt; "{number} {sample}")
}

// 0, or the number of the refusal.
pub fn print_tested<T: Copy>(
    rt: &impl Print,
    tested: Result<T, Refusal>,
    sample: &str,
) -> io::Result<()> {
    print_number(rt, table::verdict_number(tested), sample)
}

// Found, none or spent with what the answer carries, or the number of the refusal.
pub fn print_answer(rt: &impl Print, answer: Answer, sample: &str) -> io::Result<()> {
    match answer {
        Answer::Found {
            price,
            choices,
            settled,
        } => println!(rt; "found {sample}, choices {choices}, price {price}, settled {settled}"),
        Answer::None { choices, settled } => {
            println!(rt; "none {sample}, choices {choices}, settled {settled}")
        }
        Answer::Spent { choices, settled } => {
            println!(rt; "spent {sample}, choices {choices}, settled {settled}")
        }
        Answer::Refused(refusal) => print_number(rt, u32::from(refusal), sample),
    }
}
