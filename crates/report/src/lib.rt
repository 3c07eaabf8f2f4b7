// What program `fit` prints for the bytes that it reads.
#![tactic(auto)]

mod answer;
mod laws;
mod lines;
mod run;
mod steps;
#[cfg(test)]
mod tests;

ghost use Rattle.std.specs.Prelude.{◌≡◌, ◌++◌, ◌≤◌, length, drop};
ghost use Rattle.render.specs.Stored.{HasRoom, Stored};
ghost use Rattle.report.specs.Texts.{cap};
ghost use Rattle.report.specs.Report.{table_text, fit_text};
ghost use Rattle.report.specs.Exact.{FitSays, NoneSays, ListSays, RefusedSays};

use answer::{write_refused, write_result};
pub use laws::samples;
use reader::LONGEST;
pub use run::fit_input;
use table::{Accepted, MOST_STEPS, Refusal};

// How many bytes a text may have: a longer one is refused as no sheet.
const MOST: usize = 4096;

/// HasRoom for whatever is printed.
const OUTPUT: usize = 2048;

// The most choices that the search makes.
const CAP: u64 = 1000000;

// The work entries that are lent. A table that needs more is refused.
const WORK: usize = 10000;

fn report_table(table: &Accepted<'_>, out: &mut [u8]) -> usize
    requires { HasRoom out.old 0 (table_text cap table.now.bytes.now) }
    ensures { Stored out.old 0 (table_text cap table.now.bytes.now) out.new result }
{
    let mut list = [0u8; MOST_STEPS];
    let mut bytes = [0u8; WORK];
    let mut words = [0u32; WORK];
    let answer = repair::repair_accepted(table, CAP, &mut list, &mut bytes, &mut words);
    write_result(table, answer, &list, out)
}

/// What program `fit` prints for a text: answers how many bytes these are. They stand at the front of the buffer, and
/// the rest of it is as it was.
pub fn fit_report(text: &[u8], out: &mut [u8]) -> usize
    requires { OUTPUT ≤ length out.old }
    ensures value { result ≡ length (fit_text text.now) }
    ensures out_after { out.new ≡ fit_text text.now ++ drop (length (fit_text text.now)) out.old }
    // what is printed, in the words of sheets, tables and repairs: one of a refusal, none, spent and found
    ensures says { FitSays text.now (fit_text text.now) }
    ensures none_printed { NoneSays text.now (fit_text text.now) }
    ensures list_printed { ListSays text.now (fit_text text.now) }
    ensures refused_printed { RefusedSays text.now (fit_text text.now) }
{
    if MOST < text.len() {
        return write_refused(out, Refusal::SheetForm);
    }
    let mut packed = [0u8; LONGEST];
    match reader::read_into(text, &mut packed) {
        Ok(table) => report_table(&table, out),
        Err(refusal) => write_refused(out, refusal),
    }
}
