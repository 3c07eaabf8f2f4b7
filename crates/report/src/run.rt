// All that program `fit` does, over a reader and a writer.
ghost use Rattle.std.specs.Prelude.{◌≡◌, ◌≤◌, List, ℕ, length, take, OnOk};
ghost use Rattle.input.specs.Input.{Gave, CountFits};
ghost use Rattle.report.specs.Report.{fit_text};
ghost use Rattle.report.specs.Run.{Printed, WrittenSays};

use crate::answer::write_refused;
use crate::{MOST, OUTPUT, fit_report};
use input::{Input, read_input};
use std::io::{self, Read, Write};
use table::Refusal;

// What is printed of the text that was read.
fn report_input(input: Input, text: &[u8; MOST], out: &mut [u8; OUTPUT]) -> usize
    requires { CountFits input (length text.now) }
    ensures inside { result ≤ length out.new }
    ensures printed { (bytes : List ℕ) → Gave bytes text.now input → take result out.new ≡ fit_text bytes }
{
    match input {
        Input::All(n) => fit_report(&text[..n], out),
        Input::More => write_refused(out, Refusal::SheetForm),
    }
}

/// Reads a text to its end, and writes what is printed for it.
///
/// Where reading fails nothing is written, and the error is the reader's. Of a text that is longer than a sheet may
/// be, one byte more than that is read.
pub fn fit_input<R: Read, W: Write>(reader: &mut R, writer: &mut W) -> io::Result<()>
    ensures printed { OnOk result (Printed (R.remaining reader.old) (W.contents writer.old) (W.contents writer.new)) }
    // the same in the words of sheets, tables and repairs
    ensures says { OnOk result (WrittenSays (R.remaining reader.old) (W.contents writer.old) (W.contents writer.new)) }
{
    let mut text = [0u8; MOST];
    let mut out = [0u8; OUTPUT];
    let input = read_input(reader, &mut text)?;
    let length = report_input(input, &text, &mut out);
    writer.write_all(&out[..length])
}
