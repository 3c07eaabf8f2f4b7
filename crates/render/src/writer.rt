// Writing back: an accepted packed table as a sheet.
ghost use Rattle.std.specs.Prelude.{◌≡◌, length, OnErr, IfErr, IfOk};
ghost use Rattle.sheet.specs.Form.{render};
ghost use Rattle.render.specs.Stored.{HasRoom, Stored};
ghost use Rattle.render.specs.Render.{sheet_of, render_answer, render_buffer};
ghost use Rattle.render.specs.Exact.{RenderIsExact, RenderRefused};

use crate::emit::put_bytes;
use crate::record::write_block;
use crate::write_line::write_values;
use sheet::{COUNTS_NAMES, NODES_NAMES, STATES_NAMES, STEPS_NAMES};
use table::{Accepted, Node, Refusal, State, Step};

// No sheet of an accepted table has more bytes: so many are 32 states, 128 steps and 32 nodes with three digits a value
// and five a label.
const MOST: usize = 2318;

// The four blocks, one behind the other. Answers the length.
fn write_sheet(table: &Accepted<'_>, text: &mut [u8]) -> usize
    requires { HasRoom text.old 0 (render (sheet_of table.now.bytes.now)) }
    ensures { Stored text.old 0 (render (sheet_of table.now.bytes.now)) text.new result }
{
    let c = table.counts;
    let line = put_bytes(text, 0, &COUNTS_NAMES);
    let second = write_values(text, line, &[c.states, c.steps, c.nodes, c.props]);
    let third = write_block::<State>(&STATES_NAMES, table.states, c.states, text, second);
    let fourth = write_block::<Step>(&STEPS_NAMES, table.steps, c.steps, text, third);
    write_block::<Node>(&NODES_NAMES, table.nodes, c.nodes, text, fourth)
}

/// Writes an accepted packed table as its sheet at the front of the lent buffer, and answers how many bytes it has:
/// at most 2,318. It is the inverse of Read (`sheets_round_trip`).
///
/// No program of this repository calls it, since `fit` prints the lines of a list alone, and the calls for C have no
/// such one: it is here for whoever has a packed table and wants its sheet.
// The sheet is written into bytes of the writer's own, enough for each accepted table, before the lent buffer is
// touched.
pub fn render_table(table: &[u8], out: &mut [u8]) -> Result<usize, Refusal>
    ensures value { result ≡ render_answer table.now out.old }
    ensures out_after { out.new ≡ render_buffer table.now out.old }
    ensures refused { IfErr result (RenderRefused table.now (length out.old)) }
    ensures written { IfOk result (λ k. RenderIsExact table.now k out.old out.new) }
    ensures untouched { OnErr result (out.new ≡ out.old) }
{
    let accepted = Accepted::try_from(table)?;
    let mut text = [0u8; MOST];
    let length = write_sheet(&accepted, &mut text);
    if out.len() < length {
        return Err(Refusal::ShortBuffer);
    }
    out[..length].copy_from_slice(&text[..length]);
    Ok(length)
}
