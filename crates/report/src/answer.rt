// What is printed of each answer.
ghost use Rattle.render.specs.Stored.{HasRoom, Stored};
ghost use Rattle.report.specs.Texts.{refused, found_text};
ghost use Rattle.report.specs.Report.{answer_text};

use crate::lines::write_answer;
use crate::steps::write_steps;
use render::{put_bytes, write_values};
use search::Answer;
use table::{Accepted, MOST_STEPS, Refusal};

pub fn write_refused(out: &mut [u8], refusal: Refusal) -> usize
    requires { HasRoom out.old 0 (refused refusal) }
    ensures { Stored out.old 0 (refused refusal) out.new result }
{
    let number = u32::from(refusal);
    let at = put_bytes(out, 0, b"answer number\nrefused ");
    write_values(out, at, &[number as usize])
}

fn write_found(
    table: &Accepted<'_>,
    price: u32,
    choices: u64,
    list: &[u8; MOST_STEPS],
    out: &mut [u8],
) -> usize
    requires { HasRoom out.old 0 (found_text table.now.bytes.now price choices list.now) }
    ensures { Stored out.old 0 (found_text table.now.bytes.now price choices list.now) out.new result }
{
    let third = write_answer(out, b"found ", choices as usize, price as usize);
    let at = put_bytes(out, third, b"from to kept\n");
    write_steps(table, list, out, at)
}

pub fn write_result(
    table: &Accepted<'_>,
    answer: Answer,
    list: &[u8; MOST_STEPS],
    out: &mut [u8],
) -> usize
    requires { HasRoom out.old 0 (answer_text table.now.bytes.now answer list.now) }
    ensures { Stored out.old 0 (answer_text table.now.bytes.now answer list.now) out.new result }
{
    match answer {
        Answer::Found { price, choices, .. } => write_found(table, price, choices, list, out),
        Answer::None { choices, .. } => write_answer(out, b"none ", choices as usize, 0),
        Answer::Spent { choices, .. } => write_answer(out, b"spent ", choices as usize, 0),
        Answer::Refused(refusal) => write_refused(out, refusal),
    }
}
