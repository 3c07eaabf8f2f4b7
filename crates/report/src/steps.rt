// The lines of the steps: from, to and whether the step is kept.
ghost use Rattle.table.specs.Table.{steps_of};
ghost use Rattle.render.specs.Stored.{HasRoom, Stored};
ghost use Rattle.report.specs.Texts.{kept_lines};

use render::write_values;
use table::{Accepted, MOST_STEPS};

pub fn write_steps(
    table: &Accepted<'_>,
    list: &[u8; MOST_STEPS],
    text: &mut [u8],
    at: usize,
) -> usize
    requires { HasRoom text.old at (kept_lines (steps_of table.now.bytes.now) list.now) }
    ensures { Stored text.old at (kept_lines (steps_of table.now.bytes.now) list.now) text.new result }
{
    let mut place = at;
    for j in 0..table.step_count() {
        let x = table.step(j);
        place = write_values(text, place, &[x.from, x.to, list[j] as usize]);
    }
    place
}
