// Back from N, the AND over the steps out of a state, to these steps and to what is known at their ends.
ghost use Rattle.std.specs.Prelude.{◌≡◌, false, ◌≤◌, length};
ghost use Rattle.readers.specs.Readers.{words_end};
ghost use Rattle.propagate.specs.Back.{back_rows, back_row, back_report};
ghost use Rattle.propagate.specs.Marked.{RowsMarked};

use crate::graph::Graph;
use crate::layout::add_step;
use rows::{ROW_WORDS, Report, Row, both, push, step_row, union};

/// What going back from N found: what is added to the row of the ends, and the report on the step rows.
#[derive(Clone, Copy)]
pub struct Back {
    pub end: Row,
    pub report: Report,
}

/// Adds to the step rows what N, known at each state as `ahead` says, forces of them.
pub fn go_back(
    graph: &Graph,
    rows: &mut [u32; ROW_WORDS],
    looks: &mut [u32],
    ahead: Row,
    end: Row,
) -> Back
    requires room { words_end graph.now.readers ≤ length looks.old }
    ensures end_value { result.end ≡ back_row graph.now.targets ahead end rows.old graph.now.states }
    ensures report_value { result.report ≡ back_report graph.now.targets ahead end rows.old graph.now.states }
    ensures rows_after { rows.new ≡ back_rows graph.now.targets ahead end rows.old graph.now.states }
    ensures marked { RowsMarked graph.now.readers looks.old looks.new rows.old rows.new }
    ensures calm { result.report.changed ≡ false → looks.new ≡ looks.old }
{
    let mut back = Back {
        end: Row::default(),
        report: Report::default(),
    };
    for s in 0..graph.states {
        let x = step_row(rows, s);
        let p = push(s, graph.targets[s], x, ahead, end);
        back.end = union(back.end, p.end);
        back.report = both(back.report, add_step(graph, rows, looks, s, p.steps));
    }
    back
}
