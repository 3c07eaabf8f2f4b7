// The sections of a packed table, each as a part of the caller's slice. Whoever goes through one is handed its count
// too: of any bytes a section may be cut short, and what is missing reads as zeros.
ghost use Rattle.std.specs.Prelude.{◌≡◌};
ghost use Rattle.table.specs.Table.{counts_of, states_part, steps_part, nodes_part};

use crate::counts::Counts;
use crate::part::part_of;
use crate::width::{HEADER_WIDTH, RECORD_WIDTH};

// The bytes of the state records, for whoever has read the counts; likewise below.
pub fn state_section(table: &[u8], c: Counts) -> &[u8]
    requires { c ≡ counts_of table.now }
    ensures { result.now ≡ states_part table.now }
{
    part_of(table, HEADER_WIDTH, RECORD_WIDTH * c.states)
}

// The bytes of the step records.
pub fn step_section(table: &[u8], c: Counts) -> &[u8]
    requires { c ≡ counts_of table.now }
    ensures { result.now ≡ steps_part table.now }
{
    part_of(
        table,
        HEADER_WIDTH + RECORD_WIDTH * c.states,
        RECORD_WIDTH * c.steps,
    )
}

// The bytes of the node records.
pub fn node_section(table: &[u8], c: Counts) -> &[u8]
    requires { c ≡ counts_of table.now }
    ensures { result.now ≡ nodes_part table.now }
{
    let start = HEADER_WIDTH + RECORD_WIDTH * c.states + RECORD_WIDTH * c.steps;
    part_of(table, start, RECORD_WIDTH * c.nodes)
}
