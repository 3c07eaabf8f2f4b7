// Test 1: the form of the whole text, with the counts as written.
ghost use Rattle.std.specs.Prelude.{◌≡◌};
ghost use Rattle.sheet.specs.Parse.{parse};
ghost use Rattle.sheet.specs.Reading.{form_reading};

use crate::block::{block, counts_block};
use crate::names::{NODES_NAMES, STATES_NAMES, STEPS_NAMES};
use table::{Counts, Node, State, Step};

/// A text of sheet form, taken apart: the counts, and the text from the first line of the states, of the steps and of
/// the nodes on, each up to the end of the whole. The counts are as written, and may be out of their ranges.
#[derive(Clone, Copy)]
pub struct Form<'a> {
    pub counts: Counts,
    pub states: &'a [u8],
    pub steps: &'a [u8],
    pub nodes: &'a [u8],
}

/// Test 1, of the whole text: a text that is not of sheet form is None.
#[tactic(auto, unfolding(crate::specs::Parse::sheet_parser, crate::specs::Parse::parse))]
pub fn check_form(text: &[u8]) -> Option<Form<'_>>
    ensures { form_reading result ≡ parse text.now }
{
    let (counts, rest) = counts_block(text)?;
    let (states, rest) = block::<State>(rest, &STATES_NAMES, counts.states)?;
    let (steps, rest) = block::<Step>(rest, &STEPS_NAMES, counts.steps)?;
    let (nodes, rest) = block::<Node>(rest, &NODES_NAMES, counts.nodes)?;
    if !rest.is_empty() {
        return None;
    }
    Some(Form {
        counts,
        states,
        steps,
        nodes,
    })
}
