// A packed table that passes every test, cut into its sections once.
ghost use Rattle.std.specs.Prelude.{◌≡◌, ℕ, ◌<◌, Ok, length};
ghost use Rattle.table.specs.Table.{
  counts_of,
  states_part,
  steps_part,
  nodes_part,
  table_of,
  state_at,
  step_at,
  node_at,
};
ghost use Rattle.table.specs.Accept.{table_verdict};

use crate::counts::Counts;
use crate::header_check::check_header;
use crate::node_check::check_nodes;
use crate::record::{Node, State, Step, record_at};
use crate::refusal::Refusal;
use crate::section::{node_section, state_section, step_section};
use crate::state_check::check_states;
use crate::step_check::check_steps;

/// A packed table that is accepted: its bytes, its counts, and the three sections, each as a part of the bytes.
///
/// Whoever is handed one need not ask again whether the table is accepted. `try_from` makes it: it tests the bytes and
/// cuts them once.
#[derive(Clone, Copy)]
pub struct Accepted<'a> {
    pub bytes: &'a [u8],
    pub counts: Counts,
    pub states: &'a [u8],
    pub steps: &'a [u8],
    pub nodes: &'a [u8],
    pub ghost passes: { table_verdict bytes.now ≡ Ok tt },
    pub ghost counted: { counts ≡ counts_of bytes.now },
    pub ghost states_are: { states.now ≡ states_part bytes.now },
    pub ghost steps_are: { steps.now ≡ steps_part bytes.now },
    pub ghost nodes_are: { nodes.now ≡ nodes_part bytes.now },
    pub ghost prices_are_bytes: { (j : ℕ) → (step_at (table_of bytes.now) j).price < 256 },
}

impl<'a> TryFrom<&'a [u8]> for Accepted<'a> {
    type Error = Refusal;

    ghost use Rattle.table.specs.From.{AcceptedFrom};

    ghost try_from_gives = { λ bytes r. AcceptedFrom bytes.now r };

    fn try_from(bytes: &'a [u8]) -> Result<Accepted<'a>, Refusal> {
        let counts = check_header(bytes)?;
        let states = state_section(bytes, counts);
        let steps = step_section(bytes, counts);
        let nodes = node_section(bytes, counts);
        check_states(states, counts.states, counts.props)?;
        check_steps(steps, counts.steps, counts.states)?;
        check_nodes(nodes, counts.nodes, counts.props)?;
        Ok(Accepted {
            bytes,
            counts,
            states,
            steps,
            nodes,
        })
    }
}

impl<'a> Accepted<'a> {
    /// How many states the table has: 1 to 32.
    pub fn state_count(&self) -> usize
        ensures { result ≡ length (table_of self.now.bytes.now).states }
    {
        self.counts.states
    }

    /// How many steps the table has: at most 128.
    pub fn step_count(&self) -> usize
        ensures { result ≡ length (table_of self.now.bytes.now).steps }
    {
        self.counts.steps
    }

    /// How many nodes the table has: 1 to 32. The last one is the root of the rule.
    pub fn node_count(&self) -> usize
        ensures { result ≡ length (table_of self.now.bytes.now).nodes }
    {
        self.counts.nodes
    }

    /// The state with this number, from 0 on. A number past the last one reads as zeros, here and below.
    pub fn state(&self, s: usize) -> State
        ensures { result ≡ state_at (table_of self.now.bytes.now) s }
    {
        record_at(self.states, s)
    }

    /// The step with this number. Its ends are states of the table, and a price is at most 255.
    pub fn step(&self, j: usize) -> Step
        ensures { result ≡ step_at (table_of self.now.bytes.now) j }
    {
        record_at(self.steps, j)
    }

    /// The node with this number. Its children have lower numbers.
    pub fn node(&self, i: usize) -> Node
        ensures { result ≡ node_at (table_of self.now.bytes.now) i }
    {
        record_at(self.nodes, i)
    }
}
