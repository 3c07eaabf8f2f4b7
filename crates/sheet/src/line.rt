// The lines of values: each gives its record and the text behind it.
ghost use Rattle.std.specs.Prelude.{◌≡◌};
ghost use Rattle.sheet.specs.Parse.{Parser, counts_parser, state_parser, step_parser, node_parser};
ghost use Rattle.sheet.specs.Reading.{reading};

use crate::field::{NEWLINE, SPACE, read_field};
use table::{Counts, Node, State, Step};

/// A record that a line of a sheet holds.
pub trait Line: Copy {
    ghost parser: { Parser Self };

    /// The record that the first line of the text holds, and the text behind that line. None where the line is out of
    /// form.
    fn read(text: &[u8]) -> Option<(Self, &[u8])>
        ensures { reading result ≡ parser text.now };
}

impl Line for Counts {
    ghost parser = { counts_parser };

    fn read(text: &[u8]) -> Option<(Counts, &[u8])> {
        let (states, rest) = read_field(text, 255, SPACE)?;
        let (steps, rest) = read_field(rest, 255, SPACE)?;
        let (nodes, rest) = read_field(rest, 255, SPACE)?;
        let (props, rest) = read_field(rest, 255, NEWLINE)?;
        Some((
            Counts {
                states,
                steps,
                nodes,
                props,
            },
            rest,
        ))
    }
}

impl Line for State {
    ghost parser = { state_parser };

    fn read(text: &[u8]) -> Option<(State, &[u8])> {
        let (initial, rest) = read_field(text, 255, SPACE)?;
        let (label, rest) = read_field(rest, 65535, NEWLINE)?;
        Some((State { initial, label }, rest))
    }
}

// A step and a node differ in their fields' names alone, which no generic function can name.
impl Line for Step {
    ghost parser = { step_parser };

    fn read(text: &[u8]) -> Option<(Step, &[u8])> {
        let (from, rest) = read_field(text, 255, SPACE)?;
        let (to, rest) = read_field(rest, 255, SPACE)?;
        let (price, rest) = read_field(rest, 255, NEWLINE)?;
        Some((Step { from, to, price }, rest))
    }
}

impl Line for Node {
    ghost parser = { node_parser };

    fn read(text: &[u8]) -> Option<(Node, &[u8])> {
        let (kind, rest) = read_field(text, 255, SPACE)?;
        let (a, rest) = read_field(rest, 255, SPACE)?;
        let (b, rest) = read_field(rest, 255, NEWLINE)?;
        Some((Node { kind, a, b }, rest))
    }
}
