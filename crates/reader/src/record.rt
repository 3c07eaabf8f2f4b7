// The bytes of the counts and of a record in a packed table. A label is two bytes, the low one first.
ghost use Rattle.std.specs.Prelude.{◌≡◌, List, ℕ};
ghost use Rattle.sheet.specs.Form.{CountsInRange, StateInRange, StepInRange, NodeInRange};
ghost use Rattle.sheet.specs.Parse.{got};
ghost use Rattle.sheet.proofs.Lines.{state_exact, step_exact, node_exact};
ghost use Rattle.reader.specs.Read.{pack_counts, pack_state, pack_step, pack_node};

use sheet::Line;
use table::{Counts, Node, State, Step};

// A record that is read from a line of a sheet, and packed where its values are in their ranges, as those of a line
// are.
pub trait PackedRecord: Line {
    ghost in_range: { Self → Type 0 };

    ghost packed: { Self → List ℕ };

    // No `From`: `from` asks nothing of its value, and the bytes need the values in their ranges.
    fn bytes(self) -> [u8; 3]
        requires { in_range self }
        ensures { result ≡ packed self };

    ghost lines_in_range: { (text : List ℕ) (x : Self) (rest : List ℕ) → Self.parser text ≡ got x rest → in_range x };
}

impl PackedRecord for State {
    ghost in_range = { StateInRange };

    ghost packed = { pack_state };

    fn bytes(self) -> [u8; 3] {
        [
            self.initial as u8,
            (self.label % 256) as u8,
            (self.label / 256) as u8,
        ]
    }

    ghost lines_in_range = { λ text x rest e. (state_exact.sound text x rest e).0 };
}

impl PackedRecord for Step {
    ghost in_range = { StepInRange };

    ghost packed = { pack_step };

    fn bytes(self) -> [u8; 3] {
        [self.from as u8, self.to as u8, self.price as u8]
    }

    ghost lines_in_range = { λ text x rest e. (step_exact.sound text x rest e).0 };
}

impl PackedRecord for Node {
    ghost in_range = { NodeInRange };

    ghost packed = { pack_node };

    fn bytes(self) -> [u8; 3] {
        [self.kind as u8, self.a as u8, self.b as u8]
    }

    ghost lines_in_range = { λ text x rest e. (node_exact.sound text x rest e).0 };
}

pub fn counts_bytes(c: Counts) -> [u8; 4]
    requires { CountsInRange c }
    ensures { result ≡ pack_counts c }
{
    [c.states as u8, c.steps as u8, c.nodes as u8, c.props as u8]
}
