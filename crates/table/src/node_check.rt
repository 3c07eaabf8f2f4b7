// The test of the node records.
ghost use Rattle.std.specs.Prelude.{◌≡◌};
ghost use Rattle.table.specs.Table.{records, node_of, node_width};
ghost use Rattle.table.specs.Accept.{fields_fit, nodes_verdict};

use crate::record::{Node, record_at};
use crate::refusal::Refusal;
use crate::shape::{Shape, shape_of};

fn fields_fit(shape: Shape, p: usize, i: usize, a: usize, b: usize) -> bool
    ensures { result ≡ fields_fit shape p i a b }
{
    match shape {
        Shape::Constant => a == 0 && b == 0,
        Shape::Proposition => a < p && b == 0,
        Shape::Unary => a < i && b == 0,
        Shape::Binary => a < i && b < i,
        Shape::Unknown => false,
    }
}

pub fn check_nodes(section: &[u8], f: usize, p: usize) -> Result<(), Refusal>
    ensures { result ≡ nodes_verdict p (records node_of node_width f section.now) }
{
    for i in 0..f {
        let x: Node = record_at(section, i);
        if !fields_fit(shape_of(x.kind), p, i, x.a, x.b) {
            return Err(Refusal::NodeRecord);
        }
    }
    Ok(())
}
