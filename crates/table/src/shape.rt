// What a node of a kind has in its fields.
ghost use Rattle.std.specs.Prelude.{◌≡◌};
ghost use Rattle.table.specs.Shape.{shape_of};

// What the fields a and b of a kind are: unused, a proposition, one child or two. `Unknown` is no Option: the
// definitions' list of shapes ends in it, and of each shape, this one too, it is said which fields fit.
#[derive(Clone, Copy)]
pub enum Shape {
    Constant,
    Proposition,
    Unary,
    Binary,
    Unknown,
}

// A kind is a number of the table until this has found it to be one of those that are known.
pub fn shape_of(kind: usize) -> Shape
    ensures { result ≡ shape_of kind }
{
    match kind {
        0 | 1 => Shape::Constant,
        2 => Shape::Proposition,
        3 | 6 | 7 | 12 | 13 | 14 | 15 => Shape::Unary,
        4 | 5 | 8 | 9 | 10 | 11 => Shape::Binary,
        _ => Shape::Unknown,
    }
}
