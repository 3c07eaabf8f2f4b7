// What a node says of its children: its kind read as an operator.
ghost use Rattle.std.specs.Prelude.{◌≡◌};
ghost use Rattle.table.specs.Family.{family_of, second_of};
ghost use Rattle.table.specs.Operator.{quantifier_at, operator_of};

use crate::record::Node;

/// What a fixed-point kind says along a path: a V b (release), a U b (until), F b (eventually) or G b (always).
// Each has levels, and differs in what a level joins.
#[derive(Clone, Copy, Debug, PartialEq, Eq)]
pub enum Family {
    Release,
    Until,
    Eventually,
    Always,
}

/// The path quantifier: on every path, or on some path.
#[derive(Clone, Copy, Debug, PartialEq, Eq)]
pub enum Quantifier {
    Every,
    Some,
}

/// A node read by its kind, 0 to 15 in order. An atom has the number of a proposition, and a child the number of its
/// node.
///
/// A fixed point has two children: a and b of a V b and a U b. The one child of F and G stands in both places.
// The children stand by their numbers, as in the table that the caller lends: there is no heap to hold a tree. Level 0
// of a fixed point is the set of the second child.
#[derive(Clone, Copy, Debug, PartialEq, Eq)]
pub enum Operator {
    Constant(bool),
    Atom(usize),
    Negation(usize),
    Conjunction(usize, usize),
    Disjunction(usize, usize),
    Next(Quantifier, usize),
    Fixpoint(Family, Quantifier, usize, usize),
}

impl From<Node> for Operator {
    ghost from_gives = { λ x operator. operator ≡ operator_of x };

    // A kind above 15, which no accepted table has, reads as false.
    fn from(x: Node) -> Operator {
        let (a, b) = (x.a, x.b);
        let q = quantifier_of(x.kind);
        match x.kind {
            1 => Operator::Constant(true),
            2 => Operator::Atom(a),
            3 => Operator::Negation(a),
            4 => Operator::Conjunction(a, b),
            5 => Operator::Disjunction(a, b),
            6 | 7 => Operator::Next(q, a),
            8..=15 => Operator::Fixpoint(family_of(x.kind), q, a, second_child(x)),
            _ => Operator::Constant(false),
        }
    }
}

// From kind 6 on, an even kind is of every path and an odd one of some path. No `From`: a number is not always a kind
// that has a quantifier.
fn quantifier_of(kind: usize) -> Quantifier
    ensures { result ≡ quantifier_at kind }
{
    if kind % 2 == 0 {
        Quantifier::Every
    } else {
        Quantifier::Some
    }
}

// The family of a kind from 8 on. No `From`, as above; a number below 8 or above 15 gets one too.
fn family_of(kind: usize) -> Family
    ensures { result ≡ family_of kind }
{
    match kind {
        ..10 => Family::Release,
        10 | 11 => Family::Until,
        12 | 13 => Family::Eventually,
        _ => Family::Always,
    }
}

// The child whose set is level 0: of kinds 12 to 15, which have one child, that one. By the number: of the operators
// four have no second child to give.
fn second_child(x: Node) -> usize
    ensures { result ≡ second_of x }
{
    if x.kind < 12 { x.b } else { x.a }
}
