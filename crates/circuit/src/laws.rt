// Laws of the circuit, each for every table that is well formed.
ghost use Rattle.circuit.specs.Exact.{ModelsAreTheRepairs, VariablesAreTheNumbers};

/// The assignments that make the clauses true are the repairs, in both directions: a list extends to the gates in just
/// one way, and what it then makes of the clauses says whether it is a repair under path meaning.
#[tactic(auto, using(crate::proofs::Models::models_are_the_repairs))]
pub fn models_are_the_repairs()
    ensures { ModelsAreTheRepairs }
{}

/// A variable is told by its number, step j by number j, and the formula of V counts the variables: at most 223,392.
pub fn variables_are_the_numbers()
    ensures { VariablesAreTheNumbers }
{}
