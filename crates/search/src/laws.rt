// What the search promises, as the contract of a function that does nothing.
ghost use Rattle.table.specs.Table.{Table};
ghost use Rattle.table.specs.Facts.{Wellformed};
ghost use Rattle.search.specs.Right.{SearchIsRight};

/// For every table that passes the table's tests: which answer its search gives, with which list, price and counts,
/// under every cap; and that the closure that it computes is the smallest set that the clauses force.
pub fn search_is_right()
    ensures { (T : Table) → Wellformed T → SearchIsRight T }
{}
