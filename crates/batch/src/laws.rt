// What a batch is.
ghost use Rattle.batch.specs.Right.{BatchesAreUnique};

/// The tables of a batch are told apart by their own counts, and so in one way only.
pub fn batches_are_unique()
    ensures { BatchesAreUnique }
{}
