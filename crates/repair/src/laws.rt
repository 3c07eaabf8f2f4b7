// What Repair promises, as the contract of a function that does nothing: for callers of `repair_accepted`.
ghost use Rattle.repair.specs.Right.{EveryRepairIsRight};

/// What `repair_answer` and `repair_list` mean, of every table and cap, with buffers that are long enough.
pub fn repair_is_right()
    ensures { EveryRepairIsRight }
{}
