// The states that a list reaches, for test 16.
ghost use Rattle.judge.specs.Reached.{Least};

// From the starts, by the rows of next states. Each state that is reached is looked at once: `left` has those whose
// row is not yet added.
pub fn reached_states(rows: &[u32; 32], starts: u32) -> u32
    ensures { Least rows.now starts result }
{
    let mut reached = starts;
    let mut left = starts;
    while left != 0 {
        let s = sets::lowest(left);
        let new = sets::minus(rows[s], reached);
        reached = sets::union(reached, new);
        left = sets::union(sets::remove(left, s), new);
    }
    reached
}
