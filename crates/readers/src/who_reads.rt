// Who reads what, as the code keeps it.
ghost use Rattle.readers.specs.Rising.{Rising};

/// Where the word of K lies, in front of those of the nodes.
pub const KEPT_WORD: usize = 0;

/// Where the nodes that read a node stand, from node 0 on, behind the states that read each state.
pub const NODE_READERS: usize = 32;

/// Where the nodes that read steps stand.
pub const STEP_READERS: usize = 64;

/// How many places there are for readers: one for each state, one for each node, and one for the steps.
pub const READER_PLACES: usize = 65;

/// How many places there are for where words begin: one for each node, and one for where all words end.
pub const FIRST_PLACES: usize = 33;

/// Who reads what, and where the words of each node begin: one for each row of its cells, so that its last is
/// followed by the first of the next node. They are arrays with places of several kinds, so that one `put` serves
/// both.
#[derive(Clone, Copy)]
pub struct Readers {
    pub of: [u32; READER_PLACES],
    pub first: [usize; FIRST_PLACES],
    pub ghost rising: { Rising first },
}
