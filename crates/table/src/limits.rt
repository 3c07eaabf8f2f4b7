// How large a table may be. Specification, "Step tables".

/// The most states.
pub const MOST_STATES: usize = 32;

/// The most steps.
pub const MOST_STEPS: usize = 128;

/// The most nodes.
pub const MOST_NODES: usize = 32;

/// The most propositions.
pub const MOST_PROPS: usize = 16;
