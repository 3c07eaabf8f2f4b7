// How many vectors there were and how many agreed, by expected number and in all, and with how many accepted tables the
// count of variables agreed.
#[derive(Clone, Copy, Default)]
pub struct Count {
    pub vectors: u64,
    pub agreed: u64,
}

impl Count {
    // There are too few vectors for a count to reach its limit.
    fn add(&mut self, agrees: bool) {
        self.vectors = self.vectors.saturating_add(1);
        self.agreed = self.agreed.saturating_add(u64::from(agrees));
    }
}

#[derive(Clone, Copy, Default)]
pub struct Tally {
    pub by_number: [Count; 16],
    pub all: Count,
    pub variables: Count,
    // a line was out of form, and nothing more is read: a flag and no Err, since the counts before it are printed too
    pub broken: bool,
}

impl Tally {
    // Counts one vector of this expected number. None where the number is above 15: no refusal of a table or a list has
    // it.
    pub fn add_vector(&mut self, number: usize, agrees: bool) -> Option<()> {
        self.by_number.get_mut(number)?.add(agrees);
        self.all.add(agrees);
        Some(())
    }

    pub fn add_variables(&mut self, agrees: bool) {
        self.variables.add(agrees);
    }
}
