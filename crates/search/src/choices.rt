// The record of choices: how many were made, and how many may be.
ghost use Rattle.std.specs.Prelude.{◌≡◌, ◌≤◌};
ghost use Rattle.search.specs.NextCount.{next_count};

// That `made` is at most the cap is asked, and is no ghost field: the definition of the next count makes the same
// struct, and would have to prove it.

/// How many choices were made, and how many may be made at most.
#[derive(Clone, Copy)]
pub struct Choices {
    pub made: u64,
    pub cap: u64,
}

impl Choices {
    /// The record with one choice more; none at the cap.
    pub fn step(self) -> Option<Choices>
        requires { self.made ≤ self.cap }
        ensures { result ≡ next_count self }
    {
        if self.made == self.cap {
            return None;
        }
        Some(Choices {
            made: self.made + 1,
            cap: self.cap,
        })
    }
}
