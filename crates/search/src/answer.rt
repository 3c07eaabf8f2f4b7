// The answer of Repair.
use table::Refusal;

/// What Repair answers. What was found has its price; found, none and spent carry the choices made and how many steps
/// the closure of nothing settles; refused carries which refusal. The list that was found stands in its lent buffer.
#[derive(Clone, Copy, Debug, PartialEq, Eq)]
pub enum Answer {
    Found {
        price: u32,
        choices: u64,
        settled: u32,
    },
    None {
        choices: u64,
        settled: u32,
    },
    Spent {
        choices: u64,
        settled: u32,
    },
    Refused(Refusal),
}
