// What Repair answers of one table of several, as C has it.
ghost use Rattle.std.specs.Prelude.{◌≡◌, ◌≤◌, length, map};
ghost use Rattle.table.specs.Buffer.{over};
ghost use Rattle.fitter_c.specs.Answers.{for_c};

use fitter::Answer;

/// One answer: its number, 0 found, 14 none and 15 spent; the choices, the price, which is 0 with 14 and 15, and the
/// settled steps. In `fitter.h` it is `fitter_answer`.
#[repr(C)]
#[derive(Clone, Copy)]
pub struct TableAnswer {
    pub choices: u64,
    pub number: u32,
    pub price: u32,
    pub settled: u32,
}

impl From<Answer> for TableAnswer {
    ghost from_gives = { λ answer c. c ≡ for_c answer };

    fn from(answer: Answer) -> TableAnswer {
        match answer {
            Answer::Found {
                price,
                choices,
                settled,
            } => TableAnswer {
                choices,
                number: 0,
                price,
                settled,
            },
            Answer::None { choices, settled } => TableAnswer {
                choices,
                number: 14,
                price: 0,
                settled,
            },
            Answer::Spent { choices, settled } => TableAnswer {
                choices,
                number: 15,
                price: 0,
                settled,
            },
            Answer::Refused(refusal) => TableAnswer {
                choices: 0,
                number: u32::from(refusal),
                price: 0,
                settled: 0,
            },
        }
    }
}

// The first answers of a batch, in the front of the buffer that C lends.
pub fn store_answers(answers: &[Answer], count: usize, out: &mut [TableAnswer])
    requires given { count ≤ length answers.now }
    requires room { count ≤ length out.old }
    ensures { out.new ≡ over count (map for_c answers.now) out.old }
{
    for k in 0..count {
        out[k] = TableAnswer::from(answers[k]);
    }
}
