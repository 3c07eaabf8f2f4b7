// The numbers that C gets: the number of an answer, and what the answer carries stored in the numbers that C lends.
// fitter.h declares no enum or struct for them.
ghost use Rattle.std.specs.Prelude.{◌≡◌};
ghost use Rattle.table.specs.Verdict.{verdict_number};
ghost use Rattle.search.specs.Answer.{answer_number};
ghost use Rattle.fitter_c.specs.Exports.{given, repair_choices, repair_price, repair_settled};

use fitter::{Answer, Refusal};

fn store(
    choices: &mut u64,
    price: &mut u32,
    settled: &mut u32,
    c: u64,
    p: u32,
    k: u32,
    number: u32,
) -> u32
    ensures value { result ≡ number }
    ensures choices_after { choices.new ≡ c }
    ensures price_after { price.new ≡ p }
    ensures settled_after { settled.new ≡ k }
{
    *choices = c;
    *price = p;
    *settled = k;
    number
}

// Repair's number: 0 found, 14 none, 15 spent, and the choices, the price, 0 for none and spent, and the settled steps
// stored; or the refusal's number and nothing stored.
pub fn store_answer(answer: Answer, choices: &mut u64, price: &mut u32, settled: &mut u32) -> u32
    ensures value { result ≡ answer_number answer }
    ensures choices_after { choices.new ≡ repair_choices answer choices.old }
    ensures price_after { price.new ≡ repair_price answer price.old }
    ensures settled_after { settled.new ≡ repair_settled answer settled.old }
{
    match answer {
        Answer::Found {
            price: p,
            choices: c,
            settled: k,
        } => store(choices, price, settled, c, p, k, 0),
        Answer::None {
            choices: c,
            settled: k,
        } => store(choices, price, settled, c, 0, k, 14),
        Answer::Spent {
            choices: c,
            settled: k,
        } => store(choices, price, settled, c, 0, k, 15),
        Answer::Refused(refusal) => u32::from(refusal),
    }
}

// The number of an answer that carries a count, and the count stored. After a refusal it stays. Not `verdict_number`
// behind an `if let`, which the borrow checker does not cover for a generic answer.
pub fn store_count<T: Copy>(answer: Result<T, Refusal>, count: &mut T) -> u32
    ensures value { result ≡ verdict_number answer }
    ensures count_after { count.new ≡ given answer count.old }
{
    match answer {
        Ok(k) => {
            *count = k;
            0
        }
        Err(refusal) => u32::from(refusal),
    }
}
