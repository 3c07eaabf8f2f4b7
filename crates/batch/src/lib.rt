// Several tables end to end, each repaired in its turn under what the earlier ones have left of one allowance.
#![tactic(auto)]

mod laws;
mod measure;
mod repair_each;

ghost use Rattle.std.specs.Prelude.{◌≡◌, ◌↔◌, length, IsOk, IfOk, IfErr, OnErr};
ghost use Rattle.batch.specs.Effect.{batch_end, batch_lists, batch_bytes, batch_words, batch_answers};
ghost use Rattle.batch.specs.Right.{BatchTaken, BatchRefused, BatchIsRight};

pub use laws::batches_are_unique;
use measure::measure;
use repair_each::repair_each;
use search::Answer;
use table::Refusal;

/// How many tables a batch has at most.
pub const MOST_TABLES: usize = 8;

/// How many tables there were, and what they have left of the cap.
#[derive(Clone, Copy, Debug, PartialEq, Eq)]
pub struct BatchEnd {
    pub tables: u32,
    pub left: u64,
}

/// Repairs one to eight tables that stand end to end, the first under the cap and each further one under what those
/// before it have left. `lists` has a byte for each step of all tables, in order; `bytes` and `words` an entry for each
/// variable of the table that has most; `answers` an entry for each table.
pub fn repair_batch(
    tables: &[u8],
    cap: u64,
    lists: &mut [u8],
    bytes: &mut [u8],
    words: &mut [u32],
    answers: &mut [Answer],
) -> Result<BatchEnd, Refusal>
    ensures value { result ≡ batch_end tables.now cap lists.old bytes.old words.old answers.old }
    ensures lists_after { lists.new ≡ batch_lists tables.now cap lists.old bytes.old words.old answers.old }
    ensures bytes_after { bytes.new ≡ batch_bytes tables.now cap lists.old bytes.old words.old answers.old }
    ensures words_after { words.new ≡ batch_words tables.now cap lists.old bytes.old words.old answers.old }
    ensures answers_after { answers.new ≡ batch_answers tables.now cap lists.old bytes.old words.old answers.old }
    ensures accepted { IsOk result
        ↔ BatchTaken tables.now (length lists.old) (length bytes.old) (length words.old) (length answers.old) }
    ensures refused { IfErr result
        (BatchRefused tables.now (length lists.old) (length bytes.old) (length words.old) (length answers.old)) }
    ensures untouched { OnErr result
        ((lists.new ≡ lists.old)
        × ((bytes.new ≡ bytes.old) × ((words.new ≡ words.old) × (answers.new ≡ answers.old)))) }
    ensures right { IfOk result (λ end. BatchIsRight tables.now cap end.tables end.left answers.old answers.new
        lists.old lists.new bytes.old bytes.new words.old words.new) }
{
    let Some(needs) = measure(tables, MOST_TABLES) else {
        return Err(Refusal::NotTables);
    };
    if needs.tables == 0 {
        return Err(Refusal::NotTables);
    }
    if lists.len() < needs.steps
        || bytes.len() < needs.variables
        || words.len() < needs.variables
        || answers.len() < needs.tables
    {
        return Err(Refusal::ShortBuffer);
    }
    let left = repair_each(tables, MOST_TABLES, cap, lists, bytes, words, answers);
    Ok(BatchEnd {
        tables: needs.tables as u32,
        left,
    })
}
