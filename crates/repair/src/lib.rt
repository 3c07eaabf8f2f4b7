// Repair: the cheapest repair of a table, searched for under a cap and struck, in buffers that the caller lends.
#![tactic(auto)]

mod laws;
mod reached;
mod run;
mod strike;

ghost use Rattle.std.specs.Prelude.{◌≡◌, ◌↔◌, replicate};
ghost use Rattle.table.specs.Buffer.{Written};
ghost use Rattle.table.specs.Table.{table_of};
ghost use Rattle.circuit.specs.Variables.{variable_formula};
ghost use Rattle.search.specs.Answer.{IfRefused};
ghost use Rattle.repair.specs.Effect.{repair_answer, repair_list, repair_bytes, repair_words};
ghost use Rattle.repair.specs.Refused.{RepairRefused};
ghost use Rattle.repair.specs.Right.{LongEnough, RepairIsRight};

use events::Net;
pub use laws::repair_is_right;
use run::run;
use search::Answer;
use table::{Accepted, Refusal};

/// `repair` of a table that has passed its tests already; `repair_is_right` says what the answer and the list mean.
/// Nothing is written before the buffers are measured. The search is lent a word for each variable of the table's
/// circuit; the work bytes are not used, only cleared.
pub fn repair_accepted(
    table: &Accepted<'_>,
    cap: u64,
    list: &mut [u8],
    bytes: &mut [u8],
    words: &mut [u32],
) -> Answer
    ensures value { result ≡ repair_answer table.now.bytes.now cap list.old bytes.old words.old }
    ensures list_after { list.new ≡ repair_list table.now.bytes.now cap list.old bytes.old words.old }
    ensures bytes_after { bytes.new ≡ repair_bytes table.now.bytes.now cap list.old bytes.old words.old }
    ensures words_after { words.new ≡ repair_words table.now.bytes.now cap list.old bytes.old words.old }
{
    let e = table.step_count();
    let v = circuit::variable_count(table);
    if list.len() < e {
        return Answer::Refused(Refusal::ShortBuffer);
    }
    if bytes.len() < v {
        return Answer::Refused(Refusal::ShortBuffer);
    }
    if words.len() < v {
        return Answer::Refused(Refusal::ShortBuffer);
    }
    let net = Net::new(*table);
    let answer = run(&net, cap, list, &mut words[..v]);
    bytes[..v].fill(0);
    words[..v].fill(0);
    answer
}

/// Searches for the cheapest repair of a table, and writes it to the front of `list`, with every step struck that
/// leaves a state which is not reached. Any bytes may be handed over as a table, and buffers of any length.
pub fn repair(
    table: &[u8],
    cap: u64,
    list: &mut [u8],
    bytes: &mut [u8],
    words: &mut [u32],
) -> Answer
    ensures value { result ≡ repair_answer table.now cap list.old bytes.old words.old }
    ensures list_after { list.new ≡ repair_list table.now cap list.old bytes.old words.old }
    ensures bytes_after { bytes.new ≡ repair_bytes table.now cap list.old bytes.old words.old }
    ensures words_after { words.new ≡ repair_words table.now cap list.old bytes.old words.old }
    ensures refused { IfRefused result (RepairRefused table.now list.old bytes.old words.old) }
    ensures untouched { IfRefused result (λ r.
        (list.new ≡ list.old) × ((bytes.new ≡ bytes.old) × (words.new ≡ words.old))) }
    // it is not refused just where the bytes are a table and the buffers are long enough
    ensures answered { IfRefused result (λ r. ⊥) ↔ LongEnough table.now list.old bytes.old words.old }
    ensures right { LongEnough table.now list.old bytes.old words.old
        → RepairIsRight table.now cap result list.old list.new }
    // both work buffers are 0 as far as the variables go, and stay behind these
    ensures cleared { LongEnough table.now list.old bytes.old words.old
        → Written (replicate (variable_formula (table_of table.now)) 0) bytes.old bytes.new
        × Written (replicate (variable_formula (table_of table.now)) 0) words.old words.new }
{
    match Accepted::try_from(table) {
        Ok(accepted) => repair_accepted(&accepted, cap, list, bytes, words),
        Err(refusal) => Answer::Refused(refusal),
    }
}
