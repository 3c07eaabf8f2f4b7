// The calls of the fitter for C: each answers a number, stores what its answer carries, and leaves in every lent buffer
// what its contract says. Nothing else is exported. A crate is a library for other crates or an archive for C: the
// library is the crate fitter, whose calls answer by types.
#![tactic(auto)]

mod store;
mod table_answer;

ghost use Rattle.std.specs.Prelude.{◌≡◌, ◌↔◌, length};
ghost use Rattle.fitter_c.specs.Answers.{
  parcel_verdict,
  parcel_lists,
  parcel_bytes,
  parcel_words,
  parcel_answers,
  parcel_tables,
  parcel_left,
};
ghost use Rattle.table.specs.Facts.{IsTable};
ghost use Rattle.table.specs.Table.{table_of};
ghost use Rattle.table.specs.Verdict.{verdict_number};
ghost use Rattle.ctl.specs.Kept.{NarrowRepair};
ghost use Rattle.ctl.specs.Tests.{judge_verdict};
ghost use Rattle.label.specs.Calls.{label_verdict, label_buffer, holding_answer, holding_buffer};
ghost use Rattle.reader.specs.Read.{read_answer, read_buffer};
ghost use Rattle.search.specs.Answer.{answer_number};
ghost use Rattle.repair.specs.Right.{LongEnough, RepairIsRight};
ghost use Rattle.repair.specs.Effect.{repair_answer, repair_list, repair_bytes, repair_words};
ghost use Rattle.fitter_c.specs.Exports.{
  holding_count,
  read_length,
  repair_choices,
  repair_price,
  repair_settled,
  RepairStores,
  NumberStored,
};

use fitter::{Answer, MOST_TABLES};
use store::{store_answer, store_count};
use table_answer::{TableAnswer, store_answers};

/// 0 found, 14 none or 15 spent, and the choices, the price and the settled steps stored; or the refusal's number and
/// nothing stored or written.
#[tactic(auto, using(crate::proofs::Stored::repair_stores))]
#[unsafe(no_mangle)]
pub extern "C" fn fitter_repair(
    table: &[u8],
    cap: u64,
    list: &mut [u8],
    bytes: &mut [u8],
    words: &mut [u32],
    choices: &mut u64,
    price: &mut u32,
    settled: &mut u32,
) -> u32
    ensures value { result ≡ answer_number (repair_answer table.now cap list.old bytes.old words.old) }
    ensures list_after { list.new ≡ repair_list table.now cap list.old bytes.old words.old }
    ensures bytes_after { bytes.new ≡ repair_bytes table.now cap list.old bytes.old words.old }
    ensures words_after { words.new ≡ repair_words table.now cap list.old bytes.old words.old }
    ensures choices_after { choices.new
        ≡ repair_choices (repair_answer table.now cap list.old bytes.old words.old) choices.old }
    ensures price_after { price.new
        ≡ repair_price (repair_answer table.now cap list.old bytes.old words.old) price.old }
    ensures settled_after { settled.new
        ≡ repair_settled (repair_answer table.now cap list.old bytes.old words.old) settled.old }
    // the three numbers by cases of the answer: a refusal leaves them as they were
    ensures stored { RepairStores (repair_answer table.now cap list.old bytes.old words.old) choices.old price.old
        settled.old choices.new price.new settled.new }
    ensures right { LongEnough table.now list.old bytes.old words.old
        → RepairIsRight table.now cap (repair_answer table.now cap list.old bytes.old words.old) list.old list.new }
{
    store_answer(
        fitter::repair(table, cap, list, bytes, words),
        choices,
        price,
        settled,
    )
}

/// 0 where the list is a repair of the table in the narrower sense, else the refusal's number.
#[tactic(auto, using(crate::proofs::Judged::judged_exact))]
#[unsafe(no_mangle)]
pub extern "C" fn fitter_judge(table: &[u8], list: &[u8]) -> u32
    ensures value { result ≡ verdict_number (judge_verdict table.now list.now) }
    ensures exact { (result ≡ 0) ↔ (IsTable table.now × NarrowRepair (table_of table.now) list.now) }
{
    table::verdict_number(fitter::judge_list(table, list))
}

/// 0 and an entry for each node, or the refusal's number and nothing written.
#[unsafe(no_mangle)]
pub extern "C" fn fitter_label(table: &[u8], list: &[u8], out: &mut [u32]) -> u32
    ensures value { result ≡ verdict_number (label_verdict table.now list.now (length out.old)) }
    ensures out_after { out.new ≡ label_buffer table.now list.now out.old }
{
    table::verdict_number(fitter::label_nodes(table, list, out))
}

/// 0, the states of the root's set in reading order and their count, or the refusal's number and nothing written.
#[tactic(auto, using(crate::proofs::Stored::number_stored))]
#[unsafe(no_mangle)]
pub extern "C" fn fitter_holding(table: &[u8], list: &[u8], out: &mut [u8], count: &mut u32) -> u32
    ensures value { result ≡ verdict_number (holding_answer table.now list.now (length out.old)) }
    ensures out_after { out.new ≡ holding_buffer table.now list.now out.old }
    ensures count_after { count.new ≡ holding_count (holding_answer table.now list.now (length out.old)) count.old }
    ensures stored { NumberStored (holding_answer table.now list.now (length out.old)) count.old count.new }
{
    store_count(fitter::holding_states(table, list, out), count)
}

/// 0, the packed table of the sheet written and its length stored, or the refusal's number and nothing written.
#[tactic(auto, using(crate::proofs::Stored::number_stored))]
#[unsafe(no_mangle)]
pub extern "C" fn fitter_read(text: &[u8], out: &mut [u8], length: &mut u64) -> u32
    ensures value { result ≡ verdict_number (read_answer text.now out.old) }
    ensures out_after { out.new ≡ read_buffer text.now out.old }
    ensures length_after { length.new ≡ read_length (read_answer text.now out.old) length.old }
    ensures stored { NumberStored (read_answer text.now out.old) length.old length.new }
{
    store_count(fitter::read(text, out).map(|k| k as u64), length)
}

/// 0, an answer and a list for each table of the parcel, their number and what is left of the cap; or the refusal's
/// number, and nothing stored or written.
#[unsafe(no_mangle)]
pub extern "C" fn fitter_parcel(
    parcel: &[u8],
    cap: u64,
    lists: &mut [u8],
    bytes: &mut [u8],
    words: &mut [u32],
    answers: &mut [TableAnswer],
    tables: &mut u32,
    left: &mut u64,
) -> u32
    ensures value { result
        ≡ verdict_number (parcel_verdict parcel.now cap lists.old bytes.old words.old answers.old) }
    ensures lists_after { lists.new ≡ parcel_lists parcel.now cap lists.old bytes.old words.old answers.old }
    ensures bytes_after { bytes.new ≡ parcel_bytes parcel.now cap lists.old bytes.old words.old answers.old }
    ensures words_after { words.new ≡ parcel_words parcel.now cap lists.old bytes.old words.old answers.old }
    ensures answers_after { answers.new ≡ parcel_answers parcel.now cap lists.old bytes.old words.old answers.old }
    ensures tables_after { tables.new
        ≡ parcel_tables parcel.now cap lists.old bytes.old words.old answers.old tables.old }
    ensures left_after { left.new ≡ parcel_left parcel.now cap lists.old bytes.old words.old answers.old left.old }
{
    let mut own = [Answer::None {
        choices: 0,
        settled: 0,
    }; MOST_TABLES];
    let room = answers.len().min(MOST_TABLES);
    match fitter::repair_batch(parcel, cap, lists, bytes, words, &mut own[..room]) {
        Ok(end) => {
            store_answers(&own, end.tables as usize, answers);
            *tables = end.tables;
            *left = end.left;
            0
        }
        Err(refusal) => u32::from(refusal),
    }
}
