// Each table in its turn, with its part of the lists and its answer.
ghost use Rattle.std.specs.Prelude.{◌≡◌, ◌≤◌, ◌++◌, length, drop, IsSome};
ghost use Rattle.repair.specs.Effect.{cleared};
ghost use Rattle.batch.specs.Batch.{most_variables};
ghost use Rattle.batch.specs.Effect.{tables_in, all_steps, answers_of, lists_after, left_after};
ghost use Rattle.batch.specs.Needs.{tables_or_none};
ghost use Rattle.batch.specs.Right.{choices_in};

use repair::repair_accepted;
use search::Answer;
use table::first_table;

// The choices that an answer carries.
fn choices_of(answer: Answer) -> u64
    ensures { result ≡ choices_in answer }
{
    match answer {
        Answer::Found { choices, .. } => choices,
        Answer::None { choices, .. } => choices,
        Answer::Spent { choices, .. } => choices,
        Answer::Refused(_) => 0,
    }
}

/// What is left of the cap.
pub fn repair_each(
    rest: &[u8],
    most: usize,
    cap: u64,
    lists: &mut [u8],
    bytes: &mut [u8],
    words: &mut [u32],
    answers: &mut [Answer],
) -> u64
    requires tables { IsSome (tables_in most rest.now) }
    requires lists_room { all_steps (tables_or_none (tables_in most rest.now)) ≤ length lists.old }
    requires bytes_room { most_variables (tables_or_none (tables_in most rest.now)) ≤ length bytes.old }
    requires words_room { most_variables (tables_or_none (tables_in most rest.now)) ≤ length words.old }
    requires answers_room { length (tables_or_none (tables_in most rest.now)) ≤ length answers.old }
    ensures value { result ≡ left_after (tables_or_none (tables_in most rest.now)) cap }
    ensures lists_after { lists.new ≡ lists_after (tables_or_none (tables_in most rest.now)) cap lists.old }
    ensures bytes_after { bytes.new ≡ cleared (most_variables (tables_or_none (tables_in most rest.now))) bytes.old }
    ensures words_after { words.new ≡ cleared (most_variables (tables_or_none (tables_in most rest.now))) words.old }
    ensures answers_after { answers.new ≡ answers_of (tables_or_none (tables_in most rest.now)) cap
        ++ drop (length (tables_or_none (tables_in most rest.now))) answers.old }
{
    if rest.is_empty() || most == 0 {
        return cap;
    }
    let Some(table) = first_table(rest) else {
        return cap;
    };
    let (list, other_lists) = lists.split_at_mut(table.step_count());
    let (own, other_answers) = answers.split_at_mut(1);
    let answer = repair_accepted(&table, cap, list, bytes, words);
    own[0] = answer;
    let left = cap - choices_of(answer);
    let behind = &rest[table.bytes.len()..];
    repair_each(
        behind,
        most - 1,
        left,
        other_lists,
        bytes,
        words,
        other_answers,
    )
}
