// The two tries of a step. The functions call each other, with ever fewer steps unsettled.
ghost use Rattle.std.specs.Prelude.{◌≡◌, false, ◌≤◌, length};
ghost use Rattle.propagate.specs.Memory.{memory};
ghost use Rattle.events.specs.NetTable.{table_in};
ghost use Rattle.walk.specs.KeptWords.{room_total};
ghost use Rattle.walk.specs.Stands.{GoesOn, Resting, Somewhere, GivesFrom, walk_from, try_from};

use crate::assess::{Assessed, choose};
use crate::words::keep;
use events::Net;
use rows::ROW_WORDS;
use search::{Choices, Cut, Passed};
use table::MOST_STEPS;

/// Chooses step j kept and searches on; then, unless that reached the cap, makes the struck try of step j. The struck
/// try goes on from the level words as they are now: the kept one is lent a copy of them behind these. Where there is
/// no room for that, the struck try begins afresh.
#[cycle(tries)]
pub fn kept_try(
    net: &Net<'_>,
    rows: &[u32; ROW_WORDS],
    j: usize,
    choices: Choices,
    best: Option<u32>,
    find: &mut [u8; MOST_STEPS],
    words: &mut [u32],
) -> Result<Passed, Cut>
    requires words_room { room_total (table_in net.now) ≤ length words.old }
    requires made_le_cap { choices.made ≤ choices.cap }
    requires resting { Resting (table_in net.now) (memory rows.now words.old) }
    requires somewhere { Somewhere (GoesOn (table_in net.now) j (memory rows.now words.old) best find.old) }
    ensures { GivesFrom (GoesOn (table_in net.now) j (memory rows.now words.old) best find.old) (table_in net.now)
        choices.cap (λ P m b. walk_from (table_in net.now) choices.cap j P m b choices.made) find.new result }
{
    let Some(more) = choices.step() else {
        return Err(Cut { choices });
    };
    let from = keep(words, net.bases.total, net.room());
    let mut next = *rows;
    let lent = &mut words[from..];
    let kept = match choose(net, &mut next, j, true, best, find, lent, false) {
        Assessed::Ended(best) => Passed {
            best,
            choices: more,
        },
        Assessed::Unsettled(k) => kept_try(net, &next, k, more, best, find, lent)?,
    };
    let fresh = from < net.bases.total;
    if fresh {
        words.fill(0);
    }
    struck_try(net, rows, j, kept.choices, kept.best, find, words, fresh)
}

// Chooses step j struck and searches on. `fresh` says that the words are begun afresh.
#[cycle(tries)]
fn struck_try(
    net: &Net<'_>,
    rows: &[u32; ROW_WORDS],
    j: usize,
    choices: Choices,
    best: Option<u32>,
    find: &mut [u8; MOST_STEPS],
    words: &mut [u32],
    fresh: bool,
) -> Result<Passed, Cut>
    requires words_room { room_total (table_in net.now) ≤ length words.old }
    requires made_le_cap { choices.made ≤ choices.cap }
    requires resting { «fresh» ≡ false → Resting (table_in net.now) (memory rows.now words.old) }
    requires somewhere { Somewhere (GoesOn (table_in net.now) j (memory rows.now words.old) best find.old) }
    ensures { GivesFrom (GoesOn (table_in net.now) j (memory rows.now words.old) best find.old) (table_in net.now)
        choices.cap (λ P m b. try_from (table_in net.now) false choices.cap j P b choices.made) find.new result }
{
    let Some(more) = choices.step() else {
        return Err(Cut { choices });
    };
    let mut next = *rows;
    match choose(net, &mut next, j, false, best, find, words, fresh) {
        Assessed::Ended(best) => Ok(Passed {
            best,
            choices: more,
        }),
        Assessed::Unsettled(k) => kept_try(net, &next, k, more, best, find, words),
    }
}
