// The lent words: those of the levels in front, and behind them those of the states to look at, which stand only
// while a closure is worked out; or room to go on in while the words of the levels stay.
ghost use Rattle.std.specs.Prelude.{◌≤◌, length};
ghost use Rattle.walk.specs.KeptWords.{Keeps};

// No Option: either is the place from which the kept try is lent the words, and one comparison tells which it is.

/// Copies the words of the levels to those behind them where a search has room from there on, and gives back where the
/// copy begins; else 0, where they stand.
pub fn keep(words: &mut [u32], levels: usize, room: usize) -> usize
    requires levels_le_room { levels ≤ room }
    requires words_room { room ≤ length words.old }
    ensures { Keeps levels room words.old words.new result }
{
    if words.len() - levels < room {
        return 0;
    }
    words.copy_within(..levels, levels);
    levels
}
