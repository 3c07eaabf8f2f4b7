// Reading all that a reader has, into a buffer that is lent.
#![tactic(auto)]

ghost use Rattle.std.specs.Prelude.{length, IfOk};
ghost use Rattle.input.specs.Input.{Came, CountFits};

use std::io::{self, Read};

#[cfg(test)]
mod tests;

/// What a reader had.
#[derive(Clone, Copy, Debug, PartialEq, Eq)]
pub enum Input {
    /// All of it stands at the front of the buffer, and this many bytes it is.
    All(usize),
    /// It is more than the buffer has room for.
    More,
}

/// Reads until the reader has no more, or the buffer is full and the reader has one byte more.
///
/// A read may give fewer bytes than there is room for, so only a read that gives none tells that there are no more.
/// The first read that fails ends it, with its error. The buffer behind what was read may have been written to.
pub fn read_input<R: Read>(reader: &mut R, room: &mut [u8]) -> io::Result<Input>
    ensures came { Came (R.remaining reader.old) room.new result }
    // this is known of each reader, the bytes only of those whose type says what they have left
    ensures fits { IfOk result (λ input. CountFits input (length room.old)) }
{
    let mut n = 0;
    while n < room.len() {
        let more = reader.read(&mut room[n..])?;
        if more == 0 {
            return Ok(Input::All(n));
        }
        n += more;
    }
    let mut probe = [0u8; 1];
    if reader.read(&mut probe)? == 0 {
        Ok(Input::All(n))
    } else {
        Ok(Input::More)
    }
}
