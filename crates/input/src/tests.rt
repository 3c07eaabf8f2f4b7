// What no clause says: that reading succeeds, and that an error is handed on.
ghost use Rattle.std.specs.Prelude.{Some};

use crate::{Input, read_input};
use std::io::{self, Read};

// A reader of reads of at most `step` bytes, that fails once `before` reads are done.
#[derive(Drop)]
struct Short<'a> {
    text: &'a [u8],
    step: usize,
    before: Option<usize>,
}

impl Read for Short<'_> {
    ghost remaining = { λ r. Some r.text.now };

    fn read(&mut self, buf: &mut [u8]) -> io::Result<usize> {
        if self.before == Some(0) {
            self.before = None;
            return Err(io::ErrorKind::Other.into());
        }
        self.before = self.before.map(|n| n.saturating_sub(1));
        let n = self.step.max(1).min(buf.len()).min(self.text.len());
        buf[..n].copy_from_slice(&self.text[..n]);
        self.text = &self.text[n..];
        Ok(n)
    }
}

#[test]
fn reads_in_short_reads(rt: HostRuntime) {
    for (room, want) in [
        (9, Input::All(7)),
        (7, Input::All(7)),
        (6, Input::More),
        (0, Input::More),
    ] {
        let mut reader = Short {
            text: b"abcdefg",
            step: 3,
            before: None,
        };
        let mut buffer = [0u8; 9];
        let input = read_input(&mut reader, &mut buffer[..room]);
        assert_eq!(rt; input.ok(), Some(want), "with room for {room}");
        let front = room.min(7);
        assert_eq!(rt;
            buffer[..front],
            b"abcdefg"[..front],
            "with room for {room}"
        );
    }
}

#[test]
fn a_reader_with_none_fits_no_room(rt: HostRuntime) {
    let mut reader = Short {
        text: b"",
        step: 3,
        before: None,
    };
    assert_eq!(rt; read_input(&mut reader, &mut []).ok(), Some(Input::All(0)));
}

// In the first read, in the second, in the one that tells that there are no more, and in that behind a full buffer.
#[test]
fn a_failed_read_is_no_end(rt: HostRuntime) {
    for (before, room) in [(0, 9), (1, 9), (3, 9), (2, 6)] {
        let mut reader = Short {
            text: b"abcdefg",
            step: 3,
            before: Some(before),
        };
        let mut buffer = [0u8; 9];
        let input = read_input(&mut reader, &mut buffer[..room]);
        assert!(rt; input.is_err(), "failing after {before} reads");
    }
}
