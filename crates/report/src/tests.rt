// What no clause says: that reading and writing succeed, and that an error of the reader leaves the writer as it was.
ghost use Rattle.std.specs.Prelude.{Some};

use crate::fit_input;
use std::io::{self, Read};
use std::test::Fail;

// A reader of a byte at a time, that fails at its end or ends there.
#[derive(Drop)]
struct Trickle<'a> {
    text: &'a [u8],
    fails: bool,
}

impl Read for Trickle<'_> {
    ghost remaining = { λ r. Some r.text.now };

    fn read(&mut self, buf: &mut [u8]) -> io::Result<usize> {
        if self.text.is_empty() && self.fails {
            return Err(io::ErrorKind::Other.into());
        }
        let n = buf.len().min(1).min(self.text.len());
        buf[..n].copy_from_slice(&self.text[..n]);
        self.text = &self.text[n..];
        Ok(n)
    }
}

const SHEET: &[u8] =
    b"states edges nodes props\n1 1 3 2\ninitial label\n1 2\nfrom to price\n0 0 5\nkind a b\n2 0 0\n2 1 0\n8 0 1\n";

#[test]
fn prints_what_a_trickle_brings(rt: HostRuntime) -> Result<(), Fail> {
    let mut reader = Trickle {
        text: SHEET,
        fails: false,
    };
    let mut printed = Vec::new(rt.alloc());
    fit_input(&mut reader, &mut printed)?;
    assert_eq!(rt;
        &printed[..],
        b"answer choices price\nfound 0 0\nfrom to kept\n0 0 1\n".as_slice()
    );
    Ok(())
}

// 4,097 bytes are more than a sheet may have, 4,096 are no sheet.
#[test]
fn refuses_what_is_no_sheet(rt: HostRuntime) -> Result<(), Fail> {
    let text = [b'0'; 4097];
    for length in [0, 4096, 4097] {
        let mut reader = Trickle {
            text: &text[..length],
            fails: false,
        };
        let mut printed = Vec::new(rt.alloc());
        fit_input(&mut reader, &mut printed)?;
        assert_eq!(rt;
            &printed[..],
            b"answer number\nrefused 1\n".as_slice(),
            "of {length} bytes"
        );
    }
    Ok(())
}

#[test]
fn prints_nothing_where_reading_fails(rt: HostRuntime) {
    let mut reader = Trickle {
        text: SHEET,
        fails: true,
    };
    let mut printed = Vec::new(rt.alloc());
    assert!(rt; fit_input(&mut reader, &mut printed).is_err());
    assert!(rt; printed.is_empty());
}
