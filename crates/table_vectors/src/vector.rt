// Reading a line of the input and running it.
use crate::count::Tally;
use crate::text::{bytes_of, number_of};
use circuit::variable_count;
use table::{Accepted, Refusal, verdict_number};

// What the bytes of a line are.
#[derive(Clone, Copy)]
enum Kind {
    Table,
    List,
}

// The first byte of its name tells the kind.
fn kind_of(name: &[u8]) -> Option<Kind> {
    match name.first()? {
        b't' => Some(Kind::Table),
        b'l' => Some(Kind::List),
        _ => None,
    }
}

// The kind, the expected number, and the count where there is one.
#[derive(Clone, Copy)]
struct Expected {
    kind: Kind,
    number: usize,
    count: Option<usize>,
}

// The check, and of an accepted table its variables. Where the line has no count of them, they do not agree.
fn run_table(t: &mut Tally, e: Expected, table: &[u8]) -> Option<()> {
    let verdict = Accepted::try_from(table);
    t.add_vector(e.number, verdict_number(verdict) as usize == e.number)?;
    if e.number == 0 {
        t.add_variables(match verdict {
            Ok(accepted) => Some(variable_count(&accepted)) == e.count,
            Err(_) => false,
        });
    }
    Some(())
}

// No list is of the form where there is no count of steps.
fn run_list(t: &mut Tally, e: Expected, list: &[u8]) -> Option<()> {
    let verdict = match e.count {
        Some(steps) => table::check_list(list, steps),
        None => Err(Refusal::ListForm),
    };
    let number = verdict_number(verdict);
    t.add_vector(e.number, number as usize == e.number)
}

// The bytes are `-` where there are none.
fn run_bytes(t: &mut Tally, e: Expected, text: &[u8]) -> Option<()> {
    let mut space = [0u8; 4096];
    let n = bytes_of(text, &mut space);
    if text.len() != 2 * n && text.len() != 1 {
        return None;
    }
    match e.kind {
        Kind::Table => run_table(t, e, &space[..n]),
        Kind::List => run_list(t, e, &space[..n]),
    }
}

// None where the line is out of form.
fn run_line(t: &mut Tally, line: &[u8]) -> Option<()> {
    let mut fields = line.splitn(4, |byte| *byte == b'\t');
    let e = Expected {
        kind: kind_of(fields.next()?)?,
        number: number_of(fields.next()?)?,
        count: number_of(fields.next()?),
    };
    run_bytes(t, e, fields.next()?)
}

// Every line behind the line of names, up to one that is out of form.
pub fn tally_text(text: &[u8]) -> Tally {
    let mut tally = Tally::default();
    for line in text.split(|byte| *byte == b'\n').skip(1) {
        if !line.is_empty() && run_line(&mut tally, line).is_none() {
            tally.broken = true;
            break;
        }
    }
    tally
}
