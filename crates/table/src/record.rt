// The records of the three sections, three bytes each. Access is total: past the section's end a record is all zeros.
ghost use Rattle.std.specs.Prelude.{◌≡◌, ◌*◌, drop};
ghost use Rattle.table.specs.Table.{record_width, three, state_of, step_of, node_of};

use crate::part::byte_at;
use crate::width::RECORD_WIDTH;

/// A state: `initial` is 1 for an initial state and 0 for another, and bit p of `label` says whether it has
/// proposition p.
#[derive(Clone, Copy, Debug, PartialEq, Eq)]
pub struct State {
    pub initial: usize,
    pub label: usize,
}

/// A step: the numbers of the states that it leaves and enters, and the price of striking it.
#[derive(Clone, Copy, Debug, PartialEq, Eq)]
pub struct Step {
    pub from: usize,
    pub to: usize,
    pub price: usize,
}

/// A node of the rule: its kind, and the fields a and b, which are children, a proposition or unused by the kind.
#[derive(Clone, Copy, Debug, PartialEq, Eq)]
pub struct Node {
    pub kind: usize,
    pub a: usize,
    pub b: usize,
}

impl From<[u8; 3]> for State {
    ghost from_gives = { λ bytes x. x ≡ state_of bytes };

    fn from(bytes: [u8; 3]) -> State {
        State {
            initial: bytes[0] as usize,
            label: bytes[1] as usize + 256 * bytes[2] as usize,
        }
    }
}

// As for a node below: the fields' names differ, and a generic function cannot name fields.
impl From<[u8; 3]> for Step {
    ghost from_gives = { λ bytes x. x ≡ step_of bytes };

    fn from(bytes: [u8; 3]) -> Step {
        Step {
            from: bytes[0] as usize,
            to: bytes[1] as usize,
            price: bytes[2] as usize,
        }
    }
}

impl From<[u8; 3]> for Node {
    ghost from_gives = { λ bytes x. x ≡ node_of bytes };

    fn from(bytes: [u8; 3]) -> Node {
        Node {
            kind: bytes[0] as usize,
            a: bytes[1] as usize,
            b: bytes[2] as usize,
        }
    }
}

// The bytes of a record that the end of the section cuts, or past it: rare, so they are read one by one.
fn cut_bytes(section: &[u8], i: usize) -> [u8; 3]
    ensures { result ≡ three (drop (record_width * i) section.now) }
{
    if section.len() / RECORD_WIDTH < i {
        return [0; 3];
    }
    let at = RECORD_WIDTH * i;
    [
        byte_at(section, at),
        byte_at(section, at + 1),
        byte_at(section, at + 2),
    ]
}

// The bytes of record i. One that the section has whole is read after one test.
fn bytes_at(section: &[u8], i: usize) -> [u8; 3]
    ensures { result ≡ three (drop (record_width * i) section.now) }
{
    if section.len() / RECORD_WIDTH <= i {
        return cut_bytes(section, i);
    }
    let at = RECORD_WIDTH * i;
    [section[at], section[at + 1], section[at + 2]]
}

/// Record i of a section. Past the section's end it is all zeros.
pub fn record_at<R: From<[u8; 3]>>(section: &[u8], i: usize) -> R
    ensures { R.from_gives (three (drop (record_width * i) section.now)) result }
{
    R::from(bytes_at(section, i))
}
