// A section's records, written as the lines of a block, one behind the other.
ghost use Rattle.std.specs.Prelude.{◌≡◌, ◌++◌, List, ℕ};
ghost use Rattle.table.specs.Table.{record_width, records, three, state_of, step_of, node_of};
ghost use Rattle.sheet.specs.Form.{concat_map, state_line, step_line, node_line};
ghost use Rattle.render.specs.Stored.{HasRoom, Stored};

use crate::emit::put_bytes;
use crate::write_line::write_values;
use table::{Node, State, Step, record_at};

// A record that is read from the bytes of a section, and written as a line of a sheet.
pub trait RenderedLine: From<[u8; 3]> {
    ghost record_of: { List ℕ → Self };

    ghost line: { Self → List ℕ };

    fn write(self, text: &mut [u8], at: usize) -> usize
        requires { HasRoom text.old at (line self) }
        ensures { Stored text.old at (line self) text.new result };

    ghost from_bytes: { (bytes : List ℕ) (x : Self) → Self.from_gives (three bytes) x → x ≡ record_of bytes };
}

impl RenderedLine for State {
    ghost record_of = { state_of };

    ghost line = { state_line };

    fn write(self, text: &mut [u8], at: usize) -> usize {
        write_values(text, at, &[self.initial, self.label])
    }

    ghost from_bytes = { λ bytes x e. e };
}

impl RenderedLine for Step {
    ghost record_of = { step_of };

    ghost line = { step_line };

    fn write(self, text: &mut [u8], at: usize) -> usize {
        write_values(text, at, &[self.from, self.to, self.price])
    }

    ghost from_bytes = { λ bytes x e. e };
}

impl RenderedLine for Node {
    ghost record_of = { node_of };

    ghost line = { node_line };

    fn write(self, text: &mut [u8], at: usize) -> usize {
        write_values(text, at, &[self.kind, self.a, self.b])
    }

    ghost from_bytes = { λ bytes x e. e };
}

// As many records as the count says, as the definitions read them (`records`).
fn write_records<R: RenderedLine>(section: &[u8], count: usize, text: &mut [u8], at: usize) -> usize
    requires { HasRoom text.old at (concat_map R.line (records R.record_of record_width count section.now)) }
    ensures { Stored text.old at (concat_map R.line (records R.record_of record_width count section.now))
        text.new result }
{
    let mut place = at;
    for i in 0..count {
        let record: R = record_at(section, i);
        place = record.write(text, place);
    }
    place
}

// The line of names, then the lines of the records.
pub fn write_block<R: RenderedLine>(
    names: &[u8],
    section: &[u8],
    count: usize,
    text: &mut [u8],
    at: usize,
) -> usize
    requires { HasRoom text.old at
        (names.now ++ concat_map R.line (records R.record_of record_width count section.now)) }
    ensures { Stored text.old at
        (names.now ++ concat_map R.line (records R.record_of record_width count section.now)) text.new result }
{
    let place = put_bytes(text, at, names);
    write_records::<R>(section, count, text, place)
}
