// The values of a text of sheet form, packed: the counts, then each block's lines, read a second time.
ghost use Rattle.std.specs.Prelude.{◌≡◌, ◌+◌, ◌*◌, ◌≤◌, length};
ghost use Rattle.std.proofs.lemmas.List.Edits.{sets};
ghost use Rattle.table.specs.Table.{packed_length, record_width};
ghost use Rattle.sheet.specs.Form.{concat_map, InRange};
ghost use Rattle.sheet.specs.Reading.{values, sheet_of_lines};
ghost use Rattle.reader.specs.Read.{pack};

use crate::record::{PackedRecord, counts_bytes};
use sheet::Form;
use table::{HEADER_WIDTH, Node, RECORD_WIDTH, State, Step};

// The records of so many lines, as far as they are of the form, stored from the front on.
fn pack_lines<R: PackedRecord>(text: &[u8], count: usize, packed: &mut [u8])
    requires { record_width * count ≤ length packed.old }
    ensures { packed.new ≡ sets packed.old 0 (concat_map R.packed (values count R.parser text.now)) }
{
    let mut rest = text;
    for j in 0..count {
        let Some(line) = R::read(rest) else {
            return;
        };
        let (record, behind) = line;
        // by place: of what `chunks_exact_mut` lends, the length alone is known afterwards
        let at = RECORD_WIDTH * j;
        packed[at..at + RECORD_WIDTH].copy_from_slice(&record.bytes());
        rest = behind;
    }
}

// All four blocks.
pub fn pack_sheet(form: &Form<'_>, packed: &mut [u8])
    requires in_range { InRange (sheet_of_lines form.now) }
    requires counts_in_bounds { packed_length form.now.counts ≤ length packed.old }
    ensures { packed.new ≡ sets packed.old 0 (pack (sheet_of_lines form.now)) }
{
    let counts = form.counts;
    let second = HEADER_WIDTH + RECORD_WIDTH * counts.states;
    let third = second + RECORD_WIDTH * counts.steps;
    packed[..HEADER_WIDTH].copy_from_slice(&counts_bytes(counts));
    pack_lines::<State>(
        form.states,
        counts.states,
        &mut packed[HEADER_WIDTH..second],
    );
    pack_lines::<Step>(form.steps, counts.steps, &mut packed[second..third]);
    pack_lines::<Node>(form.nodes, counts.nodes, &mut packed[third..]);
}
