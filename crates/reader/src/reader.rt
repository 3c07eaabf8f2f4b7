// Read: a sheet into a packed table.
ghost use Rattle.std.specs.Prelude.{◌≡◌, ◌↔◌, length, replicate, IsOk, OnErr, IfErr, IfOk};
ghost use Rattle.table.specs.Facts.{IsTable};
ghost use Rattle.reader.specs.Read.{read_answer, read_buffer, PackedText, ReadInto};
ghost use Rattle.reader.specs.Exact.{SheetOf, Readable, ReadIsExact, TextRefused, ReadRefused};

use crate::pack::pack_sheet;
use sheet::check_form;
use table::{Accepted, Refusal, packed_length};

/// How many bytes the longest table has: 32 states, 128 steps and 32 nodes.
pub const LONGEST: usize = 580;

// Test 1 first, over the whole text. A table longer than the longest has a count out of its range, 3. Else the values
// are packed, and it answers how many bytes they fill.
fn pack_text(text: &[u8], packed: &mut [u8; LONGEST]) -> Result<usize, Refusal>
    requires { packed.old ≡ replicate LONGEST 0 }
    ensures { PackedText text.now packed.new result }
{
    let Some(form) = check_form(text) else {
        return Err(Refusal::SheetForm);
    };
    let length = packed_length(form.counts);
    if LONGEST < length {
        return Err(Refusal::Counts);
    }
    pack_sheet(&form, packed);
    Ok(length)
}

/// Reads a sheet into zero bytes that the caller lends, and tests the table there. The answer borrows these bytes.
// 2 to 8 are tested on the table, which is cut into its sections once.
pub fn read_into<'a>(text: &[u8], packed: &'a mut [u8; LONGEST]) -> Result<Accepted<'a>, Refusal>
    requires { packed.old ≡ replicate LONGEST 0 }
    ensures value { ReadInto text.now result }
    ensures refused { IfErr result (TextRefused text.now) }
    ensures packed { IfOk result (λ table. SheetOf text.now table.bytes.now × IsTable table.bytes.now) }
{
    let length = pack_text(text, packed)?;
    let table: &'a [u8] = &packed[..length];
    Accepted::try_from(table)
}

/// Reads a sheet into a packed table at the front of the lent buffer, and answers how many bytes it has: at most 580.
// The reader packs into zero bytes of its own, as many as the longest table, before it writes: 10 is tested last, and
// only then the lent buffer is written. It copies from its own bytes, of which the compiler knows that they lie apart
// from the lent ones; of what `read_into` hands back it does not, and the archive for C would need `memmove`.
pub fn read(text: &[u8], out: &mut [u8]) -> Result<usize, Refusal>
    ensures value { result ≡ read_answer text.now out.old }
    ensures out_after { out.new ≡ read_buffer text.now out.old }
    ensures accepted { IsOk result ↔ Readable text.now (length out.old) }
    ensures refused { IfErr result (ReadRefused text.now (length out.old)) }
    ensures packed { IfOk result (λ k. ReadIsExact text.now k out.old out.new) }
    ensures untouched { OnErr result (out.new ≡ out.old) }
{
    let mut packed = [0u8; LONGEST];
    let length = pack_text(text, &mut packed)?;
    let table = &packed[..length];
    Accepted::try_from(table)?;
    if out.len() < table.len() {
        return Err(Refusal::ShortBuffer);
    }
    out[..table.len()].copy_from_slice(table);
    Ok(table.len())
}
