// The form of a kept list.
ghost use Rattle.std.specs.Prelude.{◌≡◌, ◌≤◌, ◌<◌, ◌↔◌, ℕ, Ok, IfErr, length, get_or};
ghost use Rattle.table.specs.Accept.{list_verdict};

use crate::refusal::Refusal;

/// The test of a kept list, 9: a byte for each of e steps, 1 for a step that is kept and 0 for one that is struck.
pub fn check_list(list: &[u8], e: usize) -> Result<(), Refusal>
    ensures value { result ≡ list_verdict e list.now }
    ensures accepted { (result ≡ Ok tt)
        ↔ ((length list.now ≡ e) × ((j : ℕ) → j < length list.now → get_or list.now j 0 ≤ 1)) }
    ensures refused { IfErr result (λ r. r ≡ Refusal.ListForm) }
{
    if list.len() != e {
        return Err(Refusal::ListForm);
    }
    for byte in list {
        if 1 < *byte {
            return Err(Refusal::ListForm);
        }
    }
    Ok(())
}
