// The tests of the state records. Here and in the tests of the steps and nodes as many records are read as the count
// says, whatever the section's length: so the definitions read them (`records`).
ghost use Rattle.std.specs.Prelude.{◌≡◌, ◌≤◌};
ghost use Rattle.table.specs.Table.{records, state_of, state_width};
ghost use Rattle.table.specs.Accept.{state_fits, states_verdict};

use crate::record::{State, record_at};
use crate::refusal::Refusal;

// Initial is 0 or 1, and the label has no bit at p or above.
fn state_fits(p: usize, s: State) -> bool
    requires { p ≤ 16 }
    ensures { result ≡ state_fits p s }
{
    s.initial <= 1 && s.label >> p == 0
}

// One pass: the first record out of form is refused at once, and an initial state is looked for on the way.
pub fn check_states(section: &[u8], n: usize, p: usize) -> Result<(), Refusal>
    requires { p ≤ 16 }
    ensures { result ≡ states_verdict p (records state_of state_width n section.now) }
{
    let mut found = false;
    for i in 0..n {
        let s: State = record_at(section, i);
        if !state_fits(p, s) {
            return Err(Refusal::StateRecord);
        }
        found = found || s.initial == 1;
    }
    if found {
        Ok(())
    } else {
        Err(Refusal::NoInitial)
    }
}
