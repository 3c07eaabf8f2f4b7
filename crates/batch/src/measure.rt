// The tests of a batch, and what its tables need.
ghost use Rattle.std.specs.Prelude.{◌≡◌, ◌≤◌};
ghost use Rattle.batch.specs.Effect.{tables_in};
ghost use Rattle.batch.specs.Needs.{needs_of};

use table::first_table;

/// How many tables there are, how many steps they have in all, and the largest number of variables of any.
#[derive(Clone, Copy)]
pub struct Needs {
    pub tables: usize,
    pub steps: usize,
    pub variables: usize,
}

/// Of the bytes as tables end to end, at most so many; none where they are not that.
pub fn measure(rest: &[u8], most: usize) -> Option<Needs>
    requires { most ≤ 8 }
    ensures { result ≡ needs_of (tables_in most rest.now) }
{
    if rest.is_empty() {
        return Some(Needs {
            tables: 0,
            steps: 0,
            variables: 0,
        });
    }
    if most == 0 {
        return None;
    }
    let table = first_table(rest)?;
    let behind = measure(&rest[table.bytes.len()..], most - 1)?;
    Some(Needs {
        tables: 1 + behind.tables,
        steps: table.step_count() + behind.steps,
        variables: circuit::variable_count(&table).max(behind.variables),
    })
}
