// The room of a lent buffer.
ghost use Rattle.std.specs.Prelude.{◌≡◌};
ghost use Rattle.table.specs.Table.{table_of};
ghost use Rattle.label.specs.Analysis.{room_fits};

use table::Accepted;

/// What a lent buffer must have an entry for, and how many it has: each node, each state, or nothing.
// A closure that counts the entries would say no more, and its clauses would stand in the contract of the analysis. A
// test by each caller would put the order of the list's form, the room and whether the list is total in three places.
#[derive(Clone, Copy, Debug, PartialEq, Eq)]
pub enum Room {
    Any,
    Nodes(usize),
    States(usize),
}

pub fn room_fits(room: Room, table: &Accepted<'_>) -> bool
    ensures { result ≡ room_fits room (table_of table.now.bytes.now) }
{
    match room {
        Room::Any => true,
        Room::Nodes(k) => table.node_count() <= k,
        Room::States(k) => table.state_count() <= k,
    }
}
