// What propagation is told of a table, worked out once before a search.
ghost use Rattle.std.specs.Prelude.{◌≡◌, ◌+◌};
ghost use Rattle.table.specs.Table.{table_of};
ghost use Rattle.closure.specs.Knowledge.{level_total};
ghost use Rattle.readers.specs.Readers.{word_total};
ghost use Rattle.events.specs.Setting.{Setting};

use closure::{Bases, level_bases};
use propagate::Graph;
use readers::readers_of;
use table::{Accepted, MOST_NODES, initial_states, target_sets};

/// The table, its states and steps and who reads what, its initial states, and where the rows of the levels lie.
#[derive(Clone, Copy)]
pub struct Net<'a> {
    pub table: Accepted<'a>,
    pub graph: Graph,
    pub initial: u32,
    pub bases: Bases,
    pub ghost setting: { Setting table.bytes.now graph initial bases.at bases.total },
}

impl<'a> Net<'a> {
    /// Works all of it out; the table is read once for each part.
    pub fn new(table: Accepted<'a>) -> Net<'a>
        ensures { result.table.bytes.now ≡ table.entry.bytes.now }
    {
        let states = table.state_count();
        let targets = target_sets(&table);
        let initial = initial_states(table.states, states);
        let readers = readers_of(&table, &targets);
        let bases = level_bases(&table);
        let graph = Graph {
            targets,
            states,
            readers,
        };
        Net {
            table,
            graph,
            initial,
            bases,
        }
    }

    /// How many words there are of the states to look at.
    pub fn word_count(&self) -> usize
        ensures { result ≡ word_total (table_of self.now.table.bytes.now) }
    {
        self.graph.readers.first[MOST_NODES]
    }

    /// How many words a closure needs, for the levels and for the states to look at.
    pub fn room(&self) -> usize
        ensures { result ≡ level_total (table_of self.now.table.bytes.now) + word_total
            (table_of self.now.table.bytes.now) }
    {
        self.bases.total + self.word_count()
    }
}
