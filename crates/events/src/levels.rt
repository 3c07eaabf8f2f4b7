// All levels of a fixed-point node, upward or downward. Levels soon become alike, so a level with the rows of one
// that had nothing to add is passed over.
ghost use Rattle.std.specs.Prelude.{◌≡◌, ◌+◌, ◌≤◌, ◌<◌, length};
ghost use Rattle.readers.specs.Readers.{word_total};
ghost use Rattle.propagate.specs.Memory.{memory};
ghost use Rattle.closure.specs.Knowledge.{Sized, knowledge};
ghost use Rattle.events.specs.NetTable.{table_in};
ghost use Rattle.events.specs.Levels.{IsFixpoint, SeenRest, alike};
ghost use Rattle.events.specs.Looked.{Looked, CellsOf, Always};

use crate::net::Net;
use crate::order::in_order;
use propagate::{Fixpoint, level_row, level_step};
use rows::{ROW_WORDS, Report, Row, both, is_quiet};

/// A level that had nothing to add at the states of a set: its row, and that of the level below it.
#[derive(Clone, Copy)]
pub struct Seen {
    pub look: u32,
    pub level: Row,
    pub below: Row,
}

/// What looking at a level did, and the level that was seen last.
#[derive(Clone, Copy)]
pub struct LevelVisit {
    pub report: Report,
    pub seen: Option<Seen>,
}

// Whether the level seen last had these rows, and was looked at at all states of a set.
fn is_alike(seen: Option<Seen>, look: u32, level: Row, below: Row) -> bool
    ensures { result ≡ alike seen look level below }
{
    let Some(r) = seen else {
        return false;
    };
    r.level == level && r.below == below && look & r.look == look
}

// Level m + 1 over level m, at the states of its word.
fn level_visit(
    net: &Net<'_>,
    rows: &mut [u32; ROW_WORDS],
    words: &mut [u32],
    looks: &mut [u32],
    x: Fixpoint,
    m: usize,
    seen: Option<Seen>,
) -> LevelVisit
    requires sized { Sized (table_in net.now) (memory rows.old words.old) }
    requires fixpoint { IsFixpoint (table_in net.now) x }
    requires m_below { m < length (table_in net.now).states }
    requires seen_rests { SeenRest (table_in net.now) x seen
        (knowledge (table_in net.now) (memory rows.old words.old)) }
    requires room { word_total (table_in net.now) ≤ length looks.old }
    ensures looked { Looked (table_in net.now) (λ k. k ≡ x.word + m) Always looks.old looks.new
        (memory rows.old words.old) (memory rows.new words.new) result.report }
    ensures seen_rests { SeenRest (table_in net.now) x result.seen
        (knowledge (table_in net.now) (memory rows.new words.new)) }
{
    let place = x.word + m;
    let word = looks[place];
    if word == 0 {
        return LevelVisit {
            report: Report::default(),
            seen,
        };
    }
    let n = net.graph.states;
    let look = word & sets::below(n);
    let level = level_row(rows, words, n, x, m + 1);
    let below = level_row(rows, words, n, x, m);
    if is_alike(seen, look, level, below) {
        looks[place] = 0;
        return LevelVisit {
            report: Report::default(),
            seen,
        };
    }
    let report = level_step(&net.graph, rows, words, looks, x, m, look);
    if !is_quiet(report) {
        return LevelVisit { report, seen: None };
    }
    looks[place] = 0;
    LevelVisit {
        report,
        seen: Some(Seen { look, level, below }),
    }
}

/// Until something is known both ways.
pub fn levels_visit(
    net: &Net<'_>,
    rows: &mut [u32; ROW_WORDS],
    words: &mut [u32],
    looks: &mut [u32],
    x: Fixpoint,
    down: bool,
) -> Report
    requires sized { Sized (table_in net.now) (memory rows.old words.old) }
    requires fixpoint { IsFixpoint (table_in net.now) x }
    requires room { word_total (table_in net.now) ≤ length looks.old }
    ensures { Looked (table_in net.now) (CellsOf (table_in net.now) x.node) Always looks.old looks.new
        (memory rows.old words.old) (memory rows.new words.new) result }
{
    let mut report = Report::default();
    let mut seen = None;
    for k in 0..net.graph.states {
        let m = in_order(down, net.graph.states, k);
        let v = level_visit(net, rows, words, looks, x, m, seen);
        report = both(report, v.report);
        if report.fails {
            return report;
        }
        seen = v.seen;
    }
    report
}
