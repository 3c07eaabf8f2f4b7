// Puts the readers of what has changed into their words.
ghost use Rattle.std.specs.Prelude.{◌≡◌, true, ℕ, suc, ◌≤◌, ◌<◌, length, get_or};
ghost use Rattle.sets.specs.Member.{member};
ghost use Rattle.readers.specs.Readers.{OfNode, words_end, grown};
ghost use Rattle.readers.specs.Marked.{Raised, NodeMarked, KeptMarked, StepsMarked, LevelMarked};

use crate::who_reads::{KEPT_WORD, NODE_READERS, Readers, STEP_READERS};
use rows::{Row, new_of};
use table::MOST_NODES;

/// The states of which a row knows something that the old one does not.
pub fn grown_at(old: Row, new: Row) -> u32
    ensures { result ≡ grown old new }
{
    let more = new_of(new, old);
    more.yes | more.no
}

// The states of a set, and those with a step into it.
fn spread(readers: &Readers, set: u32) -> u32
    ensures own { (t : ℕ) → member set t ≡ true → member result t ≡ true }
    ensures behind { (t s : ℕ) → member set t ≡ true → member (get_or readers.now.of t 0) s ≡ true
        → member result s ≡ true }
{
    let mut all = set;
    for t in sets::members_of(set) {
        all = all | readers.of[t];
    }
    all
}

/// Adds states to a word.
pub fn put(words: &mut [u32], k: usize, set: u32)
    requires { k < length words.old }
    ensures raised { Raised words.old words.new }
    ensures added { (s : ℕ) → member set s ≡ true → member (get_or words.new k 0) s ≡ true }
{
    let word = words[k];
    words[k] = word | set;
}

// Adds states to all words of a node, and more to its first.
fn raise_node(readers: &Readers, looks: &mut [u32], i: usize, set: u32, more: u32)
    requires i_below { i < MOST_NODES }
    requires room { words_end readers.now ≤ length looks.old }
    ensures raised { Raised looks.old looks.new }
    ensures added { (k s : ℕ) → OfNode readers.now i k → member set s ≡ true → member (get_or looks.new k 0) s ≡ true }
    ensures first { (s : ℕ) → OfNode readers.now i (get_or readers.now.first i 0) → member more s ≡ true
        → member (get_or looks.new (get_or readers.now.first i 0) 0) s ≡ true }
{
    let first = readers.first[i];
    let end = readers.first[i + 1];
    for k in first..end {
        put(looks, k, set);
    }
    if first < end {
        put(looks, first, more);
    }
}

// The same for some nodes.
fn raise_nodes(readers: &Readers, looks: &mut [u32], nodes: u32, set: u32, more: u32)
    requires room { words_end readers.now ≤ length looks.old }
    ensures raised { Raised looks.old looks.new }
    ensures added { (i k s : ℕ) → member nodes i ≡ true → OfNode readers.now i k → member set s ≡ true
        → member (get_or looks.new k 0) s ≡ true }
    ensures first { (i s : ℕ) → member nodes i ≡ true → OfNode readers.now i (get_or readers.now.first i 0)
        → member more s ≡ true → member (get_or looks.new (get_or readers.now.first i 0) 0) s ≡ true }
{
    for i in sets::members_of(nodes) {
        raise_node(readers, looks, i, set, more);
    }
}

/// The row of node c has changed at the states of a set: so has its last level.
pub fn mark_node(readers: &Readers, looks: &mut [u32], c: usize, set: u32)
    requires c_below { c < MOST_NODES }
    requires room { words_end readers.now ≤ length looks.old }
    ensures raised { Raised looks.old looks.new }
    ensures node_marked { (t : ℕ) → member set t ≡ true → NodeMarked readers.now looks.new c t }
{
    let nodes = readers.of[NODE_READERS + c];
    let more = spread(readers, set);
    let last = readers.first[c + 1] - 1;
    put(looks, last, set);
    raise_nodes(readers, looks, nodes, set, more);
}

/// The row of K has changed at the states of a set.
pub fn mark_kept(readers: &Readers, looks: &mut [u32], set: u32)
    requires room { words_end readers.now ≤ length looks.old }
    ensures raised { Raised looks.old looks.new }
    ensures kept_marked { (t : ℕ) → member set t ≡ true → KeptMarked readers.now looks.new t }
{
    let more = spread(readers, set);
    put(looks, KEPT_WORD, more);
}

/// The steps out of the states of a set have changed.
pub fn mark_steps(readers: &Readers, looks: &mut [u32], set: u32)
    requires room { words_end readers.now ≤ length looks.old }
    ensures raised { Raised looks.old looks.new }
    ensures steps_marked { (s : ℕ) → member set s ≡ true → StepsMarked readers.now looks.new s }
{
    let nodes = readers.of[STEP_READERS];
    put(looks, KEPT_WORD, set);
    raise_nodes(readers, looks, nodes, set, set);
}

/// The row of a stored level has changed at the states of a set: it is looked at by its word, and the level over it
/// by the next.
pub fn mark_level(readers: &Readers, looks: &mut [u32], k: usize, set: u32)
    requires { suc k < length looks.old }
    ensures raised { Raised looks.old looks.new }
    ensures level_marked { (t : ℕ) → member set t ≡ true → LevelMarked readers.now looks.new k t }
{
    let more = spread(readers, set);
    put(looks, k, set);
    put(looks, k + 1, more);
}
