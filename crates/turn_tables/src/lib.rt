// The tables of a call, in the words from 64 on: what the turn looks up of every node. Two passes make them: one from the last node down, so that a
// node finds its children's sets entered; and one from the root on, so that a node finds its own way up entered before its sides'.
#![tactic(auto)]

ghost use Rattle.std.specs.Prelude.{◌≡◌, ℕ, ◌+◌, ◌≤◌, ◌<◌, length};
ghost use Rattle.spec_policy.specs.Records.{node_size, node_count, step_count, node_at, most_nodes, node_place};
ghost use Rattle.spec_policy.specs.Tree.{steps_owned, regulated, tree_at};
ghost use Rattle.spec_check.specs.Passed.{Passed};
ghost use Rattle.file_records.specs.Kinds.{way_of};
ghost use Rattle.turn_sides.specs.Sides.{kind_at};
ghost use Rattle.turn_memory.specs.Words.{word_count};
ghost use Rattle.turn_tables.specs.Tables.{set_at, above_at, feeder_at, first_at, Tabled, Kept};
ghost use Rattle.turn_tables.specs.Entries.{way_up, sides_up, entered, Begun};

use actions::ActionSet;
use file_records::{Kind, MOST_NODES, Way};
use file_view::{view_count, view_kind, view_left, view_right, view_set};
use turn_memory::{ABOVE, LINKS, SETS, WORDS};
use turn_sides::{left_of, right_of};

// No node: there are 31 at most, numbered from 0.
pub const NONE: usize = MOST_NODES;

// A link's word: the feeding node lowest, then the number of the first step.
const FEEDERS: u64 = 256;

const FIRSTS: u64 = 65536;

// ---- what the turn looks up

// The actions that the node regulates.
pub fn set_of(mem: &[u64; WORDS], node: usize) -> ActionSet
    requires { node < most_nodes }
    ensures { result.bits ≡ set_at mem.now node }
{
    ActionSet {
        bits: mem[SETS + node],
    }
}

// The actions that a right side may be asked about on the way up of the node's inserts.
pub fn above_of(mem: &[u64; WORDS], node: usize) -> ActionSet
    requires { node < most_nodes }
    ensures { result.bits ≡ above_at mem.now node }
{
    ActionSet {
        bits: mem[ABOVE + node],
    }
}

// The nearest sequential node above on whose left side the node lies, or NONE.
pub fn feeder_of(mem: &[u64; WORDS], node: usize) -> usize
    requires { node < most_nodes }
    ensures { result ≡ feeder_at mem.now node }
{
    (mem[LINKS + node] % FEEDERS) as usize
}

// The number of the node's first step, where it is a leaf.
pub fn first_of(mem: &[u64; WORDS], node: usize) -> usize
    requires { node < most_nodes }
    ensures { result ≡ first_at mem.now node }
{
    (mem[LINKS + node] / FEEDERS % FIRSTS) as usize
}

// ---- entries

// Enters a node's way up, and beside it the number of its first step, which is in the same word.
#[tactic(auto, unfolding(crate::specs::Entries::way_up))]
fn link(mem: &mut [u64; WORDS], node: usize, first: usize, above: ActionSet, feeder: usize)
    requires { (node < most_nodes) × ((first < 65536) × (feeder < 256)) }
    ensures { mem.new ≡ way_up mem.old node first above.bits feeder }
{
    mem[ABOVE + node] = above.bits;
    mem[LINKS + node] = first as u64 * FEEDERS + feeder as u64;
}

// ---- the first pass: regulated sets and first steps

// How many steps the node has.
#[tactic(auto, unfolding(spec_policy::specs::Tree::steps_owned, file_records::specs::Kinds::kind_of))]
fn steps_owned(policy: &[u8], node: usize) -> u8
    requires { (node ≤ 255) × (node_place node + node_size ≤ length policy.now) }
    ensures { result ≡ steps_owned (node_at policy.now (node_place node)) }
{
    match view_kind(policy, node) {
        Kind::Leaf => view_count(policy, node),
        _ => 0,
    }
}

// The regulated set of a node whose children's sets are entered.
fn regulated(policy: &[u8], node: usize, mem: &[u64; WORDS]) -> ActionSet
    requires passed { Passed policy.now × (node < node_count policy.now) }
    requires by_index { (k : ℕ) → node < k → k < node_count policy.now → set_at mem.now k ≡ regulated (tree_at policy.now k) }
    ensures { result.bits ≡ regulated (tree_at policy.now node) }
{
    match view_kind(policy, node) {
        Kind::Leaf => view_set(policy, node),
        Kind::Pair(_, _) => {
            let left = set_of(mem, usize::from(view_left(policy, node)));
            let right = set_of(mem, usize::from(view_right(policy, node)));
            left.union(right)
        }
        _ => ActionSet::EMPTY,
    }
}

// Enters every node's regulated set and the number of its first step, as if no node gave inserts on.
fn enter_sets(policy: &[u8], n: usize, m: usize, mem: &mut [u64; WORDS])
    requires passed { Passed policy.now × ((n ≡ node_count policy.now) × (m ≡ step_count policy.now)) }
    requires mem_len { length mem.old ≡ word_count }
    ensures { Begun policy.now mem.old mem.new }
{
    let mut first = m;
    for i in (0..n).rev() {
        let set = regulated(policy, i, mem);
        first -= usize::from(steps_owned(policy, i));
        mem[SETS + i] = set.bits;
        link(mem, i, first, ActionSet::EMPTY, NONE);
    }
}

// ---- the second pass: the way up

// Enters the way up of a node's sides: the node's own, but that a sequential node takes its left side's inserts itself.
#[tactic(auto, unfolding(crate::specs::Entries::sides_up, crate::specs::Entries::way_up, crate::specs::Entries::left_feeder, crate::specs::Entries::left_above, file_records::specs::Kinds::way_of))]
fn link_sides(mem: &mut [u64; WORDS], node: usize, way: Way, left: usize, right: usize)
    requires { (node < most_nodes) × ((left < most_nodes) × (right < most_nodes)) }
    ensures { mem.new ≡ sides_up (way_of way) mem.old node left right }
{
    let above = above_of(mem, node);
    let feeder = feeder_of(mem, node);
    let set = set_of(mem, right);
    let first = first_of(mem, left);
    link(mem, right, first_of(mem, right), above, feeder);
    match way {
        Way::Parallel => link(mem, left, first, above, feeder),
        Way::Sequential => link(mem, left, first, set.union(above), node),
    }
}

fn link_node(policy: &[u8], node: usize, mem: &mut [u64; WORDS])
    requires { Passed policy.now × (node < node_count policy.now) }
    ensures { mem.new ≡ entered (kind_at policy.now node) policy.now node mem.old }
{
    if let Kind::Pair(way, _) = view_kind(policy, node) {
        link_sides(
            mem,
            node,
            way,
            left_of(policy, node),
            right_of(policy, node),
        );
    }
}

// Enters the tables.
pub fn prepare(policy: &[u8], n: usize, m: usize, mem: &mut [u64; WORDS])
    requires passed { Passed policy.now × ((n ≡ node_count policy.now) × (m ≡ step_count policy.now)) }
    requires mem_len { length mem.old ≡ word_count }
    ensures { Tabled policy.now mem.new × Kept mem.old mem.new }
{
    enter_sets(policy, n, m, mem);
    for i in 0..n {
        link_node(policy, i, mem);
    }
}
