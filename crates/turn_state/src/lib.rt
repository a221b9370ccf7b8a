// The saved state's bytes: the count in front, where the record of a node stands, what its bytes say, and the numbers of the statuses. No
// other crate of code knows any of them.
#![tactic(auto)]

ghost use Rattle.std.specs.Prelude.{◌≡◌, ◌&&◌, ◌++◌, ◌+◌, ◌*◌, ◌-◌, ◌≤◌, ◌<◌, eqb, length, drop, replicate};
ghost use Rattle.spec_policy.specs.Bytes.{number, spell, put};
ghost use Rattle.spec_policy.specs.Lists.{one, every};
ghost use Rattle.spec_policy.specs.Records.{most_nodes, node_size, node_at, node_place};
ghost use Rattle.spec_policy.specs.Tree.{node_kind};
ghost use Rattle.spec_turns.specs.Status.{status_of, is_running, has_ended, is_halted};
ghost use Rattle.spec_turns.specs.Saved.{ahead_size, count_place, cell_size, state_size, ahead, count_at};
ghost use Rattle.spec_turns.specs.Saved.{cells, cell_place, status_at, offset_at, zeros_at, counter_at};
ghost use Rattle.laws_turns.specs.Leaves.{is_leaf};

use file_records::{Kind, MOST_NODES, byte, word16, word32, word64};
use file_view::view_kind;

// ---- statuses

pub const RUNNING: u8 = 1;

pub const ENDED: u8 = 2;

pub const ENDED_LEFT: u8 = 3;

pub const ENDED_RIGHT: u8 = 4;

pub const HALTED: u8 = 5;

pub const DROPPED: u8 = 6;

pub fn is_running(s: u8) -> bool
    ensures { result ≡ is_running (status_of s) }
{
    s == RUNNING
}

pub fn has_ended(s: u8) -> bool
    ensures { result ≡ has_ended (status_of s) }
{
    (ENDED <= s) & (s <= ENDED_RIGHT)
}

pub fn is_halted(s: u8) -> bool
    ensures { result ≡ is_halted (status_of s) }
{
    s == HALTED
}

// ---- sizes

// "8 new bytes in front, the last one the count, the others zero"
pub const AHEAD_SIZE: usize = 8;

const COUNT_PLACE: usize = 7;

// "8 per node number: status, offset, two zeros, counter (4)."
pub const CELL_SIZE: usize = 8;

pub const STATE_SIZE: usize = AHEAD_SIZE + CELL_SIZE * MOST_NODES;

// Where a node's record begins.
fn cell_place(node: usize) -> usize
    requires { node ≤ most_nodes }
    ensures { result ≡ ahead_size + cell_size * node }
{
    AHEAD_SIZE + CELL_SIZE * node
}

// ---- the count of running leaves

// The count that a state says it has.
pub fn saved_count(state: &[u8]) -> u8
    requires { length state.now ≡ state_size }
    ensures { result ≡ count_at state.now }
{
    byte(state, COUNT_PLACE)
}

// Whether the bytes in front are zeros and this count: one number of eight bytes, for a count is less than 256.
pub fn is_ahead(state: &[u8], count: u64) -> bool
    requires { (length state.now ≡ state_size) × (count < 256) }
    ensures { result ≡ (eqb (number state.now 0 count_place) 0 && eqb (count_at state.now) count) }
{
    word64(state, 0) == count
}

// What a node adds to the count: 1 for a leaf that runs.
pub fn running_leaf(policy: &[u8], node: usize, status: u8) -> u64
    requires { (node ≤ 255) × (node_place node + node_size ≤ length policy.now) }
    ensures { result ≡ one (is_leaf (node_kind (node_at policy.now (node_place node)).kind) && is_running (status_of status)) }
{
    match view_kind(policy, node) {
        Kind::Leaf => u64::from(status == RUNNING),
        _ => 0,
    }
}

// ---- reading a node's record

pub fn saved_status(state: &[u8], node: usize) -> u8
    requires { (length state.now ≡ state_size) × (node < most_nodes) }
    ensures { result ≡ status_at (cells state.now) node }
{
    byte(state, cell_place(node))
}

pub fn saved_offset(state: &[u8], node: usize) -> u8
    requires { (length state.now ≡ state_size) × (node < most_nodes) }
    ensures { result ≡ offset_at (cells state.now) node }
{
    byte(state, cell_place(node) + 1)
}

pub fn saved_zeros(state: &[u8], node: usize) -> u64
    requires { (length state.now ≡ state_size) × (node < most_nodes) }
    ensures { result ≡ zeros_at (cells state.now) node }
{
    word16(state, cell_place(node) + 2)
}

pub fn saved_counter(state: &[u8], node: usize) -> u64
    requires { (length state.now ≡ state_size) × (node < most_nodes) }
    ensures { result ≡ counter_at (cells state.now) node }
{
    word32(state, cell_place(node) + 4)
}

// The whole record as one number: a call keeps it so in its memory.
pub fn saved_word(state: &[u8], node: usize) -> u64
    requires { (length state.now ≡ state_size) × (node < most_nodes) }
    ensures { result ≡ number (cells state.now) (cell_place node) cell_size }
{
    word64(state, cell_place(node))
}

// All bytes from a node's record on, joined: a compiler takes many at once, where a test of each goes one by one.
pub fn is_empty_from(state: &[u8], node: usize) -> bool
    requires { (length state.now ≡ state_size) × (node ≤ most_nodes) }
    ensures { result ≡ every (λ b. eqb b 0) (drop (cell_place node) (cells state.now)) }
{
    let records = &state[cell_place(node)..];
    records.iter().fold(0, |joined, byte| joined | byte) == 0
}

// ---- writing

// A word as eight bytes, the highest first.
fn put_word(state: &mut [u8], at: usize, x: u64)
    requires { at + cell_size ≤ length state.old }
    ensures { state.new ≡ put state.old at (spell 8 x) }
{
    state[at..at + CELL_SIZE].copy_from_slice(&x.to_be_bytes());
}

// A node's record, as one number.
pub fn save_word(state: &mut [u8], node: usize, x: u64)
    requires { (length state.old ≡ state_size) × (node < most_nodes) }
    ensures { (length state.new ≡ state_size)
        × (cells state.new ≡ put (cells state.old) (cell_place node) (spell 8 x)) }
{
    put_word(state, cell_place(node), x);
}

// The bytes in front: the count, as one number.
pub fn save_count(state: &mut [u8], count: u64)
    requires { (length state.old ≡ state_size) × (count < 256) }
    ensures { state.new ≡ ahead count ++ cells state.old }
{
    put_word(state, 0, count);
}

// Zeros from a node's record on.
pub fn clear_from(state: &mut [u8], node: usize)
    requires { (length state.old ≡ state_size) × (node ≤ most_nodes) }
    ensures { let records = cells state.old in
        (length state.new ≡ state_size)
        × (cells state.new ≡ put records (cell_place node) (replicate (length records - cell_place node) 0)) }
{
    let first = cell_place(node);
    state[first..].fill(0);
}
