// The saved state at a call's end: every node's record written anew, parents before children, so that what lies under a decided node is
// dropped before its own record is written.
ghost use Rattle.std.specs.Prelude.{◌≡◌, ◌+◌, ◌≤◌, ◌<◌, eqb, length};
ghost use Rattle.spec_policy.specs.Bytes.{spell};
ghost use Rattle.spec_policy.specs.Records.{most_nodes, node_size, node_count, node_at, node_place};
ghost use Rattle.spec_policy.specs.Tree.{aLeaf, trivial, tree};
ghost use Rattle.spec_check.specs.Passed.{Passed};
ghost use Rattle.spec_turns.specs.Status.{Status, status_number, status_of};
ghost use Rattle.spec_turns.specs.State.{leaf_over};
ghost use Rattle.spec_turns.specs.Saved.{state_size, cells, cell, saved};
ghost use Rattle.turn_paths.specs.Memory.{held};
ghost use Rattle.turn_memory.specs.Words.{word_count, memory_of};
ghost use Rattle.turn_rest.specs.Rest.{own_of, sides_over, Rested};
ghost use Rattle.turn_rest.specs.Swept.{Swept};

use file_records::Kind;
use file_view::{view_kind, view_left, view_right};
use turn_memory::{WORDS, cell, counter_at, offset_at, put, status_at};
use turn_state::{DROPPED, RUNNING, clear_from, running_leaf, save_count, save_word};

// A number that stands for no status is read as dropped, and saved so.
fn standing(status: u8) -> u8
    ensures { result ≡ status_number (status_of status) }
{
    match status {
        RUNNING..=DROPPED => status,
        _ => DROPPED,
    }
}

// A leaf that does not run has offset and counter zero.
fn leaf_word(mem: &[u64; WORDS], node: usize, status: u8) -> u64
    requires { (node < most_nodes) × (status ≡ status_number (memory_of mem.now node).status) }
    ensures { spell 8 result ≡ cell (own_of aLeaf (memory_of mem.now node)) }
{
    if status != RUNNING {
        return cell(status, 0, 0, 0);
    }
    cell(status, offset_at(mem, node), 0, counter_at(mem, node))
}

// The sides of the pair, dropped where it does not run.
fn drop_sides(policy: &[u8], mem: &mut [u64; WORDS], node: usize, status: u8)
    requires node_bound { (node ≤ 255) × (node_place node + node_size ≤ length policy.now) }
    requires fact { let x = node_at policy.now (node_place node) in (x.left < word_count) × (x.right < word_count) }
    ensures { mem.new ≡ sides_over (eqb status 1) (node_at policy.now (node_place node)) mem.old }
{
    if status == RUNNING {
        return;
    }
    put(mem, usize::from(view_left(policy, node)), DROPPED, 0, 0, 0);
    put(mem, usize::from(view_right(policy, node)), DROPPED, 0, 0, 0);
}

// The word that is saved of a node; and its sides are dropped where it is decided.
fn rest(policy: &[u8], node: usize, mem: &mut [u64; WORDS]) -> u64
    requires { (Passed policy.now × (node < node_count policy.now)) × (length mem.old ≡ word_count) }
    ensures { Rested policy.now node mem.old mem.new result }
{
    let status = standing(status_at(mem, node));
    match view_kind(policy, node) {
        Kind::Leaf => leaf_word(mem, node, status),
        Kind::Pair(_, _) => {
            drop_sides(policy, mem, node, status);
            cell(status, 0, 0, 0)
        }
        _ => cell(status, 0, 0, 0),
    }
}

// The records of the nodes. Gives the count of leaves that run: a node's word is as it will be saved once its turn comes.
fn sweep(policy: &[u8], n: usize, mem: &mut [u64; WORDS], state: &mut [u8]) -> u64
    requires passed { Passed policy.now × (n ≡ node_count policy.now) }
    requires mem_len { (length mem.old ≡ word_count) × (length state.old ≡ state_size) }
    ensures swept { Swept policy.now mem.old mem.new (cells state.new) n result }
    ensures state_len { length state.new ≡ state_size }
{
    let mut leaves = 0;
    for i in 0..n {
        leaves += running_leaf(policy, i, status_at(mem, i));
        let word = rest(policy, i, mem);
        save_word(state, i, word);
    }
    leaves
}

// The saved state at a call's end, every byte of it.
pub fn tidy(policy: &[u8], n: usize, mem: &mut [u64; WORDS], state: &mut [u8])
    requires passed { Passed policy.now × (n ≡ node_count policy.now) }
    requires mem_len { (length mem.old ≡ word_count) × (length state.old ≡ state_size) }
    ensures state_after { state.new ≡ saved (tree policy.now) (held (tree policy.now) (memory_of mem.old)) }
    ensures mem_len_2 { length mem.new ≡ word_count }
{
    let leaves = sweep(policy, n, mem, state);
    clear_from(state, n);
    save_count(state, leaves);
}

// The saved state of a policy that is one node and no leaf, once that node is over: it is written as it stands, with no memory of a call.
pub fn tidy_alone(state: &mut [u8], status: u8)
    requires { length state.old ≡ state_size }
    ensures { (s : Status) → status ≡ status_number s → state.new ≡ saved (trivial 0) (leaf_over s) }
{
    save_word(state, 0, cell(status, 0, 0, 0));
    clear_from(state, 1);
    save_count(state, 0);
}
