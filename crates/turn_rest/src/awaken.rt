// The memory that a call begins with.
ghost use Rattle.std.specs.Prelude.{◌≡◌, ◌≤◌, length};
ghost use Rattle.spec_policy.specs.Records.{most_nodes, node_count};
ghost use Rattle.spec_policy.specs.Tree.{tree};
ghost use Rattle.spec_check.specs.Passed.{Passed};
ghost use Rattle.spec_turns.specs.Turn.{fresh};
ghost use Rattle.spec_turns.specs.Saved.{state_size, cells};
ghost use Rattle.turn_paths.specs.Memory.{held};
ghost use Rattle.turn_memory.specs.Words.{word_count, memory_of};
ghost use Rattle.turn_rest.specs.Rest.{KeptFrom, Woken};

use file_view::view_start;
use turn_memory::{MARKED, WORDS, put};
use turn_state::{RUNNING, saved_word};

// The memory of a call that opens. A node that is not yet opened counts as running, and owes the phase after the verdict, which opening is: every
// node runs, is marked, and stands at its start. A node that is no leaf has the start zero: rule 4.
pub fn awaken(policy: &[u8], n: usize, mem: &mut [u64; WORDS])
    requires passed { Passed policy.now × (n ≡ node_count policy.now) }
    requires mem_len { length mem.old ≡ word_count }
    ensures mem_after { held (tree policy.now) (memory_of mem.new) ≡ fresh (tree policy.now) }
    ensures kept_from { KeptFrom n mem.old mem.new }
{
    for i in 0..n {
        put(mem, i, RUNNING, 0, MARKED, view_start(policy, i));
    }
}

// The memory of a call on a saved state: each node's record as one word.
pub fn wake(state: &[u8], n: usize, mem: &mut [u64; WORDS])
    requires { (length state.now ≡ state_size) × ((length mem.old ≡ word_count) × (n ≤ most_nodes)) }
    ensures { Woken n (cells state.now) mem.new × KeptFrom n mem.old mem.new }
{
    for i in 0..n {
        mem[i] = saved_word(state, i);
    }
}
