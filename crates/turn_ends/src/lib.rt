// What a node writes as its phase ends, or as an insert of its left side has been given on: its status, read from its sides.
#![tactic(auto)]

ghost use Rattle.std.specs.Prelude.{◌≡◌, ◌<◌, length, set};
ghost use Rattle.spec_policy.specs.Records.{most_nodes};
ghost use Rattle.turn_memory.specs.Words.{word_count, packed};
ghost use Rattle.turn_memory.specs.Phases.{phase_of};
ghost use Rattle.turn_sides.specs.Sides.{Sided};
ghost use Rattle.turn_ends.specs.Ends.{SettledAt, ParEnd, SeqEnd, Reread, Caught};

use turn_memory::{AFTER, WORDS, put, status_at};
use turn_sides::{join, join_of, joined_at, mark_of, right_of};
use turn_state::{RUNNING, is_halted, is_running};

// How a phase ended: its action accepted, or suppressed; or, from STOPPED on, a node above was decided by an insert, and no phase beneath it goes on.
pub const ACCEPTED: usize = 0;

pub const SUPPRESSED: usize = 1;

pub const STOPPED: usize = 2;

fn settle(policy: &[u8], mem: &mut [u64; WORDS], node: usize, phase: u8) -> u8
    requires { Sided policy.now node × (length mem.old ≡ word_count) }
    ensures { SettledAt policy.now node (phase_of phase) mem.old mem.new result }
{
    let status = joined_at(policy, mem, node);
    put(mem, node, status, 0, mark_of(phase), 0);
    status
}

// The end of a parallel node's phase, whose sides ended with x and y.
pub fn par_end(
    policy: &[u8],
    mem: &mut [u64; WORDS],
    node: usize,
    phase: u8,
    x: usize,
    y: usize,
) -> usize
    requires { (Sided policy.now node × (length mem.old ≡ word_count)) × ((x < 2) × (y < 2)) }
    ensures { ParEnd policy.now node (phase_of phase) mem.old mem.new x y result }
{
    let status = settle(policy, mem, node, phase);
    if is_halted(status) {
        return ACCEPTED;
    }
    if x == SUPPRESSED {
        return SUPPRESSED;
    }
    y
}

// The end of a sequential node's phase, whose last part ended with x.
pub fn seq_end(policy: &[u8], mem: &mut [u64; WORDS], node: usize, phase: u8, x: usize) -> usize
    requires { (Sided policy.now node × (length mem.old ≡ word_count)) × (x < 2) }
    ensures { SeqEnd policy.now node (phase_of phase) mem.old mem.new x result }
{
    settle(policy, mem, node, phase);
    if phase < AFTER {
        return x;
    }
    ACCEPTED
}

// A sequential node's status once an insert has been given on. Decided, it stops whatever runs beneath it.
pub fn reread(policy: &[u8], mem: &mut [u64; WORDS], node: usize) -> usize
    requires { Sided policy.now node × (length mem.old ≡ word_count) }
    ensures { Reread policy.now node mem.old mem.new result }
{
    let right = status_at(mem, right_of(policy, node));
    let status = join(join_of(policy, node), RUNNING, right);
    if is_running(status) {
        return ACCEPTED;
    }
    put(mem, node, status, 0, 0, 0);
    STOPPED + node
}

// A side's phase was stopped: the node's own is over if it is the node that was decided.
pub fn caught(x: usize, node: usize) -> usize
    requires { node < most_nodes }
    ensures { Caught x node result }
{
    if x == STOPPED + node {
        return ACCEPTED;
    }
    x
}

// A trivial or an unsatisfiable node is over once it is asked.
pub fn over(mem: &mut [u64; WORDS], node: usize, status: u8) -> usize
    requires { node < most_nodes }
    ensures { (result ≡ 0) × (mem.new ≡ set mem.old node (packed status 0 0 0)) }
{
    put(mem, node, status, 0, 0, 0);
    ACCEPTED
}
