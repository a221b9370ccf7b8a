// What a turn finds at a node of the file: where its leaf's steps are, and which node above takes an insert.
#![tactic(auto)]

ghost use Rattle.std.specs.Prelude.{◌≡◌, ◌≤◌, ltb, eqb};
ghost use Rattle.spec_policy.specs.Tree.{aLeaf};
ghost use Rattle.turn_paths.specs.Choices.{emits};
ghost use Rattle.turn_memory.specs.Words.{memory_of};
ghost use Rattle.turn_memory.specs.Phases.{phase_of};
ghost use Rattle.turn_sides.specs.Sides.{kind_at, right_at, join_at, Sided};
ghost use Rattle.turn_place.specs.Places.{Stands, Asked, StepsOf, Begun, WentOn, Finds};
ghost use Rattle.spec_policy.specs.Records.{most_nodes};

use file_view::view_count;
use turn_ends::SUPPRESSED;
use turn_leaf::{Progress, leave, run};
use turn_memory::{WORDS, status_at};
use turn_sides::{emits, is_asked, join_of, right_of};
use turn_tables::{NONE, above_of, feeder_of, first_of};
use turn_tally::STEP_COUNTS;

// ---- a leaf

// The number of a leaf's first step, and how many steps it has.
#[derive(Clone, Copy)]
struct Steps {
    first: usize,
    count: usize,
}

fn steps_of(policy: &[u8], mem: &[u64; WORDS], node: usize) -> Steps
    requires { Stands policy.now mem.now node }
    ensures { StepsOf policy.now node result.first result.count }
{
    Steps {
        first: first_of(mem, node),
        count: view_count(policy, node) as usize,
    }
}

// A leaf that is asked begins its phase.
pub fn begin_leaf(
    policy: &[u8],
    mem: &mut [u64; WORDS],
    node: usize,
    phase: u8,
    counts: &mut [u32; STEP_COUNTS],
    counting: bool,
)
    requires { Stands policy.now mem.old node × ((kind_at policy.now node ≡ aLeaf) × Asked policy.now mem.old node (phase_of phase)) }
    ensures { Begun counting policy.now counts.old counts.new
        node (phase_of phase) mem.old mem.new }
{
    let steps = steps_of(policy, mem, node);
    leave(
        policy,
        mem,
        node,
        steps.first,
        steps.count,
        phase,
        counts,
        counting,
    );
}

// Up to the leaf's next insert, or to its phase's end.
pub fn run_leaf(
    policy: &[u8],
    mem: &mut [u64; WORDS],
    node: usize,
    phase: u8,
    counts: &mut [u32; STEP_COUNTS],
    counting: bool,
) -> Progress
    requires { Stands policy.now mem.old node × (kind_at policy.now node ≡ aLeaf) }
    ensures { WentOn counting policy.now counts.old counts.new
        node (phase_of phase) mem.old mem.new result }
{
    let steps = steps_of(policy, mem, node);
    run(
        policy,
        mem,
        node,
        steps.first,
        steps.count,
        phase,
        counts,
        counting,
    )
}

// ---- an insert's way up

// The nearest node above, on whose left side this one is, whose right side is asked about the insert, or NONE.
pub fn taker(policy: &[u8], mem: &[u64; WORDS], node: usize, b: u8) -> usize
    requires { Stands policy.now mem.now node }
    ensures { (result ≤ most_nodes) × Finds policy.now mem.now node b (ltb result most_nodes) result }
{
    let mut at = node;
    loop {
        let above = above_of(mem, at);
        if !above.has(b) {
            return NONE;
        }
        at = feeder_of(mem, at);
        if is_asked(mem, right_of(policy, at), b) {
            return at;
        }
    }
}

// Whether an insert goes on from a node, once its right side's phase before the verdict has ended with x.
pub fn lets_on(policy: &[u8], mem: &[u64; WORDS], node: usize, x: usize) -> bool
    requires { Sided policy.now node }
    ensures { result ≡ emits (join_at policy.now node)
        (memory_of mem.now (right_at policy.now node)).status (eqb x 1) }
{
    let status = status_at(mem, right_of(policy, node));
    emits(join_of(policy, node), status, x == SUPPRESSED)
}
