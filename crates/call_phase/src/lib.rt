// One phase of the root, and its inserts as events.
#![tactic(auto)]

ghost use Rattle.std.specs.Prelude.{◌≡◌, ◌+◌, ◌*◌, ◌≤◌, length};
ghost use Rattle.spec_policy.specs.Tree.{tree};
ghost use Rattle.spec_trace.specs.Tallies.{steps_if};
ghost use Rattle.turn_paths.specs.Memory.{held};
ghost use Rattle.turn_memory.specs.Words.{memory_of};
ghost use Rattle.turn_memory.specs.Phases.{phase_of};
ghost use Rattle.call_phase.specs.Phased.{Ready, Phased, items_of, events_of};

use turn_ends::SUPPRESSED;
use turn_memory::WORDS;
use turn_node::turn;
use turn_tally::STEP_COUNTS;
use turn_told::tell;

const ROOT: usize = 0;

// So many events stand in the room; and whether the phase's action is suppressed.
#[derive(Clone, Copy)]
pub struct Ran {
    pub events: usize,
    pub suppressed: bool,
}

// One phase of the whole policy. Its events are written after so many; its steps are counted where that is asked.
pub fn run_phase(
    policy: &[u8],
    mem: &mut [u64; WORDS],
    events: &mut [u8],
    count: usize,
    phase: u8,
    counts: &mut [u32; STEP_COUNTS],
    counting: bool,
) -> Ran
    requires ready { Ready policy.now mem.old }
    requires mem_in_bounds { let t = tree policy.now in
        2 * (count + length (events_of t (phase_of phase) (held t (memory_of mem.old)))) ≤ length events.old }
    ensures phased { Phased (tree policy.now) (phase_of phase) (memory_of mem.old) (memory_of mem.new)
        events.old events.new count result.events result.suppressed }
    ensures ready_2 { Ready policy.now mem.new }
    ensures counts_after { let t = tree policy.now in
        counts.new ≡ steps_if counting policy.now
        (items_of t (phase_of phase) (held t (memory_of mem.old))) counts.old }
{
    let end = turn(policy, mem, ROOT, phase, counts, counting);
    let all = tell(mem, events, count);
    Ran {
        events: all,
        suppressed: end == SUPPRESSED,
    }
}
