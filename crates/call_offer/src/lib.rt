// The root's turn on an offered action: its phases, and the verdict between them.
#![tactic(auto)]

ghost use Rattle.std.specs.Prelude.{◌≡◌, true, ◌≤◌, length};
ghost use Rattle.spec_policy.specs.Tree.{regulated, tree};
ghost use Rattle.spec_turns.specs.Turn.{before, offer, is_asked, call};
ghost use Rattle.spec_turns.specs.Entries.{event_room};
ghost use Rattle.spec_turns.specs.Process.{trace, items};
ghost use Rattle.spec_trace.specs.Tallies.{steps_if};
ghost use Rattle.turn_paths.specs.Memory.{held};
ghost use Rattle.turn_memory.specs.Words.{memory_of};
ghost use Rattle.call_phase.specs.Phased.{Ready, Played};

use call_answer::judge;
use call_phase::run_phase;
use turn_memory::{AFTER, WORDS};
use turn_tally::STEP_COUNTS;

// Gives the number of its events. The root is asked about the action: any other is answered without a turn.
pub fn play(
    policy: &[u8],
    mem: &mut [u64; WORDS],
    events: &mut [u8],
    action: u8,
    counts: &mut [u32; STEP_COUNTS],
    counting: bool,
) -> usize
    requires ready { Ready policy.now mem.old × (event_room ≤ length events.old) }
    requires mem_value { is_asked (regulated (tree policy.now)) (before action) (held (tree policy.now) (memory_of mem.old)) ≡ true }
    ensures fact { let t = tree policy.now in
        Played t (call t (offer action) (held t (memory_of mem.old)))
        (memory_of mem.new) events.old events.new result }
    ensures ready_2 { Ready policy.now mem.new }
    ensures counts_after { let t = tree policy.now in
        counts.new ≡ steps_if counting policy.now
        (items (trace (call t (offer action) (held t (memory_of mem.old))))) counts.old }
{
    let first = run_phase(policy, mem, events, 0, action, counts, counting);
    let count = judge(mem, events, first.events, first.suppressed, action);
    let second = run_phase(policy, mem, events, count, AFTER, counts, counting);
    second.events
}
