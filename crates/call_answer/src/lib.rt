// What a call asks and answers: its request, the verdict's event, and the call's end.
#![tactic(auto)]

ghost use Rattle.std.specs.Prelude.{◌≡◌, [], ◌∷◌, ◌+◌, ◌*◌, ◌≤◌, length};
ghost use Rattle.actions.specs.Sets.{Action};
ghost use Rattle.spec_policy.specs.Bytes.{put};
ghost use Rattle.spec_policy.specs.Records.{node_count};
ghost use Rattle.spec_policy.specs.Tree.{tree};
ghost use Rattle.spec_check.specs.Passed.{Passed};
ghost use Rattle.spec_turns.specs.Turn as spec;
ghost use Rattle.spec_turns.specs.Events.{event_of, event_bytes};
ghost use Rattle.spec_turns.specs.Saved.{state_size};
ghost use Rattle.turn_paths.specs.Memory.{held};
ghost use Rattle.turn_memory.specs.Words.{word_count, memory_of};
ghost use Rattle.call_answer.specs.Ends.{verdicts, Added, Ended};

use faults::Fault;
use turn_memory::{WORDS, status_at};
use turn_rest::tidy::tidy;
use turn_state::{HALTED, saved_status};
use turn_told::{EVENT_ACCEPTED, EVENT_SUPPRESSED};

// Which call it is.
#[derive(Clone, Copy)]
pub enum Call {
    Open,
    Offer(u8),
    Close,
}

// The number of events and the root's status.
#[derive(Clone, Copy)]
pub struct Answered {
    pub events: usize,
    pub status: u8,
}

pub type Answer = Result<Answered, Fault>;

// "The verdict's event stands between the phases; a halt before the verdict has none."
pub fn judge(
    mem: &[u64; WORDS],
    events: &mut [u8],
    count: usize,
    suppressed: bool,
    action: u8,
) -> usize
    requires { 2 * count + 2 ≤ length events.old }
    ensures { Added (verdicts (memory_of mem.now 0).status suppressed action) events.old events.new count result }
{
    if status_at(mem, 0) == HALTED {
        return count;
    }
    put_verdict(events, count, suppressed, action);
    count + 1
}

// Writes the verdict's event, after so many.
pub fn put_verdict(events: &mut [u8], count: usize, suppressed: bool, action: u8)
    requires { 2 * count + 2 ≤ length events.old }
    ensures { events.new ≡ put events.old (2 * count) (event_bytes (event_of (spec.verdict suppressed action))) }
{
    let at = 2 * count;
    events[at] = verdict_byte(suppressed);
    events[at + 1] = action;
}

// The verdict's byte in its event.
fn verdict_byte(suppressed: bool) -> u8
    ensures { (a : Action) → event_bytes (event_of (spec.verdict suppressed a)) ≡ result ∷ a ∷ [] }
{
    if suppressed {
        EVENT_SUPPRESSED
    } else {
        EVENT_ACCEPTED
    }
}

// Every answered call ends so: the state is made canonical, and the root's status read from it.
pub fn finish(
    policy: &[u8],
    nodes: usize,
    mem: &mut [u64; WORDS],
    state: &mut [u8],
    count: usize,
) -> Answer
    requires passed { Passed policy.now × (nodes ≡ node_count policy.now) }
    requires mem_len { (length mem.old ≡ word_count) × (length state.old ≡ state_size) }
    ensures { Ended (tree policy.now) (held (tree policy.now) (memory_of mem.old)) count result state.new }
{
    tidy(policy, nodes, mem, state);
    Ok(Answered {
        events: count,
        status: saved_status(state, 0),
    })
}
