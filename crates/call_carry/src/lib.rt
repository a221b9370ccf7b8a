// A call that no rule refuses, carried out: the phases of the root, the verdict between them, the state tidied at the end.
#![tactic(auto)]

ghost use Rattle.std.specs.Prelude.{◌≡◌, [], ◌≤◌, length};
ghost use Rattle.spec_policy.specs.Tree.{trivial, regulated, tree};
ghost use Rattle.spec_check.specs.Passed.{Passed};
ghost use Rattle.spec_turns.specs.Status.{Status, status_number};
ghost use Rattle.spec_turns.specs.State.{leaf_over};
ghost use Rattle.spec_turns.specs.Turn as spec;
ghost use Rattle.spec_turns.specs.Turn.{opening};
ghost use Rattle.spec_turns.specs.Saved.{state_size};
ghost use Rattle.spec_turns.specs.Entries.{event_room, carried, carried_out};
ghost use Rattle.spec_trace.specs.Tallies.{steps_if};
ghost use Rattle.spec_trace.specs.Traces.{ran_by};
ghost use Rattle.turn_paths.specs.Memory.{held};
ghost use Rattle.turn_memory.specs.Words.{word_count, memory_of};
ghost use Rattle.turn_memory.specs.Phases.{phase_of};
ghost use Rattle.turn_memory.specs.Told.{Tells};
ghost use Rattle.call_carry.specs.Calls.{Counted, Allowed, Runs};
ghost use Rattle.call_phase.specs.Phased.{items_of};
ghost use Rattle.call_answer.specs.declared.Call.TheVariants.{Open, Offer, Close};
ghost use Rattle.call_answer.specs.Requests.{asked};
ghost use Rattle.call_answer.specs.Ends.{Ended};
ghost use Rattle.call_answer.specs.Replies.{Gave};

use actions::ActionSet;
use call_answer::{Answer, Answered, Call, finish, put_verdict};
use call_offer::play;
use call_phase::run_phase;
use file_records::{Kind, nodes_of, steps_of};
use file_view::view_kind;
use turn_memory::{AFTER, CLOSING, WORDS};
use turn_rest::awaken::{awaken, wake};
use turn_rest::tidy::tidy_alone;
use turn_state::{ENDED, HALTED, is_running, saved_status};
use turn_tables::prepare;
use turn_tally::STEP_COUNTS;

// ---- an ordinary call: its steps are not counted

// `set` is what the root regulates, which the check has found.
pub fn carry_action(
    policy: &[u8],
    set: ActionSet,
    state: &mut [u8],
    events: &mut [u8],
    action: u8,
) -> Answer
    requires { Allowed policy.now state.old events.old (Offer action) × (set.bits ≡ regulated (tree policy.now)) }
    ensures { Gave (carried_out policy.now (spec.offer action) state.old events.old)
        result state.new events.new }
{
    let mut none = [0u32; STEP_COUNTS];
    carry_action_counting(policy, set, state, events, action, &mut none, false)
}

pub fn carry_out(policy: &[u8], state: &mut [u8], events: &mut [u8], call: Call) -> Answer
    requires { Runs policy.now state.old events.old call }
    ensures { Gave (carried_out policy.now (asked call) state.old events.old)
        result state.new events.new }
{
    let mut none = [0u32; STEP_COUNTS];
    carry_out_counting(policy, state, events, call, &mut none, false)
}

// ---- a call whose steps are counted where that is asked

// "At the root, an action not regulated is accepted with no change. So is any action once the root has ended.": no byte of the state moves.
pub fn carry_action_counting(
    policy: &[u8],
    set: ActionSet,
    state: &mut [u8],
    events: &mut [u8],
    action: u8,
    counts: &mut [u32; STEP_COUNTS],
    counting: bool,
) -> Answer
    requires { Allowed policy.now state.old events.old (Offer action) × (set.bits ≡ regulated (tree policy.now)) }
    ensures gave { Gave (carried_out policy.now (spec.offer action) state.old events.old)
        result state.new events.new }
    ensures counts_after { counts.new ≡ steps_if counting policy.now
        (ran_by policy.now (spec.offer action) state.old) counts.old }
{
    let status = saved_status(state, 0);
    if is_running(status) & set.has(action) {
        return carry_out_counting(policy, state, events, Call::Offer(action), counts, counting);
    }
    put_verdict(events, 0, false, action);
    Ok(Answered { events: 1, status })
}

// A call on the caller's file, state and events. The file's counts are read here, once for the whole call. It is a frame of its own, which holds the
// memory of a call: compiled into a run over a trace, it would cost twice the instructions at each action that is accepted with no change.
#[inline(never)]
pub fn carry_out_counting(
    policy: &[u8],
    state: &mut [u8],
    events: &mut [u8],
    call: Call,
    counts: &mut [u32; STEP_COUNTS],
    counting: bool,
) -> Answer
    requires { Runs policy.now state.old events.old call }
    ensures gave { Gave (carried_out policy.now (asked call) state.old events.old)
        result state.new events.new }
    ensures counts_after { counts.new ≡ steps_if counting policy.now
        (ran_by policy.now (asked call) state.old) counts.old }
{
    let nodes = nodes_of(policy);
    let steps = steps_of(policy);
    carry_counted(policy, nodes, steps, state, events, call, counts, counting)
}

fn carry_counted(
    policy: &[u8],
    nodes: usize,
    steps: usize,
    state: &mut [u8],
    events: &mut [u8],
    call: Call,
    counts: &mut [u32; STEP_COUNTS],
    counting: bool,
) -> Answer
    requires { Counted policy.now nodes steps × Runs policy.now state.old events.old call }
    ensures gave { Gave (carried_out policy.now (asked call) state.old events.old)
        result state.new events.new }
    ensures counts_after { counts.new ≡ steps_if counting policy.now
        (ran_by policy.now (asked call) state.old) counts.old }
{
    match call {
        Call::Open => carry_open(policy, nodes, steps, state, events, counts, counting),
        Call::Offer(action) => carry_offer(
            policy, nodes, steps, state, events, action, counts, counting,
        ),
        Call::Close => carry_close(policy, nodes, steps, state, events, counts, counting),
    }
}

// A root that is neither leaf nor pair is the whole policy, and over as it is opened: no node has a phase to run.
fn carry_open(
    policy: &[u8],
    nodes: usize,
    steps: usize,
    state: &mut [u8],
    events: &mut [u8],
    counts: &mut [u32; STEP_COUNTS],
    counting: bool,
) -> Answer
    requires { Counted policy.now nodes steps × Runs policy.now state.old events.old Open }
    ensures gave { Gave (carried_out policy.now opening state.old events.old)
        result state.new events.new }
    ensures counts_after { counts.new ≡ steps_if counting policy.now
        (ran_by policy.now opening state.old) counts.old }
{
    let kind = view_kind(policy, 0);
    match kind {
        Kind::Trivial => open_alone(state, ENDED),
        Kind::Unsatisfiable => open_alone(state, HALTED),
        _ => open_tree(policy, nodes, steps, state, events, counts, counting),
    }
}

fn open_alone(state: &mut [u8], status: u8) -> Answer
    requires { length state.old ≡ state_size }
    ensures { (s : Status) → status ≡ status_number s → Ended (trivial 0) (leaf_over s) 0 result state.new }
{
    tidy_alone(state, status);
    Ok(Answered { events: 0, status })
}

fn open_tree(
    policy: &[u8],
    nodes: usize,
    steps: usize,
    state: &mut [u8],
    events: &mut [u8],
    counts: &mut [u32; STEP_COUNTS],
    counting: bool,
) -> Answer
    requires { Counted policy.now nodes steps × Runs policy.now state.old events.old Open }
    ensures gave { Gave (carried_out policy.now opening state.old events.old)
        result state.new events.new }
    ensures counts_after { counts.new ≡ steps_if counting policy.now
        (ran_by policy.now opening state.old) counts.old }
{
    let mut mem = [0u64; WORDS];
    awaken(policy, nodes, &mut mem);
    one_phase(
        policy, nodes, steps, &mut mem, state, events, AFTER, counts, counting,
    )
}

// "Closing a decided root emits nothing and answers its status.": no byte of the state moves.
fn carry_close(
    policy: &[u8],
    nodes: usize,
    steps: usize,
    state: &mut [u8],
    events: &mut [u8],
    counts: &mut [u32; STEP_COUNTS],
    counting: bool,
) -> Answer
    requires { Counted policy.now nodes steps × Runs policy.now state.old events.old Close }
    ensures gave { Gave (carried_out policy.now spec.close state.old events.old)
        result state.new events.new }
    ensures counts_after { counts.new ≡ steps_if counting policy.now
        (ran_by policy.now spec.close state.old) counts.old }
{
    let status = saved_status(state, 0);
    if !is_running(status) {
        return Ok(Answered { events: 0, status });
    }
    let mut mem = [0u64; WORDS];
    wake(state, nodes, &mut mem);
    one_phase(
        policy, nodes, steps, &mut mem, state, events, CLOSING, counts, counting,
    )
}

// Opening and closing: one phase of the root.
fn one_phase(
    policy: &[u8],
    nodes: usize,
    steps: usize,
    mem: &mut [u64; WORDS],
    state: &mut [u8],
    events: &mut [u8],
    phase: u8,
    counts: &mut [u32; STEP_COUNTS],
    counting: bool,
) -> Answer
    requires passed { (Passed policy.now × Counted policy.now nodes steps)
        × ((length mem.old ≡ word_count) × ((length state.old ≡ state_size) × (event_room ≤ length events.old))) }
    requires tells { Tells mem.old [] }
    ensures fact { let t = tree policy.now in
        Gave (carried t (spec.phase t (phase_of phase) (held t (memory_of mem.old))) events.old)
        result state.new events.new }
    ensures counts_after { let t = tree policy.now in
        counts.new ≡ steps_if counting policy.now
        (items_of t (phase_of phase) (held t (memory_of mem.old))) counts.old }
{
    prepare(policy, nodes, steps, mem);
    let ran = run_phase(policy, mem, events, 0, phase, counts, counting);
    finish(policy, nodes, mem, state, ran.events)
}

fn carry_offer(
    policy: &[u8],
    nodes: usize,
    steps: usize,
    state: &mut [u8],
    events: &mut [u8],
    action: u8,
    counts: &mut [u32; STEP_COUNTS],
    counting: bool,
) -> Answer
    requires { Counted policy.now nodes steps × Runs policy.now state.old events.old (Offer action) }
    ensures gave { Gave (carried_out policy.now (spec.offer action) state.old events.old)
        result state.new events.new }
    ensures counts_after { counts.new ≡ steps_if counting policy.now
        (ran_by policy.now (spec.offer action) state.old) counts.old }
{
    let mut mem = [0u64; WORDS];
    wake(state, nodes, &mut mem);
    prepare(policy, nodes, steps, &mut mem);
    let count = play(policy, &mut mem, events, action, counts, counting);
    finish(policy, nodes, &mut mem, state, count)
}
