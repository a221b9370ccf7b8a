// A call of a run over a trace: on the tail of the event buffer, its steps and its events counted.
#![tactic(auto)]

ghost use Rattle.std.specs.Prelude.{◌≡◌};
ghost use Rattle.spec_policy.specs.Tree.{regulated, tree};
ghost use Rattle.spec_turns.specs.Entries.{carried_out};
ghost use Rattle.spec_trace.specs.Tallies.{steps_tallied, actions_tallied};
ghost use Rattle.spec_trace.specs.Traces.{ran_by};
ghost use Rattle.call_answer.specs.Requests.{asked};
ghost use Rattle.call_answer.specs.Replies.{Gave};
ghost use Rattle.call_carry.specs.Calls.{Allowed};
ghost use Rattle.trace_call.specs.Tails.{no_action, Callable, Tailed};

use actions::{ActionSet, LAST_ACTION};
use call_answer::{Answer, Call};
use call_carry::{carry_action_counting, carry_out_counting};
use faults::Refusal;
use trace_events::{ACTION_COUNTS, count_events};
use turn_tally::STEP_COUNTS;
use turn_told::EVENT_ROOM;

// A call that no rule refuses, its steps counted.
#[tactic(auto, unfolding(call_answer::specs::Requests::asked, call_carry::specs::Calls::asks_root, spec_trace::specs::Tallies::steps_if))]
fn carry_steps(
    policy: &[u8],
    set: ActionSet,
    state: &mut [u8],
    events: &mut [u8],
    call: Call,
    steps: &mut [u32; STEP_COUNTS],
) -> Answer
    requires { Allowed policy.now state.old events.old call × (set.bits ≡ regulated (tree policy.now)) }
    ensures gave { Gave (carried_out policy.now (asked call) state.old events.old)
        result state.new events.new }
    ensures steps_after { steps.new ≡ steps_tallied policy.now
        (ran_by policy.now (asked call) state.old) steps.old }
{
    // Opening and closing are named apart, so that a compiler takes into each only its own way: together they cost a run 900 bytes of stack.
    match call {
        Call::Open => carry_out_counting(policy, state, events, Call::Open, steps, true),
        Call::Offer(a) => carry_action_counting(policy, set, state, events, a, steps, true),
        Call::Close => carry_out_counting(policy, state, events, Call::Close, steps, true),
    }
}

// The same, its events counted too.
fn carry(
    policy: &[u8],
    set: ActionSet,
    state: &mut [u8],
    events: &mut [u8],
    call: Call,
    steps: &mut [u32; STEP_COUNTS],
    actions: &mut [u32; ACTION_COUNTS],
) -> Answer
    requires { Allowed policy.now state.old events.old call × (set.bits ≡ regulated (tree policy.now)) }
    ensures gave { Gave (carried_out policy.now (asked call) state.old events.old)
        result state.new events.new }
    ensures steps_after { steps.new ≡ steps_tallied policy.now
        (ran_by policy.now (asked call) state.old) steps.old }
    ensures actions_after { actions.new ≡ actions_tallied (ran_by policy.now (asked call) state.old) actions.old }
{
    let answered = carry_steps(policy, set, state, events, call, steps)?;
    count_events(actions, events, answered.events);
    Ok(answered)
}

// 13: "action above 63"
#[tactic(auto, unfolding(crate::specs::Tails::no_action, spec_turns::specs::Entries::broken13, actions::specs::Sets::is_action))]
fn no_action(call: Call) -> bool
    ensures { result ≡ no_action call }
{
    matches!(call, Call::Offer(a) if a > LAST_ACTION)
}

// A call of the run, after so many events: on the tail of the buffer, "the part that begins where the last ended". The file and the state are not in question.
pub fn on_tail(
    policy: &[u8],
    set: ActionSet,
    state: &mut [u8],
    events: &mut [u8],
    written: usize,
    call: Call,
    steps: &mut [u32; STEP_COUNTS],
    actions: &mut [u32; ACTION_COUNTS],
) -> Answer
    requires { Callable policy.now set.bits state.old events.old written call }
    ensures { Tailed policy.now (asked call) state.old events.old written steps.old actions.old
        result state.new events.new steps.new actions.new }
{
    if no_action(call) {
        return Err(Refusal::Action.bare());
    }
    let at = 2 * written;
    if events.len() - at < EVENT_ROOM {
        return Err(Refusal::Room.bare());
    }
    carry(policy, set, state, &mut events[at..], call, steps, actions)
}
