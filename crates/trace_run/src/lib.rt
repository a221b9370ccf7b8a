// A policy run over a trace: opening, the trace's actions and closing, their events one after another in one lent buffer, and a tally of steps and actions.
#![tactic(auto)]

ghost use Rattle.std.specs.Prelude.{◌≡◌, [], None, Ok};
ghost use Rattle.spec_trace.specs.Traces.{follow, traces};
ghost use Rattle.trace_run.specs.Reports.{Told, Running, run_of};

use actions::ActionSet;
use call_answer::Call;
use check_policy::{check, refusal};
use faults::{Fault, Refusal};
use trace_call::on_tail;
use trace_events::ACTION_COUNTS;
use turn_state::{STATE_SIZE, is_halted};
use turn_tally::STEP_COUNTS;

// How far a run has come, or how it ended: the refusal that stopped it, and none where the root halted or was closed; the actions judged, the events
// written, the root's status.
#[derive(Clone, Copy)]
pub struct Followed {
    pub stop: Option<Fault>,
    pub judged: usize,
    pub events: usize,
    pub status: u8,
}

// Or why it was not opened.
pub type Report = Result<Followed, Fault>;

// "and closing": after so many events and actions.
fn close_run(
    policy: &[u8],
    set: ActionSet,
    state: &mut [u8],
    events: &mut [u8],
    run: Followed,
    steps: &mut [u32; STEP_COUNTS],
    actions: &mut [u32; ACTION_COUNTS],
) -> Followed
    requires { Running policy.now set.bits state.old events.old run.events run.status }
    ensures { Told (follow policy.now []
        (run_of state.old events.old run.events steps.old actions.old run.judged run.status))
        (Ok result) state.new events.new steps.new actions.new }
{
    match on_tail(
        policy,
        set,
        state,
        events,
        run.events,
        Call::Close,
        steps,
        actions,
    ) {
        Ok(answered) => Followed {
            stop: None,
            judged: run.judged,
            events: run.events + answered.events,
            status: answered.status,
        },
        Err(fault) => Followed {
            stop: Some(fault),
            ..run
        },
    }
}

// "the trace's actions and closing": the run after opening, from so many events on, while the root has not halted.
fn go_through(
    policy: &[u8],
    set: ActionSet,
    trace: &[u8],
    state: &mut [u8],
    events: &mut [u8],
    mut run: Followed,
    steps: &mut [u32; STEP_COUNTS],
    actions: &mut [u32; ACTION_COUNTS],
) -> Followed
    requires running { Running policy.now set.bits state.old events.old run.events run.status }
    requires begun { (run.stop ≡ None) × (run.judged ≡ 0) }
    ensures { Told (follow policy.now trace.now
        (run_of state.old events.old run.events steps.old actions.old 0 run.status))
        (Ok result) state.new events.new steps.new actions.new }
{
    for action in trace {
        let offer = Call::Offer(*action);
        match on_tail(
            policy, set, state, events, run.events, offer, steps, actions,
        ) {
            Ok(answered) => {
                run.judged += 1;
                run.events += answered.events;
                run.status = answered.status;
                if is_halted(run.status) {
                    return run;
                }
            }
            Err(fault) => {
                run.stop = Some(fault);
                return run;
            }
        }
    }
    close_run(policy, set, state, events, run, steps, actions)
}

// "Run opening, the trace's actions and closing": the whole run, on the counts of a tally. The file is checked once. What the state buffer held is not read.
pub fn follow_trace(
    policy: &[u8],
    trace: &[u8],
    state: &mut [u8],
    events: &mut [u8],
    steps: &mut [u32; STEP_COUNTS],
    actions: &mut [u32; ACTION_COUNTS],
) -> Report
    ensures { Told (traces policy.now trace.now state.old events.old
        (record { steps = steps.entry.now; actions = actions.old }))
        result state.new events.new steps.exit.now actions.new }
{
    let checked = check(policy);
    let Ok(sets) = checked else {
        return Err(refusal(checked));
    };
    let set = sets.regulated;
    if state.len() != STATE_SIZE {
        return Err(Refusal::Buffers.bare());
    }
    let opened = on_tail(policy, set, state, events, 0, Call::Open, steps, actions)?;
    let run = Followed {
        stop: None,
        judged: 0,
        events: opened.events,
        status: opened.status,
    };
    if is_halted(run.status) {
        return Ok(run);
    }
    Ok(go_through(policy, set, trace, state, events, run, steps, actions))
}
