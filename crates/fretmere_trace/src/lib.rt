// The static library for C of the run over a trace, in an archive of its own: where it is compiled together with the single calls, each of these pays for the
// counting of steps that only the run asks for (docs/DECISIONS.md).
#![tactic(auto)]

ghost use Rattle.std.specs.Prelude.{◌≡◌};
ghost use Rattle.spec_trace.specs.Traces as traces;
ghost use Rattle.trace_run.specs.Reports.{stop_value};
ghost use Rattle.fretmere_trace.specs.Words.{stop_word, Gave};

use faults::{Fault, fault_word};
use trace_events::ACTION_COUNTS;
use trace_run::follow_trace;
use turn_tally::STEP_COUNTS;

// The tally, as C has it: for each step of the file how often it ran; and for each action how often it was accepted, suppressed, inserted.
#[repr(C)]
#[derive(Drop)]
pub struct Tally {
    pub steps: [u32; STEP_COUNTS],
    pub actions: [u32; ACTION_COUNTS],
}

// The words of a report: the actions judged, the events written, the root's status.
const REPORT_WORDS: usize = 3;

// What ended the run in one word: 0, or a refusal.
fn stop_word(stop: Option<Fault>) -> u32
    ensures { (z : traces.Stop) → stop ≡ stop_value z → result ≡ stop_word z }
{
    match stop {
        None => 0,
        Some(fault) => fault_word(fault),
    }
}

// The run on the two arrays of a tally, and its report in one word and three.
fn trace_on_counts(
    policy: &[u8],
    trace: &[u8],
    state: &mut [u8],
    events: &mut [u8],
    steps: &mut [u32; STEP_COUNTS],
    actions: &mut [u32; ACTION_COUNTS],
    report: &mut [u64; REPORT_WORDS],
) -> u32
    ensures { Gave (traces.traces policy.now trace.now state.old events.old
        (record { steps = steps.entry.now; actions = actions.old }))
        result report.new state.new events.new steps.exit.now actions.new }
{
    match follow_trace(policy, trace, state, events, steps, actions) {
        Err(fault) => {
            *report = [0, 0, 0];
            fault_word(fault)
        }
        Ok(run) => {
            *report = [run.judged as u64, run.events as u64, u64::from(run.status)];
            stop_word(run.stop)
        }
    }
}

// "One tally is handed along and brought up to date after every call": the run as its caller has it. Zero, or the refusal that stopped it.
#[unsafe(no_mangle)]
pub extern "C" fn fretmere_trace(
    policy: &[u8],
    trace: &[u8],
    state: &mut [u8],
    events: &mut [u8],
    tally: &mut Tally,
    report: &mut [u64; REPORT_WORDS],
) -> u32
    ensures { Gave (traces.traces policy.now trace.now state.old events.old
        (record { steps = tally.old.steps; actions = tally.old.actions }))
        result report.new state.new events.new tally.new.steps tally.new.actions }
{
    trace_on_counts(
        policy,
        trace,
        state,
        events,
        &mut tally.steps,
        &mut tally.actions,
        report,
    )
}
