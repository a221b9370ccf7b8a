// The bytes of an answer.
ghost use Rattle.std.specs.Prelude.{◌≡◌, ◌+◌, ◌-◌, ◌≤◌, length, take, [], ◌∷◌, ◌++◌};
ghost use Rattle.spec_check.specs.Check.{check};
ghost use Rattle.spec_policy.specs.Bytes.{spell};
ghost use Rattle.spec_turns.specs.Entries.{entry};
ghost use Rattle.call_answer.specs.Replies.{Gave};
ghost use Rattle.faults.specs.Meaning.{fault_of};
ghost use Rattle.spec_trace.specs.Traces as runs;
ghost use Rattle.trace_run.specs.Reports.{stop_value, report_value, Told};
ghost use Rattle.trials.specs.Runs.{trace_of, trace_called, stop_fault, report_bytes, Traced};
ghost use Rattle.trials.specs.Calls.{longest_field, Placed, part, policy_in, request, called, file_called};
ghost use Rattle.trials.specs.Calls.{refusal_bytes, answer_bytes, reply_bytes, size_bytes, Answers, Wrote};

use crate::calls::{LENGTH_SIZE, OFFER, OPEN, POLICY_AT, Parts};
use call_answer::Answer;
use check_policy::check;
use faults::{Fault, bare_fault, spot_code};
use file_writer::{Written, write};
use guard::{close, offer, open};
use run_input::policy_part;
use trace_events::ACTION_COUNTS;
use trace_run::{Report, follow_trace};
use turn_tally::STEP_COUNTS;

// How many bytes a refusal, a set and a count have.
const REFUSAL_SIZE: usize = 3;

const SET_SIZE: usize = 8;

const COUNT_SIZE: usize = 4;

// Where the second set of the check's answer begins, and how many bytes the answers have.
const SECOND_AT: usize = REFUSAL_SIZE + SET_SIZE;

const CHECKED_SIZE: usize = SECOND_AT + SET_SIZE;

const REPLY_SIZE: usize = REFUSAL_SIZE + 3;

const WRITTEN_SIZE: usize = REFUSAL_SIZE + 2;

// Where the counts of a report begin, and its status.
const JUDGED_AT: usize = REFUSAL_SIZE;

const EVENTS_AT: usize = JUDGED_AT + COUNT_SIZE;

const STATUS_AT: usize = EVENTS_AT + COUNT_SIZE;

const REPORT_SIZE: usize = STATUS_AT + 1;

// A refusal's number and which record it is about, counted from 1, the highest byte first.
fn refusal_bytes(fault: Fault) -> [u8; REFUSAL_SIZE]
    ensures { result ≡ refusal_bytes (fault_of fault) }
{
    let [_, _, high, low] = spot_code(fault.spot).to_be_bytes();
    [fault.number, high, low]
}

// A refusal and two sets, the highest byte first.
fn spell(fault: Fault, x: u64, y: u64) -> [u8; CHECKED_SIZE]
    ensures { result ≡ refusal_bytes (fault_of fault) ++ (spell 8 x ++ spell 8 y) }
{
    let [number, high, low] = refusal_bytes(fault);
    let mut bytes = [0; CHECKED_SIZE];
    bytes[0] = number;
    bytes[1] = high;
    bytes[2] = low;
    bytes[REFUSAL_SIZE..SECOND_AT].copy_from_slice(&x.to_be_bytes());
    bytes[SECOND_AT..].copy_from_slice(&y.to_be_bytes());
    bytes
}

// What the check answers about a policy, in bytes.
fn check_bytes(policy: &[u8]) -> [u8; CHECKED_SIZE]
    ensures { result ≡ answer_bytes (check policy.now) }
{
    match check(policy) {
        Ok(sets) => spell(bare_fault(0), sets.regulated.bits, sets.effects.bits),
        Err(fault) => spell(fault, 0, 0),
    }
}

// The same about the policy of a call.
pub fn policy_answer(batch: &[u8], parts: Parts) -> [u8; CHECKED_SIZE]
    requires { Placed batch.now parts }
    ensures { result ≡ answer_bytes (check (policy_in batch.now)) }
{
    check_bytes(&batch[POLICY_AT..parts.policy])
}

// An answer of the other entry points, the event count's highest byte first.
fn reply_bytes(answer: Answer) -> [u8; REPLY_SIZE]
    ensures { result ≡ reply_bytes answer }
{
    match answer {
        Ok(answered) => {
            let [_, _, _, _, _, _, high, low] = answered.events.to_be_bytes();
            [0, 0, 0, high, low, answered.status]
        }
        Err(fault) => {
            let [number, high, low] = refusal_bytes(fault);
            [number, high, low, 0, 0, 0]
        }
    }
}

fn enter(number: u8, policy: &[u8], state: &mut [u8], events: &mut [u8], action: u8) -> Answer
    ensures { Gave (entry policy.now (request number action) state.old events.old)
        result state.new events.new }
{
    match number {
        OPEN => open(policy, state, events),
        OFFER => offer(policy, state, events, action),
        _ => close(policy, state, events),
    }
}

// Copies a part of the batch to the start of a buffer, and answers its length.
fn load(batch: &[u8], from: usize, to: usize, buffer: &mut [u8]) -> usize
    requires { (from ≤ to) × (to ≤ length batch.now) × (to - from ≤ length buffer.old) }
    ensures { (result ≡ to - from) × (take result buffer.new ≡ part from to batch.now) }
{
    let size = to - from;
    buffer[..size].copy_from_slice(&batch[from..to]);
    size
}

// Makes the call on copies of its two buffers, which are left at the start of `state` and of `events`.
pub fn call_answer(
    batch: &[u8],
    parts: Parts,
    state: &mut [u8],
    events: &mut [u8],
) -> [u8; REPLY_SIZE]
    requires { Placed batch.now parts × (longest_field ≤ length state.old) × (longest_field ≤ length events.old) }
    ensures { Answers (called batch.now) result
        (take (parts.state - (parts.policy + 2)) state.new)
        (take (parts.events - (parts.state + 2)) events.new) }
{
    let of_state = load(batch, parts.policy + LENGTH_SIZE, parts.state, state);
    let of_events = load(batch, parts.state + LENGTH_SIZE, parts.events, events);
    let answer = enter(
        parts.entry,
        &batch[POLICY_AT..parts.policy],
        &mut state[..of_state],
        &mut events[..of_events],
        parts.action,
    );
    reply_bytes(answer)
}

// An answer of the writer, the length's highest byte first.
fn size_bytes(written: Written) -> [u8; WRITTEN_SIZE]
    ensures { result ≡ size_bytes written }
{
    match written {
        Ok(length) => {
            let [high, low] = length.to_be_bytes();
            [0, 0, 0, high, low]
        }
        Err(fault) => {
            let [number, high, low] = refusal_bytes(fault);
            [number, high, low, 0, 0]
        }
    }
}

// Calls the writer on a copy of the call's output, which is left at the start of `out`.
pub fn file_answer(batch: &[u8], parts: Parts, out: &mut [u8]) -> [u8; WRITTEN_SIZE]
    requires { Placed batch.now parts × (longest_field ≤ length out.old) }
    ensures { Wrote (file_called batch.now) result (take (parts.events - (parts.state + 2)) out.new) }
{
    let of_out = load(batch, parts.state + LENGTH_SIZE, parts.events, out);
    let written = write(
        &batch[POLICY_AT..parts.policy],
        &batch[parts.policy + LENGTH_SIZE..parts.state],
        &mut out[..of_out],
    );
    size_bytes(written)
}

// ---- a trace run

// How a run ended, in bytes: the refusal, the actions judged, the events written, the root's status.
fn report_bytes(fault: Fault, judged: usize, count: usize, status: u8) -> [u8; REPORT_SIZE]
    ensures { result ≡ refusal_bytes (fault_of fault) ++ (spell 4 judged ++ (spell 4 count ++ (status ∷ []))) }
{
    let [number, high, low] = refusal_bytes(fault);
    let mut bytes = [0; REPORT_SIZE];
    bytes[0] = number;
    bytes[1] = high;
    bytes[2] = low;
    // A count has the four low bytes.
    bytes[JUDGED_AT..EVENTS_AT].copy_from_slice(&judged.to_be_bytes()[4..]);
    bytes[EVENTS_AT..STATUS_AT].copy_from_slice(&count.to_be_bytes()[4..]);
    bytes[STATUS_AT] = status;
    bytes
}

fn stop_fault(stop: Option<Fault>) -> Fault
    ensures { (z : runs.Stop) → stop ≡ stop_value z → fault_of result ≡ stop_fault z }
{
    match stop {
        None => bare_fault(0),
        Some(fault) => fault,
    }
}

fn traced_bytes(report: Report) -> [u8; REPORT_SIZE]
    ensures { (x : runs.Report) → report ≡ report_value x → result ≡ report_bytes x }
{
    match report {
        Ok(run) => report_bytes(stop_fault(run.stop), run.judged, run.events, run.status),
        Err(fault) => report_bytes(fault, 0, 0, 0),
    }
}

// A policy and its trace from one field.
fn run_trace(
    given: &[u8],
    state: &mut [u8],
    events: &mut [u8],
    steps: &mut [u32; STEP_COUNTS],
    actions: &mut [u32; ACTION_COUNTS],
) -> Report
    ensures { Told (trace_of given.now state.old events.old steps.old actions.old)
        result state.new events.new steps.new actions.new }
{
    let end = policy_part(given);
    follow_trace(&given[..end], &given[end..], state, events, steps, actions)
}

// Makes the run on copies of its two buffers, which are left at the start of `state` and of `events`.
pub fn trace_answer(
    batch: &[u8],
    parts: Parts,
    state: &mut [u8],
    events: &mut [u8],
    steps: &mut [u32; STEP_COUNTS],
    actions: &mut [u32; ACTION_COUNTS],
) -> [u8; REPORT_SIZE]
    requires { Placed batch.now parts × (longest_field ≤ length state.old) × (longest_field ≤ length events.old) }
    ensures { Traced (trace_called batch.now steps.old actions.old) result
        (take (parts.state - (parts.policy + 2)) state.new)
        (take (parts.events - (parts.state + 2)) events.new)
        steps.new actions.new }
{
    let of_state = load(batch, parts.policy + LENGTH_SIZE, parts.state, state);
    let of_events = load(batch, parts.state + LENGTH_SIZE, parts.events, events);
    let report = run_trace(
        &batch[POLICY_AT..parts.policy],
        &mut state[..of_state],
        &mut events[..of_events],
        steps,
        actions,
    );
    traced_bytes(report)
}

// A count, its highest byte first.
pub fn count_bytes(count: u32) -> [u8; COUNT_SIZE]
    ensures { result ≡ spell 4 count }
{
    count.to_be_bytes()
}
