// Reads a batch of calls on standard input and writes their answers on standard output, both in bytes, to be compared with another
// guard's. What can be said of bytes is said in `calls` and `answers`; what is here only reads and writes.
#![tactic(auto)]

ghost use Rattle.std.specs.Prelude.{◌≡◌, ◌≤◌, ◌<◌, length};
ghost use Rattle.trials.specs.Runs.{tally_start};
ghost use Rattle.trials.specs.Calls.{longest, longest_field, Placed, Taken};

use crate::answers::{call_answer, count_bytes, file_answer, policy_answer, trace_answer};
use crate::calls::{CHECK, CLOSE, Call, LENGTH_SIZE, OPEN, POLICY_AT, Parts, TRACE, WRITE, find};
use run_input::read_full;
use std::io::{Read, Write};
use trace_events::ACTION_COUNTS;
use turn_tally::STEP_COUNTS;

mod answers;
mod calls;

// The longest field is as long as its length's two bytes can say. A call has three fields, and the action behind them.
const LONGEST_FIELD: usize = 65535;

const LONGEST_CALL: usize = POLICY_AT + 3 * LONGEST_FIELD + 2 * LENGTH_SIZE + 1;

// Room for the longest call.
fn room() -> [u8; LONGEST_CALL]
    ensures { longest ≡ length result }
{
    [0; LONGEST_CALL]
}

// Reads the next call to the start of batch, and no byte after it. Short: the input has ended.
#[tactic(auto, unfolding(crate::specs::Calls::Found, crate::specs::Calls::Taken))]
fn read_call<R: Read>(input: &mut R, batch: &mut [u8]) -> Call
    requires { longest ≤ length batch.old }
    ensures { Taken batch.new result }
{
    let mut have = 0;
    loop {
        match find(batch, have) {
            Ok(parts) => return Ok(parts),
            Err(short) => {
                if read_full(input, &mut batch[have..short.wanted]) != short.wanted - have {
                    return Err(short);
                }
                have = short.wanted;
            }
        }
    }
}

// Makes the call and writes its answer, and says whether that was written.
fn write_call<W: Write>(
    out: &mut W,
    batch: &[u8],
    parts: Parts,
    state: &mut [u8],
    events: &mut [u8],
) -> bool
    requires { Placed batch.now parts × (longest_field ≤ length state.old) × (longest_field ≤ length events.old) }
{
    let of_state = parts.state - (parts.policy + LENGTH_SIZE);
    let of_events = parts.events - (parts.state + LENGTH_SIZE);
    let bytes = call_answer(batch, parts, state, events);
    let reply = out.write_all(&bytes).is_ok();
    let saved = out.write_all(&state[..of_state]).is_ok();
    let told = out.write_all(&events[..of_events]).is_ok();
    reply & saved & told
}

// The same of a call of the writer.
fn write_file<W: Write>(out: &mut W, batch: &[u8], parts: Parts, room: &mut [u8]) -> bool
    requires { Placed batch.now parts × (longest_field ≤ length room.old) }
{
    let of_out = parts.events - (parts.state + LENGTH_SIZE);
    let bytes = file_answer(batch, parts, room);
    let reply = out.write_all(&bytes).is_ok();
    let told = out.write_all(&room[..of_out]).is_ok();
    reply & told
}

// Where all counts of a tally begin.
fn tally_start(action: u8) -> u32
    ensures { result ≡ tally_start action }
{
    if action == 0 {
        return 0;
    }
    u32::MAX - (action as u32 - 1)
}

// The counts of the tally: those of the steps first, then those of the actions.
fn write_tally<W: Write>(
    out: &mut W,
    steps: &[u32; STEP_COUNTS],
    actions: &[u32; ACTION_COUNTS],
) -> bool {
    let mut written = true;
    for count in steps.iter().chain(actions.iter()) {
        written &= out.write_all(&count_bytes(*count)).is_ok();
    }
    written
}

// The same of a trace run.
fn write_trace<W: Write>(
    out: &mut W,
    batch: &[u8],
    parts: Parts,
    state: &mut [u8],
    events: &mut [u8],
) -> bool
    requires { Placed batch.now parts × (longest_field ≤ length state.old) × (longest_field ≤ length events.old) }
{
    let of_state = parts.state - (parts.policy + LENGTH_SIZE);
    let of_events = parts.events - (parts.state + LENGTH_SIZE);
    let start = tally_start(parts.action);
    let mut steps = [start; STEP_COUNTS];
    let mut actions = [start; ACTION_COUNTS];
    let bytes = trace_answer(batch, parts, state, events, &mut steps, &mut actions);
    let report = out.write_all(&bytes).is_ok();
    let saved = out.write_all(&state[..of_state]).is_ok();
    let told = out.write_all(&events[..of_events]).is_ok();
    let tallied = write_tally(out, &steps, &actions);
    report & saved & told & tallied
}

// Writes the answer, and says whether there was one.
fn answer<W: Write>(
    out: &mut W,
    batch: &[u8],
    parts: Parts,
    state: &mut [u8],
    events: &mut [u8],
) -> bool
    requires { Placed batch.now parts × (longest_field ≤ length state.old) × (longest_field ≤ length events.old) }
{
    match parts.entry {
        CHECK => out.write_all(&policy_answer(batch, parts)).is_ok(),
        OPEN..=CLOSE => write_call(out, batch, parts, state, events),
        WRITE => write_file(out, batch, parts, events),
        TRACE => write_trace(out, batch, parts, state, events),
        _ => false,
    }
}

#[tactic(auto, unfolding(crate::specs::Calls::Taken))]
fn answer_next<R: Read, W: Write>(
    input: &mut R,
    out: &mut W,
    batch: &mut [u8],
    state: &mut [u8],
    events: &mut [u8],
) -> bool
    requires { (longest ≤ length batch.old) × (longest_field ≤ length state.old) × (longest_field ≤ length events.old) }
{
    match read_call(input, batch) {
        Ok(parts) => answer(out, batch, parts, state, events),
        Err(_) => false,
    }
}

// Room for the longest field, and a byte.
const FIELD_ROOM: usize = LONGEST_FIELD + 1;

// A proved loop has to end, and nothing says that the input does: the loop counts to a number that no run comes to.
fn main(rt: HostRuntime) {
    let mut input = rt.stdin();
    let mut out = rt.stdout();
    let mut batch = room();
    let mut state = [0u8; FIELD_ROOM];
    let mut events = [0u8; FIELD_ROOM];
    for _ in 0..u64::MAX {
        if !answer_next(&mut input, &mut out, &mut batch, &mut state, &mut events) {
            return;
        }
    }
}
