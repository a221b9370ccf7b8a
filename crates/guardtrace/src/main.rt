// guardtrace: reads a policy and then its trace, a byte for each action, on standard input, and prints the tally of the run over it: how the run ended, how
// often each step ran, and what was made of each action. A policy has at most 6,646 bytes and a trace at most 1,048,576; a longer trace is told, and not
// run over its first part. Where 2,097,152 events do not suffice the run ends with 15. Proved is the text (`tell`): it is what `specs/Shown` says of the
// input. That the bytes read are the reader's next ones is what `fill` of run_input says. Not proved: that standard input is such a reader, and that the
// text handed to `write` comes out. A read that fails counts as the end of the input.
#![tactic(auto)]

ghost use Rattle.std.specs.Prelude.{◌≡◌, ◌≤◌, length, replicate};
ghost use Rattle.text_append.specs.Added.{Tells};
ghost use Rattle.guardtrace.specs.Shown.{ran, input_room, event_bytes, text_room, shown};

use crate::report::tell_report;
use file_records::MOST_FILE;
use run_input::{policy_part, read_full};
use std::io;
use std::io::Write;
use text_append::append;
use trace_events::ACTION_COUNTS;
use trace_run::follow_trace;
use turn_state::STATE_SIZE;
use turn_tally::STEP_COUNTS;

mod report;

const MOST_TRACE: usize = 1048576;

// Runs the policy over the trace: the state and the tally begin as zeros.
fn tell_run(policy: &[u8], trace: &[u8], events: &mut [u8], room: &mut [u8]) -> usize
    requires { text_room ≤ length room.old }
    ensures { Tells room.new result (ran events.old policy.now trace.now) }
{
    let mut state = [0u8; STATE_SIZE];
    let mut steps = [0u32; STEP_COUNTS];
    let mut actions = [0u32; ACTION_COUNTS];
    let report = follow_trace(policy, trace, &mut state, events, &mut steps, &mut actions);
    tell_report(room, policy, report, &steps, &actions)
}

// Puts what is printed of the input into the room.
fn tell(input: &[u8], events: &mut [u8], room: &mut [u8]) -> usize
    requires { (events.old ≡ replicate event_bytes 0) × (text_room ≤ length room.old) }
    ensures { Tells room.new result (shown input.now) }
{
    let end = policy_part(input);
    if input.len() - end > MOST_TRACE {
        return append(room, 0, b"a trace of at most 1048576 actions\n");
    }
    tell_run(&input[..end], &input[end..], events, room)
}

// One byte more than the longest policy and the longest trace have together: by it a trace that is too long is seen.
const INPUT_ROOM: usize = MOST_FILE + MOST_TRACE + 1;

fn input_room() -> [u8; INPUT_ROOM]
    ensures { result ≡ replicate input_room 0 }
{
    [0; INPUT_ROOM]
}

const EVENT_BYTES: usize = 4194304;

fn event_room() -> [u8; EVENT_BYTES]
    ensures { result ≡ replicate event_bytes 0 }
{
    [0; EVENT_BYTES]
}

const TEXT_ROOM: usize = 147456;

fn text_room() -> [u8; TEXT_ROOM]
    ensures { result ≡ replicate text_room 0 }
{
    [0; TEXT_ROOM]
}

fn main(rt: HostRuntime) -> io::Result<()> {
    let mut input = input_room();
    let mut events = event_room();
    let mut room = text_room();
    let end = read_full(&mut rt.stdin(), &mut input);
    let told = tell(&input[..end], &mut events, &mut room);
    rt.stdout().write_all(&room[..told])
}
