// guardrun: reads a policy and then actions, a byte each, on standard input, and prints what the guard answers. Proved is the text of each
// call (`tell`): it is what `said` says of the definition's result. That the bytes read are the reader's next ones is what `fill` of
// run_input says. Not proved: that standard input is such a reader, and that the texts handed to `write` come out, in their order. A read
// that fails counts as the end of the input; a write that fails ends the run.
#![tactic(auto)]

ghost use Rattle.std.specs.Prelude.{◌≡◌, true, false, ◌≤◌, length};
ghost use Rattle.spec_policy.specs.Bytes.{number};
ghost use Rattle.spec_policy.specs.Records.{most_file};
ghost use Rattle.run_input.specs.Ends.{policy_end};

use crate::calls::tell;
use call_answer::Call;
use file_records::MOST_FILE;
use run_input::{policy_end, read_full};
use run_report::Told;
use std::io::{Read, Write};
use turn_state::STATE_SIZE;
use turn_told::EVENT_ROOM;

mod calls;

// Reads the policy, and no byte after it; answers how many bytes there were.
fn read_policy<R: Read>(input: &mut R, policy: &mut [u8]) -> usize
    requires { most_file ≤ length policy.old }
    ensures { (result ≤ policy_end (number policy.new 0 2)) × (result ≤ most_file) }
{
    let front = read_full(input, &mut policy[..2]);
    if front < 2 {
        return front;
    }
    let end = policy_end(policy);
    2 + read_full(input, &mut policy[2..end])
}

// Writes the text, and says whether the run goes on: never after its last text.
fn say<W: Write>(out: &mut W, text: &[u8], told: Told) -> bool
    requires { told.end ≤ length text.now }
    ensures { told.over ≡ true → result ≡ false }
{
    let written = out.write_all(&text[..told.end]).is_ok();
    written && !told.over
}

// The next byte's action; closing where the input has ended.
fn next<R: Read>(input: &mut R) -> Call {
    let mut action = [0u8; 1];
    if read_full(input, &mut action) == 1 {
        Call::Offer(action[0])
    } else {
        Call::Close
    }
}

// Room for a call's text, of which none has more than 2,075 bytes.
const TEXT_ROOM: usize = 4096;

// A proved loop has to end, and nothing says that the input does: the loop counts to a number that no run comes to.
fn run<R: Read, W: Write>(input: &mut R, out: &mut W, policy: &[u8]) {
    let mut state = [0u8; STATE_SIZE];
    let mut events = [0u8; EVENT_ROOM];
    let mut text = [0u8; TEXT_ROOM];
    let mut request = Call::Open;
    for _ in 0..u64::MAX {
        let told = tell(policy, &mut state, &mut events, &mut text, request);
        if !say(out, &text, told) {
            return;
        }
        request = next(input);
    }
}

// Room for the longest policy.
fn room() -> [u8; MOST_FILE]
    ensures { most_file ≡ length result }
{
    [0; MOST_FILE]
}

fn main(rt: HostRuntime) {
    let mut input = rt.stdin();
    let mut out = rt.stdout();
    let mut policy = room();
    let end = read_policy(&mut input, &mut policy);
    run(&mut input, &mut out, &policy[..end]);
}
