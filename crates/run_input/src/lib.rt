// What the programs read: bytes up to the room's end or the input's, and where the policy ends in what guardrun and guardtrace read, a policy and
// then actions.
#![tactic(auto)]

ghost use Rattle.std.specs.Prelude.{◌≡◌, ◌≤◌, ◌<◌, length, take, OnOk};
ghost use Rattle.std.specs.Io.KnownBytes.{Consumes, IsAtEnd};
ghost use Rattle.spec_policy.specs.Bytes.{number};
ghost use Rattle.spec_policy.specs.Records.{most_file};
ghost use Rattle.run_input.specs.Ends.{policy_end, policy_part};

use file_records::{MOST_FILE, word16};
use std::io;
use std::io::Read;

// Reads until the room is full, the input ends or a read fails. It answers how many bytes it put at the start of the room, and the failure, if one
// ended it: these bytes are the input's next, and where no read failed there are fewer than the room has only where the input has ended.
pub fn fill<R: Read>(input: &mut R, room: &mut [u8]) -> (usize, io::Result<()>)
    ensures bound { result.0 ≤ length room.new }
    ensures next { Consumes (R.remaining input.old) (R.remaining input.new) (take result.0 room.new) }
    ensures end { OnOk result.1 (result.0 < length room.new → IsAtEnd (R.remaining input.new)) }
{
    let mut done = 0;
    while done < room.len() {
        match input.read(&mut room[done..]) {
            Ok(0) => return (done, Ok(())),
            Ok(n) => done += n,
            Err(failure) => return (done, Err(failure)),
        }
    }
    (done, Ok(()))
}

// The same where a read that fails counts as the end of the input: how many bytes there are.
pub fn read_full<R: Read>(input: &mut R, room: &mut [u8]) -> usize
    ensures bound { result ≤ length room.new }
    ensures next { Consumes (R.remaining input.old) (R.remaining input.new) (take result room.new) }
{
    fill(input, room).0
}

// The bytes that say how long the policy is.
const LENGTH_SIZE: usize = 2;

// "the first two bytes say how many bytes, at most 6,646 taken": where the policy ends, the two bytes with it.
pub fn policy_end(policy: &[u8]) -> usize
    requires { 2 ≤ length policy.now }
    ensures { (result ≡ policy_end (number policy.now 0 2)) × (2 ≤ result) × (result ≤ most_file) }
{
    let said = word16(policy, 0) as usize;
    said.clamp(LENGTH_SIZE, MOST_FILE)
}

// How many bytes of what is read are the policy's: fewer than two are all of them.
pub fn policy_part(input: &[u8]) -> usize
    ensures { result ≡ policy_part input.now }
{
    if input.len() < LENGTH_SIZE {
        input.len()
    } else {
        policy_end(input).min(input.len())
    }
}
