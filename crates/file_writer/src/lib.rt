// The writer: a policy file from the records of its nodes and steps, laid into the caller's output once the check passes it.
#![tactic(auto)]

ghost use Rattle.std.specs.Prelude.{◌≡◌, ◌+◌, ◌≤◌, ◌∷◌, ◌++◌, length};
ghost use Rattle.spec_policy.specs.Bytes.{spell, put};
ghost use Rattle.spec_check.specs.Check.{check};
ghost use Rattle.check_policy.specs.Answers.{answered};
ghost use Rattle.spec_writer.specs.Writing.{written, writes};
ghost use Rattle.spec_writer.specs.Lent.{lendable, Lent};
ghost use Rattle.file_writer.specs.Replies.{Gave};
ghost use Rattle.spec_policy.specs.Records.{most_file};

use check_policy::{Checked, check, refusal};
use faults::{Fault, Refusal};
use file_records::{FRONT_SIZE, MOST_FILE, MOST_NODES, MOST_STEPS, NODE_SIZE, STEP_SIZE, VERSION};

// The length of the file, or a refusal. Its record is one of the file that would be written.
pub type Written = Result<u16, Fault>;

// Whether the buffers hold whole records, and as many as a file may have.
fn lendable(nodes: &[u8], steps: &[u8]) -> bool
    ensures { result ≡ lendable nodes.now steps.now }
{
    let n = nodes.len() / NODE_SIZE;
    let m = steps.len() / STEP_SIZE;
    (nodes.len() % NODE_SIZE == 0)
        & (steps.len() % STEP_SIZE == 0)
        & ((1 <= n) & (n <= MOST_NODES) & (m <= MOST_STEPS))
}

// The front: length, version and the two counts.
fn front(length: u16, n: u8, m: u16) -> [u8; FRONT_SIZE]
    ensures { result ≡ spell 2 length ++ (1 ∷ n ∷ spell 2 m) }
{
    let [length_high, length_low] = length.to_be_bytes();
    let [m_high, m_low] = m.to_be_bytes();
    [length_high, length_low, VERSION, n, m_high, m_low]
}

// Copies bytes over others from a place on.
fn copy_at(from: &[u8], at: usize, to: &mut [u8])
    requires { at + length from.now ≤ length to.old }
    ensures { to.new ≡ put to.old at from.now }
{
    to[at..at + from.len()].copy_from_slice(from);
}

// How long the file is.
fn size(nodes: &[u8], steps: &[u8]) -> usize
    requires { Lent nodes.now steps.now }
    ensures { (result ≡ length (written nodes.now steps.now)) × (result ≤ most_file) }
{
    FRONT_SIZE + nodes.len() + steps.len()
}

// Lays the file at the start of `out`.
fn lay(nodes: &[u8], steps: &[u8], out: &mut [u8])
    requires { Lent nodes.now steps.now × (length (written nodes.now steps.now) ≤ length out.old) }
    ensures { out.new ≡ put out.old 0 (written nodes.now steps.now) }
{
    let n = nodes.len() / NODE_SIZE;
    let m = steps.len() / STEP_SIZE;
    let length = size(nodes, steps);
    copy_at(&front(length as u16, n as u8, m as u16), 0, out);
    copy_at(nodes, FRONT_SIZE, out);
    copy_at(steps, FRONT_SIZE + nodes.len(), out);
}

// What the check answers of the file, which is laid in a scratch buffer: a refusal leaves the caller's output alone.
fn check_laid(nodes: &[u8], steps: &[u8]) -> Checked
    requires { Lent nodes.now steps.now }
    ensures { answered result ≡ check (written nodes.now steps.now) }
{
    let mut file = [0u8; MOST_FILE];
    let length = size(nodes, steps);
    lay(nodes, steps, &mut file);
    check(&file[..length])
}

// Writes the file to the start of `out`.
pub fn write(nodes: &[u8], steps: &[u8], out: &mut [u8]) -> Written
    ensures { Gave (writes nodes.now steps.now out.old) result out.new }
{
    if !lendable(nodes, steps) {
        return Err(Refusal::Counts.bare());
    }
    let checked = check_laid(nodes, steps);
    let Ok(_) = checked else {
        return Err(refusal(checked));
    };
    let length = size(nodes, steps);
    if out.len() < length {
        return Err(Refusal::Room.bare());
    }
    lay(nodes, steps, out);
    Ok(length as u16)
}
