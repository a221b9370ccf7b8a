// What is told of a text, put at the start of a lent buffer.
ghost use Rattle.std.specs.Prelude.{◌≡◌, ◌≤◌, ◌<◌, length};
ghost use Rattle.spec_text.specs.Reading.{read_text};
ghost use Rattle.spec_text.specs.Where.{fault_says, spot_line};
ghost use Rattle.spec_writer.specs.Writing.{writes};
ghost use Rattle.laws_check.specs.Offends.{SmallFault};
ghost use Rattle.faults.specs.Meaning.{spot_of, fault_of};
ghost use Rattle.text_append.specs.Added.{Tells};
ghost use Rattle.text_fault.specs.Expected.{line_says};
ghost use Rattle.guardwrite.specs.Said.{blamed, filed, answered, most_text, too_long, node_room, step_room, out_room, made};
ghost use Rattle.guardwrite.specs.Telling.{Telling};

use faults::{Fault, Refusal};
use file_records::{MOST_NODES, MOST_STEPS, NODE_SIZE, STEP_SIZE};
use file_writer::write;
use text_append::{append, refuse};
use text_fault::{bad_line, begin, line_count};
use text_read::{ReadError, read};
use text_spot::{append_fault, spot_line};

// How many bytes at the start of the buffer are the file, or the message.
#[derive(Clone, Copy)]
pub enum Told {
    File(usize),
    Message(usize),
}

// The line of the record that a refusal is about, and the refusal.
fn blame(text: &[u8], nodes: &[u8], fault: Fault, out: &mut [u8]) -> usize
    requires { SmallFault (fault_of fault) × (out_room ≤ length out.old) }
    ensures { Tells out.new result
        (line_says (spot_line text.now nodes.now (fault_of fault)) (fault_says nodes.now (fault_of fault))) }
{
    let line = spot_line(text, nodes, fault);
    let begun = begin(line, out);
    let said = append_fault(out, begun, nodes, fault);
    append(out, said, b"\n")
}

fn refused(text: &[u8], nodes: &[u8], fault: Fault, out: &mut [u8]) -> usize
    requires { SmallFault (fault_of fault) × (out_room ≤ length out.old) }
    ensures { Tells out.new result (blamed (spot_of fault.spot) text.now nodes.now (fault_of fault)) }
{
    match fault.spot {
        None => refuse(out, 0, fault),
        Some(_) => blame(text, nodes, fault, out),
    }
}

// The file of the records, or the writer's refusal.
fn file(text: &[u8], nodes: &[u8], steps: &[u8], out: &mut [u8]) -> Told
    requires { out_room ≤ length out.old }
    ensures { Telling out.new result
        (filed text.now nodes.now (writes nodes.now steps.now out.old)) }
{
    match write(nodes, steps, out) {
        Ok(length) => Told::File(usize::from(length)),
        Err(fault) => Told::Message(refused(text, nodes, fault, out)),
    }
}

pub const MOST_TEXT: usize = 262144;

// A function, since a proof is slow where it meets the number in the place of a slice's end.
fn most_text() -> usize
    ensures { result ≡ most_text }
{
    MOST_TEXT
}

fn too_long(text: &[u8], out: &mut [u8]) -> usize
    requires { (most_text < length text.now) × (out_room ≤ length out.old) }
    ensures { Tells out.new result (too_long text.now) }
{
    let most = most_text();
    let n = line_count(&text[..most]);
    let begun = begin(n, out);
    let said = append(out, begun, b"a text of at most 262144 bytes");
    append(out, said, b"\n")
}

// Reads the text into the two buffers, and tells what became of it.
fn fill(text: &[u8], nodes: &mut [u8], steps: &mut [u8], out: &mut [u8]) -> Told
    requires { (node_room ≡ length nodes.old) × (step_room ≡ length steps.old) × (out_room ≤ length out.old) }
    ensures { Telling out.new result (answered out.old text.now (read_text text.now)) }
{
    match read(text, nodes, steps) {
        Ok(found) => file(
            text,
            &nodes[..NODE_SIZE * found.nodes],
            &steps[..STEP_SIZE * found.steps],
            out,
        ),
        Err(error) => match error {
            ReadError::BadLine(line) => Told::Message(bad_line(text, line, out)),
            ReadError::Short => Told::Message(refuse(out, 0, Refusal::Counts.bare())),
        },
    }
}

// Room for one node and one step more than a file may have: what does not fit is what the writer refuses with 3.
fn node_room() -> [u8; NODE_SIZE * (MOST_NODES + 1)]
    ensures { node_room ≡ length result }
{
    [0; NODE_SIZE * (MOST_NODES + 1)]
}

fn step_room() -> [u8; STEP_SIZE * (MOST_STEPS + 1)]
    ensures { step_room ≡ length result }
{
    [0; STEP_SIZE * (MOST_STEPS + 1)]
}

// All that is told of the text.
pub fn tell(text: &[u8], out: &mut [u8]) -> Told
    requires { out_room ≤ length out.old }
    ensures { Telling out.new result (made text.now) }
{
    if text.len() > most_text() {
        return Told::Message(too_long(text, out));
    }
    let mut nodes = node_room();
    let mut steps = step_room();
    fill(text, &mut nodes, &mut steps, out)
}
