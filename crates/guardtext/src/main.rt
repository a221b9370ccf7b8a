// guardtext: reads a policy file on standard input and prints its text. Of a file that the check refuses it prints the refusal and, wherever rules 1
// to 3 let it be read, its records. Proved is the text (`tell`): it is what `specs/Shown` says of the file. That the bytes read are the reader's
// next ones is what `fill` of run_input says. Not proved: that standard input is such a reader, and that the text handed to `write` comes out. A read
// that fails counts as the end of the input.
#![tactic(auto)]

ghost use Rattle.std.specs.Prelude.{◌≡◌, ◌+◌, ◌≤◌, length};
ghost use Rattle.spec_policy.specs.Records.{most_file, node_bytes, step_bytes};
ghost use Rattle.spec_check.specs.Layout.{CountsFit};
ghost use Rattle.spec_check.specs.Check.{refused, check};
ghost use Rattle.faults.specs.Meaning.{fault_of};
ghost use Rattle.text_append.specs.Added.{Added, Tells};
ghost use Rattle.guardtext.specs.Shown.{text_room, records_text, heading, refused_text, shown};

use check_policy::check;
use faults::{Fault, Refusal};
use file_records::{FRONT_SIZE, MOST_FILE, node_place, nodes_of};
use run_input::read_full;
use std::io;
use std::io::Write;
use text_append::{append, refuse};
use text_print::print;
use text_spot::append_fault;

// The node records and the step records: they lie one after another behind the front.
fn records(policy: &[u8]) -> (&[u8], &[u8])
    requires { CountsFit policy.now }
    ensures nodes { result.0.now ≡ node_bytes policy.now }
    ensures steps { result.1.now ≡ step_bytes policy.now }
{
    let end = node_place(nodes_of(policy));
    (&policy[FRONT_SIZE..end], &policy[end..])
}

fn print_records(out: &mut [u8], at: usize, policy: &[u8]) -> usize
    requires { CountsFit policy.now }
    ensures { Added out.old at (records_text policy.now) out.new result }
{
    let (nodes, steps) = records(policy);
    print(out, at, nodes, steps)
}

// The refusal, and its record in words, in a remark.
fn head(out: &mut [u8], nodes: &[u8], fault: Fault) -> usize
    ensures { Added out.old 0 (heading nodes.now (fault_of fault)) out.new result }
{
    let begun = append(out, 0, b"# ");
    let end = append_fault(out, begun, nodes, fault);
    append(out, end, b"\n")
}

// The first rule that is about records.
const FIRST_OF_RECORDS: u8 = Refusal::Fields as u8;

fn tell_refused(out: &mut [u8], policy: &[u8], fault: Fault) -> usize
    requires { check policy.now ≡ refused (fault_of fault) }
    ensures { Added out.old 0 (refused_text policy.now (fault_of fault)) out.new result }
{
    if fault.number < FIRST_OF_RECORDS {
        return refuse(out, 0, fault);
    }
    let (nodes, steps) = records(policy);
    let headed = head(out, nodes, fault);
    print(out, headed, nodes, steps)
}

// Puts what is printed of the input into the room, which is long enough.
fn tell(input: &[u8], room: &mut [u8]) -> usize
    requires { text_room ≤ length room.old }
    ensures { Tells room.new result (shown input.now) }
{
    if input.len() > MOST_FILE {
        return refuse(room, 0, Refusal::Length.bare());
    }
    match check(input) {
        Ok(_) => print_records(room, 0, input),
        Err(fault) => tell_refused(room, input, fault),
    }
}

// One byte more than the longest policy: where all of it is used, the input is none.
fn input_room() -> [u8; MOST_FILE + 1]
    ensures { most_file + 1 ≡ length result }
{
    [0; MOST_FILE + 1]
}

const TEXT_ROOM: usize = 128 * 1024;

fn text_room() -> [u8; TEXT_ROOM]
    ensures { text_room ≡ length result }
{
    [0; TEXT_ROOM]
}

fn main(rt: HostRuntime) -> io::Result<()> {
    let mut input = input_room();
    let mut room = text_room();
    let end = read_full(&mut rt.stdin(), &mut input);
    let told = tell(&input[..end], &mut room);
    rt.stdout().write_all(&room[..told])
}
