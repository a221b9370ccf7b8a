// guardcheck: reads a policy file on standard input and prints the root's two sets and its spread, or the check's refusal. Proved is the text (`tell`):
// it is what `specs/Shown` says of the file. That the bytes read are the reader's next ones is what `fill` of run_input says. Not proved: that
// standard input is such a reader, and that the text handed to `write` comes out. A read that fails counts as the end of the input.
#![tactic(auto)]

ghost use Rattle.std.specs.Prelude.{◌≡◌, ◌+◌, ◌≤◌, length};
ghost use Rattle.spec_policy.specs.Records.{most_file};
ghost use Rattle.spec_policy.specs.Tree.{tree};
ghost use Rattle.spec_check.specs.Spread.{spread};
ghost use Rattle.spec_check.specs.Passed.{Passed};
ghost use Rattle.text_append.specs.Added.{Added, Tells};
ghost use Rattle.guardcheck.specs.Shown.{set_line, passed_text, shown, text_room};

use actions::ActionSet;
use check_layout::counted::Counted;
use check_leaves::walk_leaves;
use check_policy::{Sets, check};
use check_spread::root_spread;
use faults::Refusal;
use file_records::{MOST_FILE, MOST_NODES, nodes_of, steps_of};
use run_input::read_full;
use std::io;
use std::io::Write;
use text_append::{append, append_number, append_set, refuse};

// The root's spread. The leaves are walked through once more for their inserts, and no walk is refused: the check's answer has no spread, and here nobody
// waits.
fn spread_of(policy: &[u8]) -> u32
    requires { Passed policy.now }
    ensures { result ≡ spread (tree policy.now) }
{
    let file = Counted {
        policy,
        n: nodes_of(policy),
        m: steps_of(policy),
    };
    let mut effects = [0u64; MOST_NODES];
    let mut inserts = [0u32; MOST_NODES];
    walk_leaves(file, &mut effects, &mut inserts).unwrap();
    root_spread(file, &mut inserts)
}

// A line: a name, and a set.
fn append_named(out: &mut [u8], at: usize, name: &[u8], set: ActionSet) -> usize
    ensures { Added out.old at (set_line name.now set.bits) out.new result }
{
    let named = append(out, at, name);
    let end = append_set(out, named, set);
    append(out, end, b"\n")
}

fn tell_passed(out: &mut [u8], sets: Sets, spread: u32) -> usize
    ensures { Added out.old 0 (passed_text sets.regulated.bits sets.effects.bits spread) out.new result }
{
    let first = append_named(out, 0, b"regulated", sets.regulated);
    let second = append_named(out, first, b"effects", sets.effects);
    let third = append(out, second, b"spread ");
    let end = append_number(out, third, u64::from(spread));
    append(out, end, b"\n")
}

// Puts what is printed of the input into the room, which is long enough.
fn tell(input: &[u8], room: &mut [u8]) -> usize
    requires { text_room ≤ length room.old }
    ensures { Tells room.new result (shown input.now) }
{
    if input.len() > MOST_FILE {
        return refuse(room, 0, Refusal::Length.bare());
    }
    match check(input) {
        Ok(sets) => tell_passed(room, sets, spread_of(input)),
        Err(fault) => refuse(room, 0, fault),
    }
}

// One byte more than the longest policy: where all of it is used, the input is none.
fn input_room() -> [u8; MOST_FILE + 1]
    ensures { most_file + 1 ≡ length result }
{
    [0; MOST_FILE + 1]
}

const TEXT_ROOM: usize = 512;

fn main(rt: HostRuntime) -> io::Result<()> {
    let mut input = input_room();
    let mut room = [0u8; TEXT_ROOM];
    let end = read_full(&mut rt.stdin(), &mut input);
    let told = tell(&input[..end], &mut room);
    rt.stdout().write_all(&room[..told])
}
