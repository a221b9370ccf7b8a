// A tally as text, put into a lent buffer: a policy's records, each step led by how often it ran, and the actions that have a count.
#![tactic(auto)]

ghost use Rattle.std.specs.Prelude.{ℕ, ◌≡◌, ◌≤◌, ◌<◌, get_or};
ghost use Rattle.spec_policy.specs.Bytes.{Bytes};
ghost use Rattle.spec_trace.specs.Counts.{most_count};
ghost use Rattle.spec_trace.specs.Tallies.{action_table};
ghost use Rattle.text_append.specs.Added.{Added};
ghost use Rattle.text_tally.specs.Lines.{ran_words, leads, numbered, action_says, action_line, action_lines, tally_text};

use actions::LAST_ACTION;
use text_append::{append, append_number};
use text_print::{Lead, record_lines};

// A count of the tally; past the last of them there is none.
fn count_at(counts: &[u32], i: usize) -> u64
    ensures { (result ≡ get_or counts.now i 0) × (result ≤ most_count) }
{
    counts.get(i).copied().map_or(0, u64::from)
}

// ---- steps

// What leads a step's line.
fn append_ran(out: &mut [u8], at: usize, count: u64) -> usize
    ensures { Added out.old at (ran_words count) out.new result }
{
    if count == 0 {
        append(out, at, b"never")
    } else {
        let told = append(out, at, b"ran ");
        append_number(out, told, count)
    }
}

// How often each step ran, by its number over the whole file.
#[derive(Clone, Copy)]
struct Ran<'a> {
    counts: &'a [u32],
}

impl<'a> Lead for Ran<'a> {
    ghost words = { λ ran. leads ran.counts.now };

    fn append_lead(&self, out: &mut [u8], at: usize, step: usize) -> usize {
        append_ran(out, at, count_at(self.counts, step))
    }
}

// ---- actions

// A number after its words.
pub fn append_numbered(out: &mut [u8], at: usize, what: &[u8], n: u64) -> usize
    ensures { Added out.old at (numbered what.now n) out.new result }
{
    let told = append(out, at, what);
    append_number(out, told, n)
}

fn say_action(
    out: &mut [u8],
    at: usize,
    a: usize,
    accepted: u64,
    suppressed: u64,
    inserted: u64,
) -> usize
    ensures { Added out.old at (action_says a accepted suppressed inserted) out.new result }
{
    let first = append_numbered(out, at, b"action ", a as u64);
    let second = append_numbered(out, first, b": accepted ", accepted);
    let third = append_numbered(out, second, b" suppressed ", suppressed);
    let end = append_numbered(out, third, b" inserted ", inserted);
    append(out, end, b"\n")
}

const ACTIONS: usize = LAST_ACTION as usize + 1;

fn action_line(out: &mut [u8], at: usize, counts: &[u32], a: usize) -> usize
    requires { a < action_table }
    ensures { Added out.old at (action_line counts.now a) out.new result }
{
    let accepted = count_at(counts, a);
    let suppressed = count_at(counts, ACTIONS + a);
    let inserted = count_at(counts, 2 * ACTIONS + a);
    if accepted + suppressed + inserted == 0 {
        at
    } else {
        say_action(out, at, a, accepted, suppressed, inserted)
    }
}

fn action_lines(out: &mut [u8], at: usize, counts: &[u32]) -> usize
    ensures { Added out.old at (action_lines action_table 0 counts.now) out.new result }
{
    let mut end = at;
    for a in 0..ACTIONS {
        end = action_line(out, end, counts, a);
    }
    end
}

// The records with how often each step ran, and the actions with what was made of them.
pub fn print_tally(
    out: &mut [u8],
    at: usize,
    nodes: &[u8],
    steps: &[u8],
    ran: &[u32],
    met: &[u32],
) -> usize
    ensures { Added out.old at
        (tally_text nodes.now steps.entry.now (record { steps = ran.now; actions = met.now })) out.new result }
{
    let told = record_lines(out, at, nodes, steps, &Ran { counts: ran });
    action_lines(out, told.end, met)
}
