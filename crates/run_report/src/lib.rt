// What guardrun prints of each call's answer, put into a lent buffer.
#![tactic(auto)]

ghost use Rattle.std.specs.Prelude.{◌≡◌, ◌*◌, ◌≤◌, length};
ghost use Rattle.spec_policy.specs.Bytes.{Bytes};
ghost use Rattle.spec_turns.specs.Status.{status_of};
ghost use Rattle.spec_turns.specs.Entries.{answers, refuses};
ghost use Rattle.spec_text.specs.Numerals.{decimal};
ghost use Rattle.text_append.specs.Added.{Added};
ghost use Rattle.text_append.specs.Refusal.{refusal};
ghost use Rattle.call_answer.specs.Requests.{asked};
ghost use Rattle.faults.specs.Meaning.{fault_of};
ghost use Rattle.run_report.specs.Lines.{line, word, kind, lines};
ghost use Rattle.run_report.specs.Said.{heading, ending, is_last, last_if_refused, said};
ghost use Rattle.run_report.specs.Speaks.{text_room, Speaks};

use call_answer::Call;
use faults::Fault;
use text_append::{append, append_number, refuse};
use turn_state::{ENDED, ENDED_LEFT, ENDED_RIGHT, HALTED, RUNNING, is_halted};
use turn_told::{EVENT_ACCEPTED, EVENT_SUPPRESSED};

// Where the text ends, and whether it is the run's last.
#[derive(Clone, Copy)]
pub struct Told {
    pub end: usize,
    pub over: bool,
}

// ---- lines

// "S is running, ended, left, right or halted"; the root is never dropped
#[tactic(auto, unfolding(crate::specs::Lines::word, spec_turns::specs::Status::status_of, spec_text::specs::Words::ascii))]
pub fn append_status(out: &mut [u8], at: usize, s: u8) -> usize
    ensures { Added out.old at (word (status_of s)) out.new result }
{
    match s {
        RUNNING => append(out, at, b"running"),
        ENDED => append(out, at, b"ended"),
        ENDED_LEFT => append(out, at, b"left"),
        ENDED_RIGHT => append(out, at, b"right"),
        HALTED => append(out, at, b"halted"),
        _ => append(out, at, b"dropped"),
    }
}

fn append_line(out: &mut [u8], at: usize, what: &[u8], s: u8) -> usize
    ensures { Added out.old at (line what.now (word (status_of s))) out.new result }
{
    let named = append(out, at, what);
    let end = append_status(out, named, s);
    append(out, end, b"\n")
}

// "`acc a`, `sup a` or `ins a`"
#[tactic(auto, unfolding(crate::specs::Lines::kind, spec_text::specs::Words::ascii))]
fn kind(k: u8) -> [u8; 4]
    ensures { result ≡ kind k }
{
    match k {
        EVENT_ACCEPTED => *b"acc ",
        EVENT_SUPPRESSED => *b"sup ",
        _ => *b"ins ",
    }
}

fn append_event(out: &mut [u8], at: usize, k: u8, a: u8) -> usize
    ensures { Added out.old at (line (kind k) (decimal a)) out.new result }
{
    let named = append(out, at, &kind(k));
    let end = append_number(out, named, u64::from(a));
    append(out, end, b"\n")
}

// "a line .. per event"
fn append_events(out: &mut [u8], at: usize, events: &[u8], count: usize) -> usize
    requires { 2 * count ≤ length events.now }
    ensures { Added out.old at (lines count events.now) out.new result }
{
    let mut end = at;
    for i in 0..count {
        end = append_event(out, end, events[2 * i], events[2 * i + 1]);
    }
    end
}

// ---- calls

// "On a halt it stops reading and prints `close halted`."
#[tactic(auto, unfolding(call_answer::specs::Requests::asked, crate::specs::Said::is_last))]
fn is_last(request: Call, s: u8) -> bool
    ensures { result ≡ is_last (asked request) (status_of s) }
{
    match request {
        Call::Open | Call::Offer(_) => is_halted(s),
        Call::Close => true,
    }
}

// "A refused policy prints only `refused N`; a refused action prints that line and goes on."
#[tactic(auto, unfolding(call_answer::specs::Requests::asked, crate::specs::Said::last_if_refused))]
fn last_if_refused(request: Call) -> bool
    ensures { result ≡ last_if_refused (asked request) }
{
    !matches!(request, Call::Offer(_))
}

// "those of opening after the open line"
fn begin(out: &mut [u8], request: Call, s: u8) -> usize
    ensures { Added out.old 0 (heading (asked request) (status_of s)) out.new result }
{
    match request {
        Call::Open => append_line(out, 0, b"open ", s),
        Call::Offer(_) | Call::Close => 0,
    }
}

// "those of closing before the close line"
fn finish(out: &mut [u8], at: usize, last: bool, s: u8) -> usize
    ensures { Added out.old at (ending last (status_of s)) out.new result }
{
    if last {
        append_line(out, at, b"close ", s)
    } else {
        at
    }
}

pub fn answered(out: &mut [u8], events: &[u8], request: Call, count: usize, s: u8) -> Told
    requires { (2 * count ≤ length events.now) × (count ≤ 256) }
    ensures { Speaks (said (asked request) (answers count (status_of s)) events.now) out.old out.new result }
{
    let first = begin(out, request, s);
    let end = append_events(out, first, events, count);
    let over = is_last(request, s);
    Told {
        end: finish(out, end, over, s),
        over,
    }
}

// How long the text is, the caller knows: a refusal's number and its record's are small.
#[tactic(auto, unfolding(crate::specs::Said::said), using(crate::proofs::SpokenLaws::alone))]
pub fn refused(out: &mut [u8], request: Call, fault: Fault) -> Told
    ensures { (room : Bytes) → length (refusal (fault_of fault)) ≤ text_room
        → Speaks (said (asked request) (refuses (fault_of fault)) room) out.old out.new result }
{
    Told {
        end: refuse(out, 0, fault),
        over: last_if_refused(request),
    }
}
