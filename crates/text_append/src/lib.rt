// Text put into a lent buffer, piece after piece. As much of it is written as there is room for, so on no room a text is measured.
#![tactic(auto)]

ghost use Rattle.std.specs.Prelude.{◌≡◌, [], ◌∷◌, ◌<◌};
ghost use Rattle.spec_text.specs.Numerals.{digit, decimal};
ghost use Rattle.spec_text.specs.Forms.{actions};
ghost use Rattle.spec_text.specs.Printing.{listing, spaced, argument};
ghost use Rattle.text_append.specs.Added.{moved, Added, led};
ghost use Rattle.text_append.specs.Refusal.{spot_words, refusal};
ghost use Rattle.faults.specs.Meaning.{spot_of, fault_of};

use actions::{ActionSet, LAST_ACTION};
use faults::Fault;

// No buffer is as long. A place further on is as good as this one.
const LIMIT: usize = 1 << 63;

fn reach(at: usize, more: usize) -> usize
    ensures { result ≡ moved at more }
{
    if more == 0 {
        at
    } else {
        at.saturating_add(more).min(LIMIT)
    }
}

// Puts the text at the place, and answers where it ends.
pub fn append(out: &mut [u8], at: usize, text: &[u8]) -> usize
    ensures { Added out.old at text.now out.new result }
{
    let end = reach(at, text.len());
    let room = out.len();
    if at < room {
        let part = text.len().min(room - at);
        out[at..at + part].copy_from_slice(&text[..part]);
    }
    end
}

fn append_digit(out: &mut [u8], at: usize, n: u64) -> usize
    requires { n < 10 }
    ensures { Added out.old at (digit n ∷ []) out.new result }
{
    append(out, at, &[b'0' + n as u8])
}

// The number in decimal, its first digits before its last.
pub fn append_number(out: &mut [u8], at: usize, n: u64) -> usize
    ensures { Added out.old at (decimal n) out.new result }
{
    if n < 10 {
        return append_digit(out, at, n);
    }
    let end = append_number(out, at, n / 10);
    append_digit(out, end, n % 10)
}

// The action, if it is in the set, after a space unless it is the first.
fn append_member(out: &mut [u8], at: usize, set: ActionSet, a: u8, first: bool) -> usize
    ensures { Added out.old at (led first (listing set.bits a 1)) out.new result }
{
    if set.has(a) {
        if first {
            append_number(out, at, u64::from(a))
        } else {
            let spaced = append(out, at, b" ");
            append_number(out, spaced, u64::from(a))
        }
    } else {
        at
    }
}

fn append_members(out: &mut [u8], at: usize, set: ActionSet) -> usize
    ensures { Added out.old at (spaced (listing set.bits 0 64)) out.new result }
{
    let mut end = at;
    let mut first = true;
    for a in 0..=LAST_ACTION {
        end = append_member(out, end, set, a, first);
        first &= !set.has(a);
    }
    end
}

// The set as a line says it, of whatever field.
pub fn append_set(out: &mut [u8], at: usize, set: ActionSet) -> usize
    ensures { Added out.old at (argument (actions 0) set.bits) out.new result }
{
    let opened = append(out, at, b" {");
    let end = append_members(out, opened, set);
    append(out, end, b"}")
}

// " at P", if there is a record.
fn append_spot(out: &mut [u8], at: usize, spot: Option<u16>) -> usize
    ensures { Added out.old at (spot_words (spot_of spot)) out.new result }
{
    match spot {
        None => at,
        Some(p) => {
            let named = append(out, at, b" at ");
            append_number(out, named, u64::from(p))
        }
    }
}

pub fn refuse(out: &mut [u8], at: usize, fault: Fault) -> usize
    ensures { Added out.old at (refusal (fault_of fault)) out.new result }
{
    let named = append(out, at, b"refused ");
    let numbered = append_number(out, named, u64::from(fault.number));
    let placed = append_spot(out, numbered, fault.spot);
    append(out, placed, b"\n")
}
