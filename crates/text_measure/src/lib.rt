// A policy's text line by line: how many records it has, or the first line that cannot be read.
#![tactic(auto)]

ghost use Rattle.std.specs.Prelude.{◌≡◌, ℕ, ◌≤◌, ◌<◌, length};
ghost use Rattle.spec_text.specs.Forms.{Fields};
ghost use Rattle.spec_text.specs.Reading.{entry, read_text};
ghost use Rattle.text_forms.specs.Table.{form_count, node_forms, form_at};
ghost use Rattle.text_line.specs.Lines.{line_meant, InTable};
ghost use Rattle.text_measure.specs.Measures.{LineEnds, ReadsOn, Counted, sizes_read, measured};

use text_forms::forms::{NODE_FORMS, form_at};
use text_line::{Line, read_line};

pub const NEWLINE: u8 = b'\n';

// Where the line that begins at `at` ends.
pub fn line_end(text: &[u8], at: usize) -> usize
    requires { at ≤ length text.now }
    ensures { LineEnds text.now at result }
{
    for i in at..text.len() {
        if text[i] == NEWLINE {
            return i;
        }
    }
    text.len()
}

// The line at a place, and where the next one begins.
#[derive(Clone, Copy)]
pub struct At {
    pub line: Line,
    pub next: usize,
}

pub fn line_at(text: &[u8], at: usize) -> At
    requires { at < length text.now }
    ensures { ReadsOn text.now at result.line result.next }
{
    let end = line_end(text, at);
    At {
        line: read_line(&text[at..end]),
        next: (end + 1).min(text.len()),
    }
}

// ---- how many records there are

// How many steps may follow a line of this form, if it is a node's.
pub fn room_after(form: usize) -> usize
    requires { form < form_count }
    ensures { result ≡ (form_at form).room }
{
    usize::from(form_at(form).room)
}

// How many records were read, and how many more steps may follow.
#[derive(Clone, Copy)]
pub struct Tally {
    pub nodes: usize,
    pub steps: usize,
    pub room: usize,
}

// The tally after a step, which cannot stand where none may follow.
fn stepped(t: Tally) -> Option<Tally>
    requires { t.steps < 18446744073709551615 }
    ensures { (form : ℕ) (fields : Fields) → node_forms ≤ form → form < form_count → Counted (entry (form_at form) fields) t result }
{
    if t.room == 0 {
        return None;
    }
    Some(Tally {
        nodes: t.nodes,
        steps: t.steps + 1,
        room: t.room - 1,
    })
}

// The tally after a line, if it may stand where it does.
fn counted(line: Line, t: Tally) -> Option<Tally>
    requires { InTable line × (t.nodes < 18446744073709551615) × (t.steps < 18446744073709551615) }
    ensures { Counted (line_meant line) t result }
{
    match line {
        Line::Nothing => Some(t),
        Line::Unreadable => None,
        Line::Record { form, .. } => {
            if form < NODE_FORMS {
                Some(Tally {
                    nodes: t.nodes + 1,
                    steps: t.steps,
                    room: room_after(form),
                })
            } else {
                stepped(t)
            }
        }
    }
}

#[derive(Clone, Copy)]
pub struct Records {
    pub nodes: usize,
    pub steps: usize,
}

// The first line that cannot be read, counted from 1.
#[derive(Clone, Copy, PartialEq, Eq)]
pub struct BadLine(pub usize);

// How many records the text is read as.
pub fn measure(text: &[u8]) -> Result<Records, BadLine>
    ensures { measured result ≡ sizes_read (read_text text.now) }
{
    let mut tally = Tally {
        nodes: 0,
        steps: 0,
        room: 0,
    };
    let mut at = 0;
    let mut line = 1;
    while at < text.len() {
        let read = line_at(text, at);
        tally = counted(read.line, tally).ok_or(BadLine(line))?;
        at = read.next;
        line += 1;
    }
    Ok(Records {
        nodes: tally.nodes,
        steps: tally.steps,
    })
}
