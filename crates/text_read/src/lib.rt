// A policy's text, read into two lent buffers of records.
#![tactic(auto)]

ghost use Rattle.std.specs.Prelude.{◌≡◌, List, ◌∷◌, ◌+◌, ◌≤◌, IfSome, length, get_or, drop};
ghost use Rattle.spec_policy.specs.Bytes.{put};
ghost use Rattle.spec_text.specs.Forms.{node, step, record_of};
ghost use Rattle.spec_text.specs.Reading as text;
ghost use Rattle.spec_text.specs.Reading.{read_lines, read_text};
ghost use Rattle.text_line.specs.Lines.{line_meant, InTable};
ghost use Rattle.text_read.specs.Written.{lead_in, leads, written, Roomy, Ready, Copied, buffers};
ghost use Rattle.text_read.specs.Transcribed.{transcribed, gave};
ghost use Rattle.text_read.specs.declared.ReadError.TheVariants as errors;

use file_records::{NODE_SIZE, STEP_SIZE};
use text_forms::forms::NODE_FORMS;
use text_line::Line;
use text_measure::{BadLine, Records, line_at, measure};

// Where the numbers of a record stand that are longer than a byte.
const START_AT: usize = 4;

const SET_AT: usize = 8;

const OPERAND_AT: usize = 4;

// A node's record.
fn node_bytes(f: [u64; 6], count: usize) -> [u8; NODE_SIZE]
    requires { (get_or f 0 0 ≤ 255) × (get_or f 1 0 ≤ 255) × (get_or f 2 0 ≤ 255) × (count ≤ 255) }
    ensures { result ≡ record_of node count f }
{
    let mut record = [0; NODE_SIZE];
    record[0] = f[0] as u8;
    record[1] = f[1] as u8;
    record[2] = f[2] as u8;
    record[3] = count as u8;
    // The counter's start has the four low bytes.
    record[START_AT..SET_AT].copy_from_slice(&f[4].to_be_bytes()[4..]);
    record[SET_AT..].copy_from_slice(&f[5].to_be_bytes());
    record
}

// A step's record.
fn step_bytes(f: [u64; 6]) -> [u8; STEP_SIZE]
    requires { (get_or f 0 0 ≤ 255) × (get_or f 1 0 ≤ 255) × (get_or f 2 0 ≤ 255) × (get_or f 3 0 ≤ 255) }
    ensures { result ≡ record_of step 0 f }
{
    let mut record = [0; STEP_SIZE];
    record[0] = f[0] as u8;
    record[1] = f[1] as u8;
    record[2] = f[2] as u8;
    record[3] = f[3] as u8;
    record[OPERAND_AT..].copy_from_slice(&f[4].to_be_bytes());
    record
}

// What a line adds to the steps before the next node. None is added after a node's, nor after one that cannot be read.
fn step_of(line: Line) -> Option<usize>
    requires { InTable line }
    ensures is { (ls : List text.Line) → lead_in (line_meant line ∷ ls) ≡ leads result (lead_in ls) }
    ensures few { IfSome result (λ n. n ≤ 1) }
{
    match line {
        Line::Nothing => Some(0),
        Line::Unreadable => None,
        Line::Record { form, .. } => { if form < NODE_FORMS { None } else { Some(1) } }
    }
}

// How many steps stand from `at` on before the next node.
fn lead(text: &[u8], at: usize) -> usize
    requires { at ≤ length text.now }
    ensures { result ≡ lead_in (read_lines (drop at text.now)) }
{
    let mut count = 0;
    let mut i = at;
    while i < text.len() {
        let read = line_at(text, i);
        let Some(more) = step_of(read.line) else {
            return count;
        };
        count += more;
        i = read.next;
    }
    count
}

// Puts a record at a place of a buffer.
fn store(buffer: &mut [u8], at: usize, bytes: &[u8])
    requires { at + length bytes.now ≤ length buffer.old }
    ensures { buffer.new ≡ put buffer.old at bytes.now }
{
    buffer[at..at + bytes.len()].copy_from_slice(bytes);
}

// Puts the record of a line that was read into its buffer. `p` is how many records of each sort were copied.
fn copy_line(
    text: &[u8],
    next: usize,
    line: Line,
    nodes: &mut [u8],
    steps: &mut [u8],
    p: Records,
) -> Records
    requires { Ready text.now next line p.nodes p.steps nodes.old steps.old }
    ensures { Copied (line_meant line) (read_lines (drop next text.now))
        p.nodes p.steps nodes.old steps.old result.nodes result.steps nodes.new steps.new }
{
    let Line::Record { form, fields } = line else {
        return p;
    };
    if form < NODE_FORMS {
        let record = node_bytes(fields, lead(text, next));
        store(nodes, NODE_SIZE * p.nodes, &record);
        return Records {
            nodes: p.nodes + 1,
            steps: p.steps,
        };
    }
    let record = step_bytes(fields);
    store(steps, STEP_SIZE * p.steps, &record);
    Records {
        nodes: p.nodes,
        steps: p.steps + 1,
    }
}

// Puts the records of all lines into the buffers.
fn copy(text: &[u8], nodes: &mut [u8], steps: &mut [u8])
    requires { Roomy (read_lines text.now) 0 0 nodes.old steps.old }
    ensures { written (read_lines text.now) 0 0 nodes.old steps.old
        ≡ buffers nodes.new steps.new }
{
    let mut p = Records { nodes: 0, steps: 0 };
    let mut at = 0;
    while at < text.len() {
        let read = line_at(text, at);
        p = copy_line(text, read.next, read.line, nodes, steps, p);
        at = read.next;
    }
}

#[derive(Clone, Copy, PartialEq, Eq)]
pub enum ReadError {
    // The first line that cannot be read, counted from 1.
    BadLine(usize),
    // A buffer is too short.
    Short,
}

impl From<BadLine> for ReadError {
    ghost from_gives = { λ bad e. e ≡ errors.BadLine bad.0 };

    fn from(bad: BadLine) -> ReadError {
        ReadError::BadLine(bad.0)
    }
}

// Reads the text into node and step records, and answers how many were written. Where it cannot, nothing is written.
pub fn read(text: &[u8], nodes: &mut [u8], steps: &mut [u8]) -> Result<Records, ReadError>
    ensures { transcribed (read_text text.now) nodes.old steps.old
        ≡ gave result nodes.new steps.new }
{
    let found = measure(text)?;
    if found.nodes > nodes.len() / NODE_SIZE || found.steps > steps.len() / STEP_SIZE {
        return Err(ReadError::Short);
    }
    copy(text, nodes, steps);
    Ok(found)
}
