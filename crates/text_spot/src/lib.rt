// Which record a refusal is about: in words, put into a lent buffer, and by the line of a text that the record is read from.
#![tactic(auto)]

ghost use Rattle.std.specs.Prelude.{◌≡◌};
ghost use Rattle.std.specs.Option.{unwrap_or};
ghost use Rattle.spec_policy.specs.Spots.{fault_on};
ghost use Rattle.spec_text.specs.Reading.{read_lines};
ghost use Rattle.spec_text.specs.Where.{node_or_step, rule_sort, which, owner_from, step_words, nodes_held, nodes_spelt, spot_says, place_words, fault_says};
ghost use Rattle.spec_text.specs.Where.{is_of, line_from, spot_line};
ghost use Rattle.faults.specs.Meaning.{spot_of, fault_of};
ghost use Rattle.text_forms.specs.Meant.{sort_of};
ghost use Rattle.text_line.specs.Lines.{line_meant, InTable};
ghost use Rattle.text_append.specs.Added.{Added};
ghost use Rattle.text_spot.specs.Meaning.{record_of, which_of, owner_of};

use faults::{Fault, Refusal};
use file_records::{NODE_SIZE, node_count};
use text_append::{append, append_number};
use text_forms::forms::{Sort, form_at};
use text_line::Line;
use text_measure::line_at;

// ---- which record

// A record by its number: a node, or a step, numbered over the whole file.
#[derive(Clone, Copy)]
struct Record {
    sort: Sort,
    number: usize,
}

// Rule 4 is about all records, rules 6 to 8 are about steps.
const FIELDS: u8 = Refusal::Fields as u8;

const TARGETS: u8 = Refusal::Targets as u8;

const BRANCHES: u8 = Refusal::Branches as u8;

fn node_or_step(n: usize, p: usize) -> Record
    ensures { record_of result ≡ node_or_step n p }
{
    if p < n {
        Record {
            sort: Sort::Node,
            number: p,
        }
    } else {
        Record {
            sort: Sort::Step,
            number: p - n,
        }
    }
}

fn rule_sort(rule: u8) -> Sort
    ensures { sort_of result ≡ rule_sort rule }
{
    if (TARGETS..=BRANCHES).contains(&rule) {
        Sort::Step
    } else {
        Sort::Node
    }
}

// The record that is number p to a rule, in a file of n nodes.
fn ruled(rule: u8, n: usize, p: usize) -> Record
    ensures { record_of result ≡ which n (fault_on rule p) }
{
    if rule == FIELDS {
        node_or_step(n, p)
    } else {
        Record {
            sort: rule_sort(rule),
            number: p,
        }
    }
}

fn about(nodes: &[u8], fault: Fault) -> Option<Record>
    ensures { which_of result ≡ which (nodes_held nodes.now) (fault_of fault) }
{
    let n = nodes.len() / NODE_SIZE;
    fault.spot.map(|p| ruled(fault.number, n, usize::from(p)))
}

// ---- in words

// The leaf that a step belongs to, by its node's number, and the step's offset in it.
#[derive(Clone, Copy)]
struct Owner {
    leaf: usize,
    offset: usize,
}

fn leaf_of(nodes: &[u8], s: usize) -> Option<Owner>
    ensures { owner_of result ≡ owner_from 0 (nodes_spelt nodes.now) s }
{
    let mut left = s;
    for i in 0..nodes.len() / NODE_SIZE {
        let count = usize::from(node_count(nodes, NODE_SIZE * i));
        if left < count {
            return Some(Owner {
                leaf: i,
                offset: left,
            });
        }
        left -= count;
    }
    None
}

fn append_step(out: &mut [u8], at: usize, nodes: &[u8], s: usize) -> usize
    ensures { Added out.old at (step_words s (owner_from 0 (nodes_spelt nodes.now) s)) out.new result }
{
    let begun = append(out, at, b"step ");
    match leaf_of(nodes, s) {
        None => {
            let numbered = append_number(out, begun, s as u64);
            append(out, numbered, b" of no leaf")
        }
        Some(Owner { leaf, offset }) => {
            let numbered = append_number(out, begun, offset as u64);
            let owned = append(out, numbered, b" of leaf ");
            append_number(out, owned, leaf as u64)
        }
    }
}

// Puts the words at the place, and answers where they end. From the file's node records.
pub fn append_record(out: &mut [u8], at: usize, nodes: &[u8], fault: Fault) -> usize
    ensures { Added out.old at (spot_says nodes.now (fault_of fault)) out.new result }
{
    let Some(Record { sort, number }) = about(nodes, fault) else {
        return at;
    };
    match sort {
        Sort::Node => {
            let begun = append(out, at, b"node ");
            append_number(out, begun, number as u64)
        }
        Sort::Step => append_step(out, at, nodes, number),
    }
}

// " at 9: " and the words, if the refusal is about a record.
fn append_place(out: &mut [u8], at: usize, nodes: &[u8], fault: Fault) -> usize
    ensures { Added out.old at
        (place_words (spot_of fault.spot) (spot_says nodes.now (fault_of fault))) out.new result }
{
    match fault.spot {
        None => at,
        Some(p) => {
            let named = append(out, at, b" at ");
            let numbered = append_number(out, named, u64::from(p));
            let told = append(out, numbered, b": ");
            append_record(out, told, nodes, fault)
        }
    }
}

// The whole refusal, as its line says it.
pub fn append_fault(out: &mut [u8], at: usize, nodes: &[u8], fault: Fault) -> usize
    ensures { Added out.old at (fault_says nodes.now (fault_of fault)) out.new result }
{
    let named = append(out, at, b"refused ");
    let numbered = append_number(out, named, u64::from(fault.number));
    append_place(out, numbered, nodes, fault)
}

// ---- by its line

// Whether the line is read as a record of this sort.
fn is_of(line: Line, sort: Sort) -> bool
    requires { InTable line }
    ensures { result ≡ is_of (sort_of sort) (line_meant line) }
{
    match line {
        Line::Nothing | Line::Unreadable => false,
        Line::Record { form, .. } => form_at(form).sort == sort,
    }
}

// The line that the record is read from, if the text has so many of its sort.
fn line_of(text: &[u8], sought: Record) -> Option<usize>
    ensures { unwrap_or result 0 ≡ line_from (sort_of sought.sort) sought.number 1 (read_lines text.now) }
{
    let mut left = sought.number;
    let mut at = 0;
    let mut line = 1;
    while at < text.len() {
        let read = line_at(text, at);
        if is_of(read.line, sought.sort) {
            if left == 0 {
                return Some(line);
            }
            left -= 1;
        }
        at = read.next;
        line += 1;
    }
    None
}

// The line of the record, in the text from which these node records were read; 0 where there is none.
pub fn spot_line(text: &[u8], nodes: &[u8], fault: Fault) -> usize
    ensures { result ≡ spot_line text.now nodes.now (fault_of fault) }
{
    about(nodes, fault)
        .and_then(|record| line_of(text, record))
        .unwrap_or(0)
}
