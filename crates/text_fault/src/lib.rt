// What was expected in the line of a text that cannot be read, put into a lent buffer.
#![tactic(auto)]

ghost use Rattle.std.specs.Prelude.{◌≡◌, List, ◌∷◌, ◌<◌, IfSome, length};
ghost use Rattle.spec_text.specs.Words.{lines, words};
ghost use Rattle.spec_text.specs.Forms.{named};
ghost use Rattle.spec_text.specs.Reading as told;
ghost use Rattle.spec_text.specs.Reading.{line_of};
ghost use Rattle.text_forms.specs.Table.{form_count, form_found};
ghost use Rattle.text_line.specs.Lines.{line_meant, InTable};
ghost use Rattle.text_append.specs.Added.{Added};
ghost use Rattle.text_fault.specs.Expected.{heading, line_says, first_word, expected, astray, fault, room_after, room_before, fault_in};
ghost use Rattle.text_fault.specs.Places.{Starts, between, words_to};

use text_append::{append, append_number};
use text_forms::forms::{FORM_COUNT, NODE_FORMS, form_at};
use text_line::{Line, form_of, read_line};
use text_measure::{NEWLINE, line_at, line_end, room_after};
use text_words::next_word;

// ---- the line

pub fn line_count(text: &[u8]) -> usize
    ensures { result ≡ length (lines text.now) }
{
    text.iter().filter(|b| **b == NEWLINE).count() + 1
}

// Where line n begins.
fn line_start(text: &[u8], n: usize) -> usize
    ensures { Starts text.now n result }
{
    let mut at = 0;
    for _line in 1..n {
        let end = line_end(text, at);
        if end == text.len() {
            return end;
        }
        at = end + 1;
    }
    at
}

// How many steps may follow the last node, once this line was read.
fn room_line(line: Line, room: usize) -> usize
    requires { InTable line }
    ensures { (ls : List told.Line) → room_after room (line_meant line ∷ ls) ≡ room_after result ls }
{
    match line {
        Line::Nothing | Line::Unreadable => room,
        Line::Record { form, .. } => {
            if form < NODE_FORMS {
                room_after(form)
            } else {
                room
            }
        }
    }
}

// How many steps may follow the last node before line n.
fn room_before(text: &[u8], n: usize) -> usize
    ensures { result ≡ room_before text.now n }
{
    let mut room = 0;
    let mut at = 0;
    for _line in 1..n {
        if at == text.len() {
            return room;
        }
        let read = line_at(text, at);
        room = room_line(read.line, room);
        at = read.next;
    }
    room
}

// ---- what was expected

// What stands before the first word of the form at a place, where all of them are listed.
fn separate(i: usize, out: &mut [u8], at: usize) -> usize
    requires { i < form_count }
    ensures { Added out.old at (between i) out.new result }
{
    if i == 0 {
        at
    } else if i + 1 == FORM_COUNT {
        append(out, at, b" or ")
    } else {
        append(out, at, b", ")
    }
}

// The first words of all forms.
fn all_words(out: &mut [u8], at: usize) -> usize
    ensures { Added out.old at (words_to form_count) out.new result }
{
    let mut end = at;
    for i in 0..FORM_COUNT {
        let begun = separate(i, out, end);
        end = append(out, begun, form_at(i).name);
    }
    end
}

// The form of the line's first word.
fn first_form(line: &[u8]) -> Option<usize>
    ensures is { named (first_word (words line.now)) ≡ form_found result }
    ensures inside { IfSome result (λ i. i < form_count) }
{
    let word = next_word(line, 0)?;
    form_of(&line[word.start..word.end])
}

// By the form of the line's first word.
fn usage(form: Option<usize>, out: &mut [u8], at: usize) -> usize
    requires { IfSome form (λ i. i < form_count) }
    ensures { Added out.old at (expected (form_found form)) out.new result }
{
    match form {
        Some(i) => append(out, at, form_at(i).usage),
        None => all_words(out, at),
    }
}

// Of a step that could be read.
fn misplaced(room: usize, out: &mut [u8], at: usize) -> usize
    ensures { Added out.old at (astray room) out.new result }
{
    if room == 0 {
        append(out, at, b"a leaf before its steps")
    } else {
        append(out, at, b"at most 255 steps")
    }
}

// Of any line, where so many steps might follow the last node.
fn expect(line: &[u8], room: usize, out: &mut [u8], at: usize) -> usize
    ensures { Added out.old at
        (fault (line_of (words line.now)) (words line.now) room) out.new result }
{
    match read_line(line) {
        Line::Nothing => at,
        Line::Unreadable => usage(first_form(line), out, at),
        Line::Record { .. } => misplaced(room, out, at),
    }
}

// ---- the line that is said

pub fn begin(n: usize, out: &mut [u8]) -> usize
    ensures { Added out.old 0 (heading n) out.new result }
{
    let named = append(out, 0, b"line ");
    let numbered = append_number(out, named, n as u64);
    append(out, numbered, b": ")
}

// Puts what is said of line n at the start of `out`.
pub fn bad_line(text: &[u8], n: usize, out: &mut [u8]) -> usize
    ensures { Added out.old 0 (line_says n (fault_in text.now n)) out.new result }
{
    let start = line_start(text, n);
    let end = line_end(text, start);
    let room = room_before(text, n);
    let begun = begin(n, out);
    let said = expect(&text[start..end], room, out, begun);
    append(out, said, b"\n")
}
