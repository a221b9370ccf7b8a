// A line of a policy's text, read as a record's fields.
#![tactic(auto)]

ghost use Rattle.std.specs.Prelude.{◌≡◌, ◌≤◌, ◌<◌, IfSome, T, length, drop};
ghost use Rattle.spec_text.specs.Words.{words};
ghost use Rattle.spec_text.specs.Forms.{named, bare};
ghost use Rattle.spec_text.specs.Reading.{filled, line_of};
ghost use Rattle.text_words.specs.Scanned.{value_of};
ghost use Rattle.text_forms.specs.Table.{form_count, form_found, form_at};
ghost use Rattle.text_forms.specs.Meant.{slot_of};
ghost use Rattle.text_line.specs.Lines.{fitting, put_into, Sound, Fills, line_meant, InTable};

use text_forms::forms::{FORM_COUNT, Slot, form_at};
use text_words::{Taken, next_word, number, set};

// ---- its first word

// The form of a line that begins with this word, by its place in the table.
pub fn form_of(word: &[u8]) -> Option<usize>
    ensures is { named word.now ≡ form_found result }
    ensures inside { IfSome result (λ i. i < form_count) }
{
    for i in 0..FORM_COUNT {
        if form_at(i).name == word {
            return Some(i);
        }
    }
    None
}

// ---- what it says

// The fields that a line's words say, as far as they were read, and where the rest of the words begins.
#[derive(Clone, Copy)]
pub struct Filled {
    pub fields: [u64; 6],
    pub at: usize,
}

// Puts what was taken from the words into the field at a place.
fn put(begun: Filled, place: u8, taken: Taken) -> Filled
    requires { (length begun.fields ≡ 6) × (place < 6) }
    ensures { result ≡ put_into begun place taken }
{
    let mut fields = begun.fields;
    fields[usize::from(place)] = taken.value;
    Filled {
        fields,
        at: taken.end,
    }
}

// Reads what one slot says.
fn fill_slot(line: &[u8], begun: Filled, slot: Slot) -> Option<Filled>
    requires { Sound line.now begun × T (fitting (slot_of slot)) }
    ensures { Fills line.now begun (slot_of slot) result }
{
    match slot {
        Slot::Number(i, most) => Some(put(begun, i, number(line, begun.at, most)?)),
        Slot::Actions(i) => Some(put(begun, i, set(line, begun.at)?)),
    }
}

// The fields that the words from `at` on say, if they say each once and no more.
fn fill(line: &[u8], at: usize, form: usize) -> Option<[u64; 6]>
    requires { (at ≤ length line.now) × (form < form_count) }
    ensures { value_of result ≡ filled (form_at form).slots (words (drop at line.now)) (bare (form_at form)) }
{
    let row = form_at(form);
    let mut filled = Filled {
        fields: [u64::from(row.kind), 0, 0, 0, 0, 0],
        at,
    };
    for slot in &row.slots {
        if let Some(slot) = slot {
            filled = fill_slot(line, filled, *slot)?;
        }
    }
    match next_word(line, filled.at) {
        Some(_) => None,
        None => Some(filled.fields),
    }
}

// ---- the line

// What a line is read as; a record by the place of its form.
#[derive(Clone, Copy)]
pub enum Line {
    Nothing,
    Unreadable,
    Record { form: usize, fields: [u64; 6] },
}

pub fn read_line(line: &[u8]) -> Line
    ensures is { line_of (words line.now) ≡ line_meant result }
    ensures inside { InTable result }
{
    let Some(word) = next_word(line, 0) else {
        return Line::Nothing;
    };
    let Some(form) = form_of(&line[word.start..word.end]) else {
        return Line::Unreadable;
    };
    match fill(line, word.end, form) {
        Some(fields) => Line::Record { form, fields },
        None => Line::Unreadable,
    }
}
