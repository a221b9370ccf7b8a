// A record printed as a line: its own, or its bytes in a remark where it has none.
#![tactic(auto)]

ghost use Rattle.std.specs.Prelude.{◌≡◌, [], ◌∷◌, ◌++◌, ◌<◌, length, get_or};
ghost use Rattle.spec_text.specs.Words.{newline};
ghost use Rattle.spec_text.specs.Forms.{size, place, fields_in};
ghost use Rattle.spec_text.specs.Printing.{argument, arguments, indent, title, line_text, parted, bytes_text, shown_record};
ghost use Rattle.text_append.specs.Added.{Added};
ghost use Rattle.text_forms.specs.Table.{form_count, form_at};
ghost use Rattle.text_forms.specs.Meant.{sort_of, slot_of, slots_in};

use actions::ActionSet;
use file_records::byte;
use text_append::{append, append_number, append_set};
use text_forms::fields::{field, says};
use text_forms::forms::{Slot, Sort, form_at, form_of};

fn argument(out: &mut [u8], at: usize, bytes: &[u8], sort: Sort, slot: Slot) -> usize
    requires { length bytes.now ≡ size (sort_of sort) }
    ensures { Added out.old at
        (argument (slot_of slot) (get_or (fields_in (sort_of sort) bytes.now) (place (slot_of slot)) 0)) out.new result }
{
    match slot {
        Slot::Number(i, _) => {
            let start = append(out, at, b" ");
            append_number(out, start, field(bytes, sort, i))
        }
        Slot::Actions(i) => {
            let bits = field(bytes, sort, i);
            append_set(out, at, ActionSet { bits })
        }
    }
}

fn arguments(out: &mut [u8], at: usize, bytes: &[u8], sort: Sort, slots: &[Option<Slot>]) -> usize
    requires { length bytes.now ≡ size (sort_of sort) }
    ensures { Added out.old at (arguments (slots_in slots.now) (fields_in (sort_of sort) bytes.now)) out.new result }
{
    let mut end = at;
    for slot in slots {
        if let Some(slot) = slot {
            end = argument(out, end, bytes, sort, *slot);
        }
    }
    end
}

fn begin(out: &mut [u8], at: usize, sort: Sort) -> usize
    ensures { Added out.old at (indent (sort_of sort)) out.new result }
{
    match sort {
        Sort::Node => at,
        Sort::Step => append(out, at, b"  "),
    }
}

fn mark(out: &mut [u8], at: usize, sort: Sort) -> usize
    ensures { Added out.old at (title (sort_of sort)) out.new result }
{
    match sort {
        Sort::Node => append(out, at, b"# node "),
        Sort::Step => append(out, at, b"# step "),
    }
}

// A record's line, by the form at a place.
fn line(out: &mut [u8], at: usize, bytes: &[u8], sort: Sort, form: usize, i: usize) -> usize
    requires { (length bytes.now ≡ size (sort_of sort)) × (form < form_count) }
    ensures { Added out.old at
        (line_text (sort_of sort) (form_at form) (fields_in (sort_of sort) bytes.now) i ++ (newline ∷ [])) out.new result }
{
    let row = form_at(form);
    let begun = begin(out, at, sort);
    let named = append(out, begun, row.name);
    let said = arguments(out, named, bytes, sort, &row.slots);
    let parted = append(out, said, b"  ");
    let marked = mark(out, parted, sort);
    let end = append_number(out, marked, i as u64);
    append(out, end, b"\n")
}

// Each byte after a space.
fn append_bytes(out: &mut [u8], at: usize, bytes: &[u8]) -> usize
    ensures { Added out.old at (parted bytes.now) out.new result }
{
    let mut end = at;
    for byte in bytes {
        let spaced = append(out, end, b" ");
        end = append_number(out, spaced, u64::from(*byte));
    }
    end
}

// A record's bytes in a remark.
fn bytes_line(out: &mut [u8], at: usize, bytes: &[u8], sort: Sort, i: usize) -> usize
    ensures { Added out.old at (bytes_text (sort_of sort) i bytes.now) out.new result }
{
    let begun = begin(out, at, sort);
    let marked = mark(out, begun, sort);
    let numbered = append_number(out, marked, i as u64);
    let named = append(out, numbered, b":");
    let end = append_bytes(out, named, bytes);
    append(out, end, b"\n")
}

// The line of a record, the i-th of its sort.
pub fn record_line(out: &mut [u8], at: usize, bytes: &[u8], sort: Sort, i: usize) -> usize
    requires { length bytes.now ≡ size (sort_of sort) }
    ensures { Added out.old at (shown_record (sort_of sort) i bytes.now) out.new result }
{
    match form_of(sort, byte(bytes, 0)) {
        Some(form) if says(bytes, sort, form) => line(out, at, bytes, sort, form, i),
        _ => bytes_line(out, at, bytes, sort, i),
    }
}
