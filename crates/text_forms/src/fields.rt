// A record's fields, and whether its line says all of them. A record is a slice of its own.
ghost use Rattle.std.specs.Prelude.{◌≡◌, ◌≤◌, ◌<◌, [], ◌∷◌, length, get_or};
ghost use Rattle.spec_text.specs.Forms.{node, step, size, fields_in, place, bound};
ghost use Rattle.spec_text.specs.Printing.{count_in, says};
ghost use Rattle.text_forms.specs.Table.{form_count, form_at};
ghost use Rattle.text_forms.specs.Meant.{sort_of, slot_of, slots_in, slots_of};
ghost use Rattle.text_forms.specs.Whole.{names, named, whole, fit};

use crate::forms::{Form, Slot, Sort, form_at};
use file_records::{byte, node_count, node_set, node_start, word64};

fn node_rest(bytes: &[u8], place: u8) -> u64
    requires { (length bytes.now ≡ size node) × (4 ≤ place) }
    ensures { result ≡ get_or (fields_in node bytes.now) place 0 }
{
    match place {
        4 => node_start(bytes, 0),
        5 => node_set(bytes, 0).bits,
        _ => 0,
    }
}

fn step_rest(bytes: &[u8], place: u8) -> u64
    requires { (length bytes.now ≡ size step) × (4 ≤ place) }
    ensures { result ≡ get_or (fields_in step bytes.now) place 0 }
{
    match place {
        4 => word64(bytes, 4),
        _ => 0,
    }
}

// The field at a place, in the file's order; 0 past the last. The first four are bytes.
pub fn field(bytes: &[u8], sort: Sort, place: u8) -> u64
    requires { length bytes.now ≡ size (sort_of sort) }
    ensures { result ≡ get_or (fields_in (sort_of sort) bytes.now) place 0 }
{
    if place < 4 {
        return u64::from(byte(bytes, usize::from(place)));
    }
    match sort {
        Sort::Node => node_rest(bytes, place),
        Sort::Step => step_rest(bytes, place),
    }
}

// How many steps the record counts.
pub fn counted(bytes: &[u8], sort: Sort) -> u8
    requires { length bytes.now ≡ size (sort_of sort) }
    ensures { result ≡ count_in (sort_of sort) bytes.now }
{
    match sort {
        Sort::Node => node_count(bytes, 0),
        Sort::Step => 0,
    }
}

fn place_of(slot: Slot) -> u8
    ensures { result ≡ place (slot_of slot) }
{
    match slot {
        Slot::Number(i, _) => i,
        Slot::Actions(i) => i,
    }
}

fn most_of(slot: Slot) -> u64
    ensures { result ≡ bound (slot_of slot) }
{
    match slot {
        Slot::Number(_, most) => most,
        Slot::Actions(_) => u64::MAX,
    }
}

fn is_named(slot: Option<Slot>, place: u8) -> bool
    ensures { result ≡ names (slots_in (slot ∷ [])) place }
{
    match slot {
        Some(slot) => place_of(slot) == place,
        None => false,
    }
}

fn any_named(slots: &[Option<Slot>], place: u8) -> bool
    ensures { result ≡ names (slots_in slots.now) place }
{
    for slot in slots {
        if is_named(*slot, place) {
            return true;
        }
    }
    false
}

// The line names the field, or it is zero.
fn said(bytes: &[u8], sort: Sort, form: Form, place: u8) -> bool
    requires { length bytes.now ≡ size (sort_of sort) }
    ensures { result ≡ named (slots_of form) (fields_in (sort_of sort) bytes.now) place }
{
    any_named(&form.slots, place) || field(bytes, sort, place) == 0
}

fn is_whole(bytes: &[u8], sort: Sort, form: Form) -> bool
    requires { length bytes.now ≡ size (sort_of sort) }
    ensures { result ≡ whole (sort_of sort) (slots_of form) (fields_in (sort_of sort) bytes.now) }
{
    match sort {
        Sort::Node => said(bytes, sort, form, 1)
            & said(bytes, sort, form, 2)
            & said(bytes, sort, form, 4)
            & said(bytes, sort, form, 5),
        Sort::Step => said(bytes, sort, form, 1)
            & said(bytes, sort, form, 2)
            & said(bytes, sort, form, 3)
            & said(bytes, sort, form, 4),
    }
}

fn fits(bytes: &[u8], sort: Sort, slot: Option<Slot>) -> bool
    requires { length bytes.now ≡ size (sort_of sort) }
    ensures { result ≡ fit (slots_in (slot ∷ [])) (fields_in (sort_of sort) bytes.now) }
{
    match slot {
        Some(slot) => field(bytes, sort, place_of(slot)) <= most_of(slot),
        None => true,
    }
}

fn all_fit(bytes: &[u8], sort: Sort, slots: &[Option<Slot>]) -> bool
    requires { length bytes.now ≡ size (sort_of sort) }
    ensures { result ≡ fit (slots_in slots.now) (fields_in (sort_of sort) bytes.now) }
{
    for slot in slots {
        if !fits(bytes, sort, *slot) {
            return false;
        }
    }
    true
}

// The line of the form at a place, which is that of the record's kind, says the whole record.
pub fn says(bytes: &[u8], sort: Sort, i: usize) -> bool
    requires { (length bytes.now ≡ size (sort_of sort)) × (i < form_count) × (get_or bytes.now 0 0 ≡ (form_at i).kind) }
    ensures { result ≡ says (sort_of sort) (form_at i) bytes.now }
{
    let form = form_at(i);
    is_whole(bytes, sort, form)
        & all_fit(bytes, sort, &form.slots)
        & (counted(bytes, sort) <= form.room)
}
