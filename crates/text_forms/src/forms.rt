// The kinds of lines: one table, by which a line is read, a record is printed, and a line that cannot be read is answered.
ghost use Rattle.std.specs.Prelude.{◌≡◌, ◌<◌, IfSome};
ghost use Rattle.spec_text.specs.Forms.{of_kind};
ghost use Rattle.text_forms.specs.Table.{form_count, form_found, form_at};
ghost use Rattle.text_forms.specs.Meant.{sort_of, Means};

use file_records::{
    ACASE, AND, END, HALT, INS, LEAF, NEXT, OK, OR, SEQ_AND, SEQ_OR, SPEND, SUP, TRIVIAL,
    UNSATISFIABLE,
};

#[derive(Clone, Copy, PartialEq, Eq)]
pub enum Sort {
    Node,
    Step,
}

// What a line says after its first word: a number up to a bound, or a set, and the place of the field that it is.
#[derive(Clone, Copy)]
pub enum Slot {
    Number(u8, u64),
    Actions(u8),
}

// `name` is the line's first word, `usage` what is told of a line that is wrong. `room` is the most steps that the record may count. No line says
// more than three things.
#[derive(Clone, Copy)]
pub struct Form {
    pub name: &'static [u8],
    pub usage: &'static [u8],
    pub sort: Sort,
    pub kind: u8,
    pub room: u8,
    pub slots: [Option<Slot>; 3],
}

const MOST_BYTE: u64 = 255;

const MOST_WORD: u64 = 4294967295;

const REGULATED: Slot = Slot::Actions(5);

const START: Slot = Slot::Number(4, MOST_WORD);

const LEFT: Slot = Slot::Number(1, MOST_BYTE);

const RIGHT: Slot = Slot::Number(2, MOST_BYTE);

const ACTION: Slot = Slot::Number(1, MOST_BYTE);

const FIRST: Slot = Slot::Number(2, MOST_BYTE);

const SECOND: Slot = Slot::Number(3, MOST_BYTE);

const OPERAND: Slot = Slot::Actions(4);

const AMOUNT: Slot = Slot::Number(4, MOST_WORD);

pub const FORM_COUNT: usize = 15;

// The forms of nodes stand before those of steps.
pub const NODE_FORMS: usize = 7;

const FORMS: [Form; FORM_COUNT] = [
    Form {
        name: b"leaf",
        usage: b"leaf {ACTIONS} START",
        sort: Sort::Node,
        kind: LEAF,
        room: 255,
        slots: [Some(REGULATED), Some(START), None],
    },
    Form {
        name: b"trivial",
        usage: b"trivial",
        sort: Sort::Node,
        kind: TRIVIAL,
        room: 0,
        slots: [None, None, None],
    },
    Form {
        name: b"unsatisfiable",
        usage: b"unsatisfiable",
        sort: Sort::Node,
        kind: UNSATISFIABLE,
        room: 0,
        slots: [None, None, None],
    },
    Form {
        name: b"and",
        usage: b"and LEFT RIGHT",
        sort: Sort::Node,
        kind: AND,
        room: 0,
        slots: [Some(LEFT), Some(RIGHT), None],
    },
    Form {
        name: b"seq-and",
        usage: b"seq-and LEFT RIGHT",
        sort: Sort::Node,
        kind: SEQ_AND,
        room: 0,
        slots: [Some(LEFT), Some(RIGHT), None],
    },
    Form {
        name: b"or",
        usage: b"or LEFT RIGHT",
        sort: Sort::Node,
        kind: OR,
        room: 0,
        slots: [Some(LEFT), Some(RIGHT), None],
    },
    Form {
        name: b"seq-or",
        usage: b"seq-or LEFT RIGHT",
        sort: Sort::Node,
        kind: SEQ_OR,
        room: 0,
        slots: [Some(LEFT), Some(RIGHT), None],
    },
    Form {
        name: b"next",
        usage: b"next TAKE DONE",
        sort: Sort::Step,
        kind: NEXT,
        room: 0,
        slots: [Some(FIRST), Some(SECOND), None],
    },
    Form {
        name: b"ok",
        usage: b"ok TO",
        sort: Sort::Step,
        kind: OK,
        room: 0,
        slots: [Some(FIRST), None, None],
    },
    Form {
        name: b"sup",
        usage: b"sup TO",
        sort: Sort::Step,
        kind: SUP,
        room: 0,
        slots: [Some(FIRST), None, None],
    },
    Form {
        name: b"ins",
        usage: b"ins ACTION TO",
        sort: Sort::Step,
        kind: INS,
        room: 0,
        slots: [Some(ACTION), Some(FIRST), None],
    },
    Form {
        name: b"acase",
        usage: b"acase {ACTIONS} YES NO",
        sort: Sort::Step,
        kind: ACASE,
        room: 0,
        slots: [Some(OPERAND), Some(FIRST), Some(SECOND)],
    },
    Form {
        name: b"spend",
        usage: b"spend AMOUNT YES NO",
        sort: Sort::Step,
        kind: SPEND,
        room: 0,
        slots: [Some(AMOUNT), Some(FIRST), Some(SECOND)],
    },
    Form {
        name: b"end",
        usage: b"end",
        sort: Sort::Step,
        kind: END,
        room: 0,
        slots: [None, None, None],
    },
    Form {
        name: b"halt",
        usage: b"halt",
        sort: Sort::Step,
        kind: HALT,
        room: 0,
        slots: [None, None, None],
    },
];

// The form at a place of the table.
pub fn form_at(i: usize) -> Form
    requires { i < form_count }
    ensures { Means (form_at i) result }
{
    FORMS[i]
}

// The form of records of the kind, by its place.
pub fn form_of(sort: Sort, kind: u8) -> Option<usize>
    ensures is { of_kind (sort_of sort) kind ≡ form_found result }
    ensures inside { IfSome result (λ i. i < form_count) }
{
    for i in 0..FORM_COUNT {
        let form = form_at(i);
        if form.sort == sort && form.kind == kind {
            return Some(i);
        }
    }
    None
}
