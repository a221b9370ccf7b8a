// Rule 7, the mode rule: one walk through a leaf's steps marks the modes in which each is reached and holds each to the table. At its end all are
// asked at once whether they are reached in one mode.
#![tactic(auto)]

ghost use Rattle.std.specs.Prelude.{◌≡◌, List, ℕ, ◌≤◌, ◌<◌, T, eqb, ltb, length};
ghost use Rattle.actions.specs.Sets.{has};
ghost use Rattle.spec_policy.specs.Steps.{Step, next};
ghost use Rattle.spec_check.specs.Modes.{Mark, stepped, mode_fits};
ghost use Rattle.check_modes.specs.Table.{entry_at, reaching, may_stand, led_by};
ghost use Rattle.check_modes.specs.Marks.{Agrees, Adds, Aside, room_for, LedBy, StepLed, NextsAre, all_once};
ghost use Rattle.check_modes.specs.Marks.{only_if, ReachedHere, RowRoom, IsRow};
ghost use Rattle.spec_policy.specs.Records.{most_leaf_steps};

use actions::ActionSet;
use file_records::{MOST_LEAF_STEPS, NEXT};

const IDLE: usize = 0;

const PENDING: usize = 1;

const CLOSING: usize = 2;

// The mode rule, a row for each kind of step and a column for each mode. An entry has three digits:
// whether the kind may stand there, the mode in which it reaches its first target, and that of its second. A target that the kind
// does not have, or does not reach since it may not stand there, has mode 3.
const TABLE: [[u8; 3]; 8] = [
    [0b1_01_10, 0b0_11_11, 0b0_11_11], // next
    [0b0_11_11, 0b1_00_11, 0b0_11_11], // ok
    [0b0_11_11, 0b1_00_11, 0b0_11_11], // sup
    [0b1_00_11, 0b1_01_11, 0b1_10_11], // ins
    [0b0_11_11, 0b1_01_01, 0b0_11_11], // acase
    [0b1_00_00, 0b1_01_01, 0b1_10_10], // spend
    [0b1_11_11, 0b1_11_11, 0b1_11_11], // end
    [0b1_11_11, 0b1_11_11, 0b1_11_11], // halt
];

fn entry(kind: u8, mode: usize) -> u8
    requires { (1 ≤ kind) × (kind ≤ 8) × (mode < 3) }
    ensures { result ≡ entry_at kind mode }
{
    TABLE[kind as usize - 1][mode]
}

// ---- the marks

// A word for each mode: bit o is 1 where offset o is reached in that mode. They go by value, so that a compiler may keep them in registers.
#[derive(Clone, Copy)]
pub struct Marks {
    pub idle: u64,
    pub pending: u64,
    pub closing: u64,
}

// Offset 0 is reached idle, before any step is walked.
pub fn first_mark() -> Marks
    ensures { Agrees result (reaching 0 0) }
{
    Marks {
        idle: 1,
        pending: 0,
        closing: 0,
    }
}

// No test of the offset is compiled in, here and in `only_bit`: who calls them knows it to be below 64.
pub fn has_bit(word: u64, o: usize) -> bool
    requires { o < most_leaf_steps }
    ensures { result ≡ has word o }
{
    (word >> o) % 2 == 1
}

// The word of one offset.
pub fn only_bit(o: usize) -> u64
    requires { o < most_leaf_steps }
    ensures { (p : ℕ) → has result p ≡ eqb p o }
{
    1u64 << o
}

// Marks a target of a step; in mode 3 the step does not have it. The mode comes from the table by a constant number, so that a compiler
// knows the arm.
fn reach(seen: Marks, mode: u8, o: usize) -> Marks
    requires { T (room_for (reaching mode o)) }
    ensures { Adds seen result (reaching mode o) }
{
    match mode {
        0 => Marks {
            idle: seen.idle | only_bit(o),
            ..seen
        },
        1 => Marks {
            pending: seen.pending | only_bit(o),
            ..seen
        },
        2 => Marks {
            closing: seen.closing | only_bit(o),
            ..seen
        },
        _ => seen,
    }
}

// ---- a step

fn stands(e: u8) -> bool
    ensures { result ≡ may_stand e }
{
    e / 16 == 1
}

// What the walk has of a step: the marks after it, and whether it may stand where it is reached.
#[derive(Clone, Copy)]
pub struct Led {
    pub marks: Marks,
    pub fits: bool,
}

// A step that is reached in the mode whose entry is e: marks what it leads to. It fits if it may stand there.
fn lead_in(e: u8, first: usize, second: usize, seen: Marks) -> Led
    requires { T (room_for (led_by e first second)) }
    ensures { LedBy e first second seen result }
{
    let after = reach(seen, e % 4, second);
    let marks = reach(after, e / 4 % 4, first);
    Led {
        marks,
        fits: stands(e),
    }
}

// A step as its kind's row and its two targets.
#[derive(Clone, Copy)]
pub struct Row {
    pub kind: u8,
    pub first: usize,
    pub second: usize,
}

// A step held to its row. One mode is followed: that in which it is reached, if there is one and no other. Whether that is so of every step is asked
// at the end of the walk, of all at once (`each_once`). It is compiled in where it is called, for a kind that is known there: so a compiler knows what
// the entries say.
#[inline(always)]
pub fn lead(row: Row, o: usize, seen: Marks) -> Led
    requires { (o < most_leaf_steps) × RowRoom row }
    ensures { (s : Step) → IsRow row s → StepLed o s seen result }
{
    if has_bit(seen.pending, o) {
        return lead_in(entry(row.kind, PENDING), row.first, row.second, seen);
    }
    if has_bit(seen.closing, o) {
        return lead_in(entry(row.kind, CLOSING), row.first, row.second, seen);
    }
    lead_in(entry(row.kind, IDLE), row.first, row.second, seen)
}

// Every next counts as reached idle, and leads to the same in every mode. It is not held to anything here: a step may lead back to it.
pub fn lead_next(take: usize, done: usize, o: usize, seen: Marks) -> Marks
    requires { (o < most_leaf_steps) × (take < most_leaf_steps) × (done < most_leaf_steps) }
    ensures agrees { (ks : List Mark) → Agrees seen ks → Agrees result (stepped o (next take done) ks) }
    ensures aside { Aside (next take done) seen result }
{
    lead_in(entry(NEXT, IDLE), take, done, seen).marks
}

// ---- the end of the walk

// The word of the offsets below count.
fn offsets_below(count: usize) -> u64
    requires { (1 ≤ count) × (count ≤ most_leaf_steps) }
    ensures { (q : ℕ) → has result q ≡ ltb q count }
{
    u64::MAX >> (MOST_LEAF_STEPS - count)
}

// By all marks of a leaf of so many steps: each is reached in one mode. A next counts as reached idle.
pub fn each_once(nexts: u64, count: usize, seen: Marks) -> bool
    requires { (1 ≤ count) × (count ≤ most_leaf_steps) }
    ensures { (code : List Step) → length code ≡ count → NextsAre nexts code → result ≡ all_once seen code }
{
    let all = ActionSet {
        bits: offsets_below(count),
    };
    let idle = seen.idle | nexts;
    let reached = ActionSet {
        bits: idle | seen.pending | seen.closing,
    };
    let twice = ActionSet {
        bits: (idle & seen.pending) | (idle & seen.closing) | (seen.pending & seen.closing),
    };
    all.within(reached) & !all.meets(twice)
}

// ---- every mode in which a step is reached, for who asks which step breaks the rule. The walk does without: it follows one mode, for it only asks
// whether there is such a step.

// The modes in which one offset is marked.
#[derive(Clone, Copy)]
struct Here {
    idle: bool,
    pending: bool,
    closing: bool,
}

// The modes in which the step at an offset is reached: every next counts as reached idle.
fn reached(row: Row, o: usize, seen: Marks) -> Here
    requires { o < most_leaf_steps }
    ensures { (ks : List Mark) → Agrees seen ks → ReachedHere row.kind result.idle result.pending result.closing o ks }
{
    Here {
        idle: has_bit(seen.idle, o) | (row.kind == NEXT),
        pending: has_bit(seen.pending, o),
        closing: has_bit(seen.closing, o),
    }
}

// Marks what the step leads to in one mode, if it is reached in it.
fn lead_if(reached: bool, row: Row, mode: usize, seen: Marks) -> Marks
    requires le_kind { (1 ≤ row.kind) × (row.kind ≤ 8) × (mode < 3) }
    requires t { T (room_for (led_by (entry_at row.kind mode) row.first row.second)) }
    ensures { Adds seen result (only_if reached (led_by (entry_at row.kind mode) row.first row.second)) }
{
    if reached {
        lead_in(entry(row.kind, mode), row.first, row.second, seen).marks
    } else {
        seen
    }
}

// The marks after a step, whatever the modes in which it is reached.
pub fn lead_all(row: Row, o: usize, seen: Marks) -> Marks
    requires { (o < most_leaf_steps) × RowRoom row }
    ensures { (s : Step) (ks : List Mark) → IsRow row s → Agrees seen ks → Agrees result (stepped o s ks) }
{
    let here = reached(row, o, seen);
    let closing = lead_if(here.closing, row, CLOSING, seen);
    let pending = lead_if(here.pending, row, PENDING, closing);
    lead_if(here.idle, row, IDLE, pending)
}

// By all marks of the leaf: the step is reached in one mode, and may stand there.
pub fn fits_all(row: Row, o: usize, seen: Marks) -> bool
    requires { (o < most_leaf_steps) × (1 ≤ row.kind) × (row.kind ≤ 8) }
    ensures { (s : Step) (ks : List Mark) → IsRow row s → Agrees seen ks → result ≡ mode_fits ks o s }
{
    let here = reached(row, o, seen);
    if here.pending {
        return !here.idle & !here.closing & stands(entry(row.kind, PENDING));
    }
    if here.closing {
        return !here.idle & stands(entry(row.kind, CLOSING));
    }
    here.idle & stands(entry(row.kind, IDLE))
}
