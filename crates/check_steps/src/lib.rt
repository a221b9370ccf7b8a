// What the walk through a leaf finds at one step, a function for each kind: rules 6, 7 and 8 of it, what it adds to the effect set and to the
// number of ins steps, and what it passes on.
#![tactic(auto)]

ghost use Rattle.std.specs.Prelude.{ℕ, ◌≡◌, List, get_or};
ghost use Rattle.actions.specs.Sets.{EMPTY};
ghost use Rattle.spec_policy.specs.Steps as steps;
ghost use Rattle.file_records.specs.Kinds.{ins_of, acase_of, spend_of, step_meant};
ghost use Rattle.check_steps.specs.Met.{Asks, AsksAll, LedOn, Meets};

use actions::ActionSet;
use check_modes::{Led, Marks, Row, lead, lead_next, only_bit};
use check_possible::join_at;
use check_targets::target_fits;
use file_records::{ACASE, END, HALT, INS, MOST_LEAF_STEPS, OK, Operand, SPEND, SUP, Step};

// What the walk has found so far: of all steps rule 7, but for the nexts, and rule 8; the marks of the modes, the offsets of the nexts, the effect
// set and the number of ins steps.
#[derive(Clone, Copy)]
pub struct Walk {
    pub modes: bool,
    pub taken: bool,
    pub marks: Marks,
    pub nexts: u64,
    pub effects: ActionSet,
    pub inserts: u32,
}

// The walk after a step that is no next, has no effect and no branches.
fn led_on(w: Walk, led: Led) -> Walk
    ensures { LedOn w led result }
{
    Walk {
        modes: w.modes & led.fits,
        marks: led.marks,
        ..w
    }
}

fn next_step(
    w: Walk,
    o: usize,
    count: usize,
    set: ActionSet,
    take: usize,
    done: usize,
    sets: &mut [u64; MOST_LEAF_STEPS],
) -> Option<Walk>
    requires { AsksAll w o count sets.old }
    ensures { Meets set.bits o count (steps.next take done) w result sets.old sets.new }
{
    let nexts = w.nexts | only_bit(o);
    if !target_fits(nexts, count, o, take) {
        return None;
    }
    if !target_fits(nexts, count, o, done) {
        return None;
    }
    join_at(sets, take, set);
    Some(Walk {
        marks: lead_next(take, done, o, w.marks),
        nexts,
        ..w
    })
}

fn ok_step(w: Walk, o: usize, count: usize, to: usize) -> Option<Walk>
    requires { Asks w o count }
    ensures { (r : ℕ) (sets : List ℕ) → Meets r o count (steps.ok to) w result sets sets }
{
    if !target_fits(w.nexts, count, o, to) {
        return None;
    }
    let row = Row {
        kind: OK,
        first: to,
        second: 0,
    };
    Some(led_on(w, lead(row, o, w.marks)))
}

fn sup_step(w: Walk, o: usize, count: usize, to: usize, p: ActionSet) -> Option<Walk>
    requires { Asks w o count }
    ensures { (r : ℕ) (sets : List ℕ) → p.bits ≡ get_or sets o EMPTY → Meets r o count (steps.sup to) w result sets sets }
{
    if !target_fits(w.nexts, count, o, to) {
        return None;
    }
    let row = Row {
        kind: SUP,
        first: to,
        second: 0,
    };
    Some(Walk {
        effects: w.effects.union(p),
        ..led_on(w, lead(row, o, w.marks))
    })
}

fn ins_step(
    w: Walk,
    o: usize,
    count: usize,
    action: u8,
    to: usize,
    sets: &mut [u64; MOST_LEAF_STEPS],
) -> Option<Walk>
    requires { AsksAll w o count sets.old }
    ensures { (r : ℕ) → Meets r o count (steps.ins action to) w result sets.old sets.new }
{
    if !target_fits(w.nexts, count, o, to) {
        return None;
    }
    let p = ActionSet { bits: sets[o] };
    join_at(sets, to, p);
    let row = Row {
        kind: INS,
        first: to,
        second: 0,
    };
    Some(Walk {
        effects: w.effects.union(ActionSet::single(action)),
        inserts: w.inserts + 1,
        ..led_on(w, lead(row, o, w.marks))
    })
}

fn spend_step(
    w: Walk,
    o: usize,
    count: usize,
    yes: usize,
    otherwise: usize,
    sets: &mut [u64; MOST_LEAF_STEPS],
) -> Option<Walk>
    requires { AsksAll w o count sets.old }
    ensures { (r n : ℕ) → Meets r o count (steps.spend n yes otherwise) w result sets.old sets.new }
{
    if !target_fits(w.nexts, count, o, yes) {
        return None;
    }
    if !target_fits(w.nexts, count, o, otherwise) {
        return None;
    }
    let p = ActionSet { bits: sets[o] };
    join_at(sets, yes, p);
    join_at(sets, otherwise, p);
    let row = Row {
        kind: SPEND,
        first: yes,
        second: otherwise,
    };
    Some(led_on(w, lead(row, o, w.marks)))
}

fn acase_step(
    w: Walk,
    o: usize,
    count: usize,
    set: ActionSet,
    asked: ActionSet,
    yes: usize,
    otherwise: usize,
    sets: &mut [u64; MOST_LEAF_STEPS],
) -> Option<Walk>
    requires { AsksAll w o count sets.old }
    ensures { Meets set.bits o count (steps.acase asked.bits yes otherwise) w result sets.old sets.new }
{
    if !asked.within(set) {
        return None;
    }
    if !target_fits(w.nexts, count, o, yes) {
        return None;
    }
    if !target_fits(w.nexts, count, o, otherwise) {
        return None;
    }
    let p = ActionSet { bits: sets[o] };
    let common = p.common(asked);
    let rest = p.difference(asked);
    join_at(sets, yes, common);
    join_at(sets, otherwise, rest);
    let row = Row {
        kind: ACASE,
        first: yes,
        second: otherwise,
    };
    Some(Walk {
        taken: w.taken & (!common.is_empty() & !rest.is_empty()),
        ..led_on(w, lead(row, o, w.marks))
    })
}

fn end_step(w: Walk, o: usize, count: usize) -> Option<Walk>
    requires { Asks w o count }
    ensures { (r : ℕ) (sets : List ℕ) → Meets r o count steps.end w result sets sets }
{
    let row = Row {
        kind: END,
        first: 0,
        second: 0,
    };
    Some(led_on(w, lead(row, o, w.marks)))
}

fn halt_step(w: Walk, o: usize, count: usize) -> Option<Walk>
    requires { Asks w o count }
    ensures { (r : ℕ) (sets : List ℕ) → Meets r o count steps.halt w result sets sets }
{
    let row = Row {
        kind: HALT,
        first: 0,
        second: 0,
    };
    Some(led_on(w, lead(row, o, w.marks)))
}

// ---- a value of the step enum. An operand of another kind than its step's is read as a halt: no file holds one.

fn ins_of(
    w: Walk,
    o: usize,
    count: usize,
    x: Operand,
    to: u8,
    sets: &mut [u64; MOST_LEAF_STEPS],
) -> Option<Walk>
    requires { AsksAll w o count sets.old }
    ensures { (r : ℕ) → Meets r o count (ins_of x to) w result sets.old sets.new }
{
    match x {
        Operand::Action(b) => ins_step(w, o, count, b, usize::from(to), sets),
        Operand::Set(_) | Operand::Amount(_) => halt_step(w, o, count),
    }
}

fn acase_of(
    w: Walk,
    o: usize,
    count: usize,
    set: ActionSet,
    x: Operand,
    yes: u8,
    otherwise: u8,
    sets: &mut [u64; MOST_LEAF_STEPS],
) -> Option<Walk>
    requires { AsksAll w o count sets.old }
    ensures { Meets set.bits o count (acase_of x yes otherwise) w result sets.old sets.new }
{
    match x {
        Operand::Set(s) => acase_step(
            w,
            o,
            count,
            set,
            s,
            usize::from(yes),
            usize::from(otherwise),
            sets,
        ),
        Operand::Action(_) | Operand::Amount(_) => halt_step(w, o, count),
    }
}

fn spend_of(
    w: Walk,
    o: usize,
    count: usize,
    x: Operand,
    yes: u8,
    otherwise: u8,
    sets: &mut [u64; MOST_LEAF_STEPS],
) -> Option<Walk>
    requires { AsksAll w o count sets.old }
    ensures { (r : ℕ) → Meets r o count (spend_of x yes otherwise) w result sets.old sets.new }
{
    match x {
        Operand::Action(_) | Operand::Set(_) => halt_step(w, o, count),
        Operand::Amount(_) => spend_step(
            w,
            o,
            count,
            usize::from(yes),
            usize::from(otherwise),
            sets,
        ),
    }
}

// One match for all that the walk asks of a step. There is no walk after a step that breaks rule 6.
pub fn meet(
    w: Walk,
    o: usize,
    count: usize,
    set: ActionSet,
    step: Step,
    sets: &mut [u64; MOST_LEAF_STEPS],
) -> Option<Walk>
    requires { AsksAll w o count sets.old }
    ensures { Meets set.bits o count (step_meant step) w result sets.old sets.new }
{
    match step {
        Step::Next(take, done) => next_step(
            w,
            o,
            count,
            set,
            usize::from(take),
            usize::from(done),
            sets,
        ),
        Step::Ok(to) => ok_step(w, o, count, usize::from(to)),
        Step::Sup(to) => sup_step(w, o, count, usize::from(to), ActionSet { bits: sets[o] }),
        Step::Ins(x, to) => ins_of(w, o, count, x, to, sets),
        Step::Acase(x, y, z) => acase_of(w, o, count, set, x, y, z, sets),
        Step::Spend(x, y, z) => spend_of(w, o, count, x, y, z, sets),
        Step::End => end_step(w, o, count),
        Step::Halt => halt_step(w, o, count),
    }
}
