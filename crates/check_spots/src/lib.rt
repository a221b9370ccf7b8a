// Which step breaks rule 6, 7 or 8: asked only once the rule is known to be broken, so that a file that passes pays nothing for it. The walk's reading of
// a record is compiled into the walk, so a record is read anew here, by the reader that a call has.
#![tactic(auto)]

ghost use Rattle.std.specs.Prelude.{ℕ, Bool, Option, ◌≡◌, true, false, [], ◌∷◌};
ghost use Rattle.std.specs.Prelude.{map, ◌+◌, ◌*◌, ◌≤◌, ◌<◌, T, ltb, length, get_or, take};
ghost use Rattle.actions.specs.Sets.{EMPTY};
ghost use Rattle.spec_policy.specs.Lists.{every, summed, listed};
ghost use Rattle.spec_policy.specs.Spots.{first_off};
ghost use Rattle.spec_policy.specs.Records.{most_leaf_steps, step_size, nodes, step_record_at};
ghost use Rattle.spec_policy.specs.Steps.{step_of, targets};
ghost use Rattle.spec_policy.specs.Steps as steps;
ghost use Rattle.spec_policy.specs.Tree.{steps_owned, nodes_with_steps};
ghost use Rattle.spec_check.specs.Leaves.{first_in_leaves};
ghost use Rattle.spec_check.specs.Targets.{target_fits, leads_well, wrong6, broken6};
ghost use Rattle.spec_check.specs.Modes.{marks, wrong7};
ghost use Rattle.spec_check.specs.Possible.{pass_on, possible, branches_taken, wrong8};
ghost use Rattle.faults.specs.Meaning.{spot_of};
ghost use Rattle.file_records.specs.Code.{code_at};
ghost use Rattle.file_records.specs.declared.Operand.TheVariants.{Set};
ghost use Rattle.actions.specs.declared.ActionSet.{ActionSet};
ghost use Rattle.check_layout.specs.Fits.{nodes_fit};
ghost use Rattle.check_modes.specs.Marks.{Agrees, IsRow};
ghost use Rattle.check_spots.specs.Leaf.{stray_in, lost_in, untaken_in, TargetsIn, Search, LeafAt};

use actions::ActionSet;
use check_layout::counted::Counted;
use check_leaves::all_owned;
use check_modes::{Marks, Row, first_mark, fits_all, lead_all};
use check_possible::join_at;
use faults::on_record;
use file_records::{
    HALT, Kind, MOST_LEAF_STEPS, NEXT, Operand, STEP_SIZE, Step, byte, node_count, node_kind,
    node_place, node_set, step_at,
};

// The set that an acase asks for: the reader gives it no other operand.
fn set_in(asked: Operand) -> ActionSet
    ensures { (s : ActionSet) → asked ≡ Set s → result ≡ s }
{
    match asked {
        Operand::Set(set) => set,
        _ => ActionSet::EMPTY,
    }
}

// The first of so many offsets at which a step fails a test.
fn first_failing<F: Fn(usize) -> bool>(count: usize, passes: F) -> Option<u16>
    requires few { count ≤ most_leaf_steps }
    requires may { (o : ℕ) → o < count → F.pre passes o }
    ensures { (f : ℕ → steps.Step → Bool) (g : ℕ → steps.Step)
        → ((o : ℕ) (b : Bool) → o < count → F.post passes o b → b ≡ f o (g o))
        → spot_of result ≡ first_off f 0 (listed g 0 count) }
{
    for o in 0..count {
        if !passes(o) {
            return on_record(o);
        }
    }
    None
}

// ---- rule 6 of a leaf

// Target t of the step at offset o, in a leaf whose steps lie from `at` on.
fn target_fits(policy: &[u8], at: usize, count: usize, o: usize, t: usize) -> bool
    requires { at + step_size * count ≤ length policy.now }
    ensures { result ≡ target_fits (code_at policy.now at count) o t }
{
    t < count && (o < t || byte(policy, at + STEP_SIZE * t) == NEXT)
}

fn leads_well(policy: &[u8], at: usize, count: usize, set: ActionSet, o: usize) -> bool
    requires { (at + step_size * count ≤ length policy.now) × (o < count) }
    ensures { result ≡ leads_well set.bits (code_at policy.now at count) o
        (step_of (step_record_at policy.now (at + step_size * o))) }
{
    let fits = |t: u8| target_fits(policy, at, count, o, usize::from(t));
    match step_at(policy, at + STEP_SIZE * o) {
        Step::Next(take, done) => fits(take) & fits(done),
        Step::Ok(to) => fits(to),
        Step::Sup(to) => fits(to),
        Step::Ins(_, to) => fits(to),
        Step::Acase(asked, yes, otherwise) => {
            set_in(asked).within(set) & (fits(yes) & fits(otherwise))
        }
        Step::Spend(_, yes, otherwise) => fits(yes) & fits(otherwise),
        _ => true,
    }
}

fn stray_step(policy: &[u8], at: usize, count: usize, set: ActionSet) -> Option<u16>
    requires { (at + step_size * count ≤ length policy.now) × (count ≤ most_leaf_steps) }
    ensures { spot_of result ≡ stray_in set.bits (code_at policy.now at count) }
{
    first_failing(count, |o| leads_well(policy, at, count, set, o))
}

// ---- rule 7 of a leaf: a step may break it by what a later step does, so all marks are made first

// A kind that is none is read as a halt. The table has its rows by the kinds' numbers.
fn row_at(policy: &[u8], at: usize) -> Row
    requires { at + step_size ≤ length policy.now }
    ensures row { IsRow result (step_of (step_record_at policy.now at)) }
    ensures le_kind { (1 ≤ result.kind) × (result.kind ≤ 8) }
{
    let kind = match byte(policy, at) {
        known @ NEXT..=HALT => known,
        _ => HALT,
    };
    Row {
        kind,
        first: usize::from(byte(policy, at + 2)),
        second: usize::from(byte(policy, at + 3)),
    }
}

fn all_marks(policy: &[u8], at: usize, count: usize) -> Marks
    requires count_in_bounds { (at + step_size * count ≤ length policy.now) × (count ≤ most_leaf_steps) }
    requires targets_in { TargetsIn policy.now at count }
    ensures { Agrees result (marks (code_at policy.now at count)) }
{
    let mut seen = first_mark();
    for o in 0..count {
        seen = lead_all(row_at(policy, at + STEP_SIZE * o), o, seen);
    }
    seen
}

fn lost_step(policy: &[u8], at: usize, count: usize) -> Option<u16>
    requires count_in_bounds { (at + step_size * count ≤ length policy.now) × (count ≤ most_leaf_steps) }
    requires targets_in { TargetsIn policy.now at count }
    ensures { spot_of result ≡ lost_in (code_at policy.now at count) }
{
    let seen = all_marks(policy, at, count);
    first_failing(
        count,
        |o| fits_all(row_at(policy, at + STEP_SIZE * o), o, seen),
    )
}

// ---- rule 8 of a leaf: what is possible at each offset first, then the cases

// What the step at offset o, whose record is at `at`, passes on to its targets, in a leaf with this set.
fn pass_on(policy: &[u8], at: usize, o: usize, set: ActionSet, sets: &mut [u64; MOST_LEAF_STEPS])
    requires step_size_in_bounds { (at + step_size ≤ length policy.now) × (o < most_leaf_steps) × (length sets.old ≡ most_leaf_steps) }
    requires t { T (every (λ t. ltb t most_leaf_steps) (targets (step_of (step_record_at policy.now at)))) }
    ensures { sets.new
        ≡ pass_on set.bits (step_of (step_record_at policy.now at)) (get_or sets.old o EMPTY) sets.old }
{
    let here = ActionSet { bits: sets[o] };
    match step_at(policy, at) {
        Step::Next(take, _) => join_at(sets, usize::from(take), set),
        Step::Ins(_, to) => join_at(sets, usize::from(to), here),
        Step::Acase(asked, yes, otherwise) => {
            let asked = set_in(asked);
            join_at(sets, usize::from(yes), here.common(asked));
            join_at(sets, usize::from(otherwise), here.difference(asked))
        }
        Step::Spend(_, yes, otherwise) => {
            join_at(sets, usize::from(yes), here);
            join_at(sets, usize::from(otherwise), here)
        }
        _ => (),
    }
}

fn all_possible(policy: &[u8], at: usize, count: usize, set: ActionSet) -> [u64; MOST_LEAF_STEPS]
    requires count_in_bounds { (at + step_size * count ≤ length policy.now) × (count ≤ most_leaf_steps) }
    requires targets_in { TargetsIn policy.now at count }
    ensures { (take count result ≡ possible set.bits (code_at policy.now at count)) × (length result ≡ most_leaf_steps) }
{
    let mut sets = [0u64; MOST_LEAF_STEPS];
    for o in 0..count {
        pass_on(policy, at + STEP_SIZE * o, o, set, &mut sets);
    }
    sets
}

// The step whose record is at `at`, with what is possible at it: if it is a case, some action takes each of its branches.
fn branches_taken(policy: &[u8], at: usize, here: ActionSet) -> bool
    requires { at + step_size ≤ length policy.now }
    ensures { result ≡ branches_taken (here.bits ∷ []) 0 (step_of (step_record_at policy.now at)) }
{
    match step_at(policy, at) {
        Step::Acase(asked, _, _) => {
            let asked = set_in(asked);
            !here.common(asked).is_empty() & !here.difference(asked).is_empty()
        }
        _ => true,
    }
}

fn untaken_step(policy: &[u8], at: usize, count: usize, set: ActionSet) -> Option<u16>
    requires count_in_bounds { (at + step_size * count ≤ length policy.now) × (count ≤ most_leaf_steps) }
    requires targets_in { TargetsIn policy.now at count }
    ensures { spot_of result ≡ untaken_in set.bits (code_at policy.now at count) }
{
    let sets = all_possible(policy, at, count, set);
    first_failing(count, |o| {
        branches_taken(policy, at + STEP_SIZE * o, ActionSet { bits: sets[o] })
    })
}

// ---- rules 6 to 8 of all leaves

// The first step of all that the search of a leaf finds, given where the leaf's steps lie, how many they are, and its set. Steps are numbered over the
// whole file, and by rule 4 only a leaf counts steps: `first` is the number of the node's first step.
fn first_in_leaves<F: Fn(usize, usize, ActionSet) -> Option<u16>>(
    file: Counted,
    in_leaf: F,
) -> Option<u16>
    requires policy_value { nodes_fit file.policy.now ≡ true }
    requires policy_value_2 { summed (map steps_owned (nodes file.policy.now)) ≡ file.m }
    requires may { (at count : ℕ) (set : ActionSet) → LeafAt file.policy.now at count set.bits → F.pre in_leaf at count set }
    requires inside { (at count o : ℕ) (set : ActionSet) → F.post in_leaf at count set (Some o) → o < count }
    ensures { (off : Search)
        → ((at count : ℕ) (set : ActionSet) (r : Option ℕ)
        → F.post in_leaf at count set r → spot_of r ≡ off set.bits (code_at file.entry.policy.now at count))
        → spot_of result ≡ first_in_leaves off 0 (nodes_with_steps file.entry.policy.now) }
{
    let steps = node_place(file.n);
    let mut first = 0;
    for i in 0..file.n {
        let place = node_place(i);
        let count = usize::from(node_count(file.policy, place));
        if let Kind::Leaf = node_kind(file.policy, place) {
            if let Some(o) = in_leaf(
                steps + STEP_SIZE * first,
                count,
                node_set(file.policy, place),
            ) {
                return on_record(first + usize::from(o));
            }
        }
        first += count;
    }
    None
}

pub fn wrong6(file: Counted) -> Option<u16>
    requires policy_value { nodes_fit file.policy.now ≡ true }
    ensures { spot_of result ≡ wrong6 file.entry.policy.now }
{
    if !all_owned(file) {
        return Some(0);
    }
    first_in_leaves(file, |at, count, set| {
        stray_step(file.policy, at, count, set)
    })
}

pub fn wrong7(file: Counted) -> Option<u16>
    requires policy_value { nodes_fit file.policy.now ≡ true }
    requires policy_value_2 { broken6 file.policy.now ≡ false }
    ensures { spot_of result ≡ wrong7 file.entry.policy.now }
{
    first_in_leaves(file, |at, count, _| lost_step(file.policy, at, count))
}

pub fn wrong8(file: Counted) -> Option<u16>
    requires policy_value { nodes_fit file.policy.now ≡ true }
    requires policy_value_2 { broken6 file.policy.now ≡ false }
    ensures { spot_of result ≡ wrong8 file.entry.policy.now }
{
    first_in_leaves(file, |at, count, set| {
        untaken_step(file.policy, at, count, set)
    })
}
