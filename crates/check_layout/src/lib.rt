// Rules 1 to 4: the file's front, and the layout of its records. A rule's tests are joined by `&` and `|`, as its definition joins
// them: every field is read, and no branch is taken for each of them.
#![tactic(auto)]

ghost use Rattle.std.specs.Prelude.{◌≡◌, ◌+◌, ◌*◌, ◌≤◌, ◌<◌, length};
ghost use Rattle.spec_policy.specs.Lists.{every};
ghost use Rattle.spec_policy.specs.Records.{node_size, step_size, most_nodes, node_count, node_at, step_record_at, node_place, step_records, front_size};
ghost use Rattle.spec_policy.specs.Tree.{node_kind};
ghost use Rattle.spec_check.specs.Layout.{broken1, broken2, broken3, node_fits, step_fits};
ghost use Rattle.check_layout.specs.Fits.{unfit_node, unfit_step, kept_or4, kept_if, read_as};
ghost use Rattle.faults.specs.Meaning.{spot_of};

pub mod counted;

use actions::{ActionSet, LAST_ACTION};
use counted::Counted;
use faults::{Refusal, on_record};
use file_records::{
    ACASE, END, FRONT_SIZE, HALT, INS, Kind, MOST_LEAF_STEPS, MOST_NODES, MOST_STEPS, NEXT,
    NODE_SIZE, OK, Operand, SPEND, STEP_SIZE, SUP, Step, VERSION, byte, node_count, node_kind,
    node_left, node_place, node_right, node_set, node_start, nodes_of, steps_of, word16, word32,
};

// What one in the higher half of an operand counts.
const HIGHER_HALF: u64 = 1 << 32;

pub fn broken1(policy: &[u8]) -> bool
    ensures { result ≡ broken1 policy.now }
{
    if policy.len() < FRONT_SIZE {
        return true;
    }
    word16(policy, 0) as usize != policy.len()
}

pub fn broken2(policy: &[u8]) -> bool
    requires { front_size ≤ length policy.now }
    ensures { result ≡ broken2 policy.now }
{
    byte(policy, 2) != VERSION
}

pub fn broken3(policy: &[u8]) -> bool
    requires { front_size ≤ length policy.now }
    ensures { result ≡ broken3 policy.now }
{
    let n = nodes_of(policy);
    let m = steps_of(policy);
    let in_range = (1 <= n) & (n <= MOST_NODES) & (m <= MOST_STEPS);
    !in_range | (policy.len() != FRONT_SIZE + NODE_SIZE * n + STEP_SIZE * m)
}

fn node_fits(policy: &[u8], at: usize) -> bool
    requires { at + node_size ≤ length policy.now }
    ensures { result ≡ node_fits (node_kind (node_at policy.now at).kind) (node_at policy.now at) }
{
    let no_left = node_left(policy, at) == 0;
    let no_right = node_right(policy, at) == 0;
    let count = usize::from(node_count(policy, at));
    let no_start = node_start(policy, at) == 0;
    let no_set = node_set(policy, at).is_empty();
    match node_kind(policy, at) {
        Kind::Leaf => no_left & no_right & (1 <= count) & (count <= MOST_LEAF_STEPS) & !no_set,
        Kind::Trivial | Kind::Unsatisfiable => {
            no_left & no_right & (count == 0) & no_start & no_set
        }
        Kind::Pair(_, _) => (count == 0) & no_start & no_set,
        Kind::Unknown => false,
    }
}

// The step of a record that keeps rule 4; of one that breaks it, the same as an error.
#[tactic(auto, unfolding(crate::specs::Fits::kept_if))]
fn kept(fits: bool, step: Step) -> Result<Step, Step>
    ensures { result ≡ kept_if fits step }
{
    if fits { Ok(step) } else { Err(step) }
}

// A step record as the walk reads it: its step, and whether its fields keep rule 4. The operand is read in two halves: all but two kinds ask that both
// are zero, and a spend asks it of the high one. A compiler reads each in one load, which it does not where the whole is asked to be zero.
#[inline(always)]
pub fn read_step(policy: &[u8], at: usize) -> Result<Step, Step>
    requires { at + step_size ≤ length policy.now }
    ensures { result ≡ read_as (step_record_at policy.now at) }
{
    let action = byte(policy, at + 1);
    let first = byte(policy, at + 2);
    let second = byte(policy, at + 3);
    let high = word32(policy, at + 4);
    let low = word32(policy, at + 8);
    let no_action = action == 0;
    let no_first = first == 0;
    let no_second = second == 0;
    let no_high = high == 0;
    let no_low = low == 0;
    match byte(policy, at) {
        NEXT => kept(no_action & (no_high & no_low), Step::Next(first, second)),
        OK => kept(no_action & no_second & (no_high & no_low), Step::Ok(first)),
        SUP => kept(no_action & no_second & (no_high & no_low), Step::Sup(first)),
        INS => kept(
            (action <= LAST_ACTION) & no_second & (no_high & no_low),
            Step::Ins(Operand::Action(action), first),
        ),
        ACASE => {
            let asked = ActionSet {
                bits: high * HIGHER_HALF + low,
            };
            kept(no_action, Step::Acase(Operand::Set(asked), first, second))
        }
        SPEND => {
            let amount = high * HIGHER_HALF + low;
            kept(
                no_action & no_high,
                Step::Spend(Operand::Amount(amount), first, second),
            )
        }
        END => kept(
            no_action & no_first & no_second & (no_high & no_low),
            Step::End,
        ),
        HALT => kept(
            no_action & no_first & no_second & (no_high & no_low),
            Step::Halt,
        ),
        _ => Err(Step::Halt),
    }
}

fn step_fits(policy: &[u8], at: usize) -> bool
    requires { at + step_size ≤ length policy.now }
    ensures { result ≡ step_fits (step_record_at policy.now at) }
{
    read_step(policy, at).is_ok()
}

// ---- rule 4, of every record

// The first node that breaks rule 4.
pub fn unfit_node(policy: &[u8], n: usize) -> Option<u16>
    requires { (n ≡ node_count policy.now) × (n ≤ most_nodes) × (node_place n ≤ length policy.now) }
    ensures { spot_of result ≡ unfit_node policy.now }
{
    for i in 0..n {
        if !node_fits(policy, node_place(i)) {
            return on_record(i);
        }
    }
    None
}

// The first step record that breaks rule 4, counted from n on.
pub fn unfit_step(file: Counted) -> Option<u16>
    ensures { spot_of result ≡ unfit_step file.entry.policy.now }
{
    let at = node_place(file.n);
    for i in 0..file.m {
        if !step_fits(file.policy, at + STEP_SIZE * i) {
            return on_record(file.n + i);
        }
    }
    None
}

// Rule 4 of the step records. It has a lower number than the rules after it: one of these is answered as broken only where it is kept.
pub fn steps_kept(file: Counted) -> Result<(), Refusal>
    ensures { result ≡ kept_or4 (every step_fits (step_records file.entry.policy.now)) }
{
    match unfit_step(file) {
        None => Ok(()),
        Some(_) => Err(Refusal::Fields),
    }
}
