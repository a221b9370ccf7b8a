// One walk through a leaf's steps: rule 4 of their records, rules 6, 7 and 8 of the leaf, its effect set, and how many ins steps it has.
#![tactic(auto)]

ghost use Rattle.std.specs.Prelude.{◌+◌, ◌*◌, ◌≤◌, length};
ghost use Rattle.file_records.specs.Code.{code_at};
ghost use Rattle.check_layout.specs.Fits.{steps_fit};
ghost use Rattle.check_leaf.specs.Leaf.{LeafFound, Begun};
ghost use Rattle.spec_policy.specs.Records.{most_leaf_steps, step_size};

use actions::ActionSet;
use check_layout::read_step;
use check_modes::{each_once, first_mark};
use check_steps::{Walk, meet};
use faults::Refusal;
use file_records::{MOST_LEAF_STEPS, STEP_SIZE};

// Of a leaf that keeps rules 4 and 6: rule 7, rule 8, the effect set and the number of ins steps.
#[derive(Clone, Copy)]
pub struct Walked {
    pub modes: bool,
    pub taken: bool,
    pub effects: ActionSet,
    pub inserts: u32,
}

// Where a walk begins: nothing is found yet.
fn begun() -> Walk
    ensures { Begun result }
{
    Walk {
        modes: true,
        taken: true,
        marks: first_mark(),
        nexts: 0,
        effects: ActionSet::EMPTY,
        inserts: 0,
    }
}

// A walk ends at a step that breaks rule 4 or rule 6. What it has found by then says nothing of the leaf, and so is not given.
pub fn walk(policy: &[u8], at: usize, count: usize, set: ActionSet) -> Result<Walked, Refusal>
    requires { (at + step_size * count ≤ length policy.now) × (1 ≤ count) × (count ≤ most_leaf_steps) }
    ensures { LeafFound result set.bits (steps_fit policy.now at count) (code_at policy.now at count) }
{
    let mut w = begun();
    let mut sets = [0u64; MOST_LEAF_STEPS];
    for o in 0..count {
        let step = read_step(policy, at + STEP_SIZE * o).or(Err(Refusal::Fields))?;
        w = meet(w, o, count, set, step, &mut sets).ok_or(Refusal::Targets)?;
    }
    Ok(Walked {
        modes: w.modes & each_once(w.nexts, count, w.marks),
        taken: w.taken,
        effects: w.effects,
        inserts: w.inserts,
    })
}
