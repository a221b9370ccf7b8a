// The leaves in node order: that they own all steps, and the walk through each of them.
#![tactic(auto)]

ghost use Rattle.std.specs.Prelude.{◌≡◌, true, map, eqb, length};
ghost use Rattle.spec_policy.specs.Lists.{summed};
ghost use Rattle.spec_policy.specs.Records.{most_nodes, nodes};
ghost use Rattle.spec_policy.specs.Tree.{steps_owned};
ghost use Rattle.check_layout.specs.Fits.{nodes_fit};
ghost use Rattle.check_leaves.specs.Leaves.{LeavesFound};

use check_layout::counted::Counted;
use check_layout::steps_kept;
use check_leaf::walk;
use faults::Refusal;
use file_records::{STEP_SIZE, node_count, node_place, node_set};

// The leaves own all m steps.
pub fn all_owned(file: Counted) -> bool
    requires policy_value { nodes_fit file.policy.now ≡ true }
    ensures { result ≡ eqb (summed (map steps_owned (nodes file.entry.policy.now))) file.entry.m }
{
    let mut sum = 0;
    for i in 0..file.n {
        sum += usize::from(node_count(file.policy, node_place(i)));
    }
    sum == file.m
}

// The lowest of rules 4, 6, 7 and 8 that a leaf or its step records break. If none is broken, each leaf's entry has its effect set and its
// inserts. By rule 4 a leaf counts steps, and no other node does: so a count tells a leaf, and moves on to the next node's steps.
pub fn walk_leaves(file: Counted, effects: &mut [u64], inserts: &mut [u32]) -> Result<(), Refusal>
    requires policy_value { nodes_fit file.policy.now ≡ true }
    requires policy_value_2 { summed (map steps_owned (nodes file.policy.now)) ≡ file.m }
    requires effects_len { (length effects.old ≡ most_nodes) × (length inserts.old ≡ most_nodes) }
    ensures { LeavesFound file.entry.policy.now file.entry.n result effects.new inserts.new }
{
    let mut modes = true;
    let mut taken = true;
    let mut at = node_place(file.n);
    for i in 0..file.n {
        let place = node_place(i);
        let count = usize::from(node_count(file.policy, place));
        if count > 0 {
            let leaf = match walk(file.policy, at, count, node_set(file.policy, place)) {
                Ok(leaf) => leaf,
                Err(Refusal::Targets) => {
                    steps_kept(file)?;
                    return Err(Refusal::Targets);
                }
                Err(broken) => return Err(broken),
            };
            modes &= leaf.modes;
            taken &= leaf.taken;
            effects[i] = leaf.effects.bits;
            inserts[i] = leaf.inserts;
            at += STEP_SIZE * count;
        }
    }
    if !modes {
        return Err(Refusal::Modes);
    }
    if !taken {
        return Err(Refusal::Branches);
    }
    Ok(())
}
