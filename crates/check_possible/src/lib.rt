// What is possible at a step of a leaf: the sets of its offsets, and more joined to one of them.
#![tactic(auto)]

ghost use Rattle.std.specs.Prelude.{◌≡◌, ◌<◌, length};
ghost use Rattle.spec_check.specs.Possible.{join_at};
ghost use Rattle.spec_policy.specs.Records.{most_leaf_steps};

use actions::ActionSet;
use file_records::MOST_LEAF_STEPS;

// The set at one offset, with more joined to it.
pub fn join_at(sets: &mut [u64; MOST_LEAF_STEPS], o: usize, more: ActionSet)
    requires { (o < most_leaf_steps) × (length sets.old ≡ most_leaf_steps) }
    ensures { sets.new ≡ join_at sets.old o more.bits }
{
    let held = ActionSet { bits: sets[o] };
    sets[o] = held.union(more).bits;
}
