// Rule 6 of one target: it is in the leaf, and ahead of its step or a next.
#![tactic(auto)]

ghost use Rattle.std.specs.Prelude.{◌≡◌, true, List, ◌+◌, ◌≤◌, ◌<◌, length};
ghost use Rattle.spec_policy.specs.Steps.{Step};
ghost use Rattle.spec_check.specs.Targets.{target_fits};
ghost use Rattle.check_modes.specs.Marks.{NextsBefore};
ghost use Rattle.spec_policy.specs.Records.{most_leaf_steps};

use check_modes::has_bit;

// Target t of the step at offset o. A target that is not later was walked before, or is the step itself: `nexts` has those that are nexts.
pub fn target_fits(nexts: u64, count: usize, o: usize, t: usize) -> bool
    requires { count ≤ most_leaf_steps }
    ensures value { (code : List Step) → length code ≡ count → NextsBefore (o + 1) nexts code → result ≡ target_fits code o t }
    ensures t_lt_count { result ≡ true → t < count }
{
    t < count && (o < t || has_bit(nexts, t))
}
