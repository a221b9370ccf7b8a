// The regulated set and the effect set of each node's tree, from the last node to the first, and rule 9 by them in the same pass.
#![tactic(auto)]

ghost use Rattle.std.specs.Prelude.{◌≡◌, ◌&&◌, ◌+◌, ◌<◌, length, get_or};
ghost use Rattle.spec_policy.specs.Records.{most_nodes};
ghost use Rattle.spec_policy.specs.Tree.{regulated};
ghost use Rattle.spec_check.specs.Interference.{leaf_effects, effects, crossed, wrong9};
ghost use Rattle.faults.specs.Meaning.{spot_of};
ghost use Rattle.spec_policy.specs.Tree.{tree_at};
ghost use Rattle.file_records.specs.Kinds.{way_of};
ghost use Rattle.check_leaves.specs.Leaves.{LeafValues};
ghost use Rattle.check_interference.specs.Sets.{Treed, RegulatedFrom, EffectsFrom, is_parallel, clash};

use actions::ActionSet;
use check_layout::counted::Counted;
use faults::on_record;
use file_records::{Kind, Way, node_kind, node_left, node_place, node_right, node_set};

// A node's two sets, and whether it is a parallel pair whose sides interfere.
#[derive(Clone, Copy)]
struct NodeSets {
    regulated: ActionSet,
    effects: ActionSet,
    crossed: bool,
}

// The set in an entry.
fn set_at(sets: &[u64], i: usize) -> ActionSet
    requires { i < length sets.now }
    ensures { result.bits ≡ get_or sets.now i 0 }
{
    ActionSet { bits: sets[i] }
}

// The sides of a pair interfere. Only parallel sides do.
fn interfere(way: Way, left: usize, right: usize, regulated: &[u64], effects: &[u64]) -> bool
    requires { (left < length regulated.now) × (right < length regulated.now) × (left < length effects.now) × (right < length effects.now) }
    ensures { result ≡ (is_parallel (way_of way) && clash regulated.now effects.now left right) }
{
    match way {
        Way::Parallel => {
            set_at(effects, left).meets(set_at(regulated, right))
                || set_at(effects, right).meets(set_at(regulated, left))
        }
        Way::Sequential => false,
    }
}

// The sets of node i, and rule 9 of it, by one match of its kind. The walk through a leaf has found its effect set, which its entry holds; the children
// of a pair come after it, and have their sets.
fn node_sets(file: Counted, i: usize, regs: &[u64], effs: &[u64]) -> NodeSets
    requires treed { Treed file.policy.now file.n file.m }
    requires i_lt_n { i < file.n }
    requires leaf_values { LeafValues leaf_effects file.policy.now (i + 1) effs.now }
    requires regulated_from { RegulatedFrom file.policy.now (i + 1) file.n regs.now }
    requires effects_from { EffectsFrom file.policy.now (i + 1) file.n effs.now }
    ensures bits_value { result.regulated.bits ≡ regulated (tree_at file.entry.policy.now i) }
    ensures bits_value_2 { result.effects.bits ≡ effects (tree_at file.entry.policy.now i) }
    ensures crossed_value { result.crossed ≡ crossed (tree_at file.entry.policy.now i) }
{
    let place = node_place(i);
    match node_kind(file.policy, place) {
        Kind::Leaf => NodeSets {
            regulated: node_set(file.policy, place),
            effects: set_at(effs, i),
            crossed: false,
        },
        Kind::Pair(way, _) => {
            let left = usize::from(node_left(file.policy, place));
            let right = usize::from(node_right(file.policy, place));
            NodeSets {
                regulated: set_at(regs, left).union(set_at(regs, right)),
                effects: set_at(effs, left).union(set_at(effs, right)),
                crossed: interfere(way, left, right, regs, effs),
            }
        }
        _ => NodeSets {
            regulated: ActionSet::EMPTY,
            effects: ActionSet::EMPTY,
            crossed: false,
        },
    }
}

// The first node whose sides interfere: the nodes go down, so the last that is found is the first. Before, each leaf's entry in `effects` has its effect
// set; after, every node's entries have its two sets.
pub fn wrong9(file: Counted, regulated: &mut [u64], effects: &mut [u64]) -> Option<u16>
    requires treed { Treed file.policy.now file.n file.m }
    requires leaf_values { LeafValues leaf_effects file.policy.now file.n effects.old }
    requires regulated_len { length regulated.old ≡ most_nodes }
    ensures result_value { spot_of result ≡ wrong9 file.entry.policy.now }
    ensures regulated_from { RegulatedFrom file.entry.policy.now 0 file.entry.n regulated.new }
    ensures effects_from { EffectsFrom file.entry.policy.now 0 file.entry.n effects.new }
{
    let mut found = None;
    for i in (0..file.n).rev() {
        let sets = node_sets(file, i, regulated, effects);
        regulated[i] = sets.regulated.bits;
        effects[i] = sets.effects.bits;
        if sets.crossed {
            found = on_record(i);
        }
    }
    found
}
