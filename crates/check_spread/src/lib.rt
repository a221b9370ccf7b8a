// Rule 10, spread: one pass from the last node to the first, each node's children before it. A spread above 255 is kept as 256: a pair's
// is at least its children's, so what is above 255 stays above it, and no sum or product of two kept numbers overflows.
#![tactic(auto)]

ghost use Rattle.std.specs.Prelude.{◌≡◌, false, ◌+◌, ◌≤◌, ◌<◌, length, get_or};
ghost use Rattle.spec_policy.specs.Records.{node_size, node_at};
ghost use Rattle.spec_policy.specs.Tree.{tree_at};
ghost use Rattle.file_records.specs.Kinds.{way_of};
ghost use Rattle.spec_check.specs.Layout.{broken4};
ghost use Rattle.spec_check.specs.Children.{broken5};
ghost use Rattle.spec_check.specs.Targets.{broken6};
ghost use Rattle.spec_check.specs.Spread.{spread_of, wrong10};
ghost use Rattle.faults.specs.Meaning.{spot_of};
ghost use Rattle.check_leaves.specs.Leaves.{inserts_in, LeafValues};
ghost use Rattle.check_spread.specs.Spreads.{cap, capped, KeptFrom};

use check_layout::counted::Counted;
use faults::on_record;
use file_records::{Kind, Way, node_kind, node_left, node_place, node_right};

// What stands for any spread that rule 10 does not let pass, which are those above 255.
const TOO_WIDE: u32 = 256;

fn pair_spread(way: Way, left: u32, right: u32) -> u32
    requires { (left ≤ 256) × (right ≤ 256) }
    ensures { result ≡ cap (spread_of (way_of way) left right) }
{
    let spread = match way {
        Way::Parallel => left + right,
        Way::Sequential => (1 + left) * (1 + right) - 1,
    };
    spread.min(TOO_WIDE)
}

// The spread of the pair whose record begins at `place`, by those of its children.
fn spread_at(policy: &[u8], place: usize, way: Way, spreads: &[u32]) -> u32
    requires node_size_in_bounds { place + node_size ≤ length policy.now }
    requires fact { let x = node_at policy.now place in (x.left < length spreads.now) × (x.right < length spreads.now) }
    requires fact_2 { let x = node_at policy.now place in (get_or spreads.now x.left 0 ≤ 256) × (get_or spreads.now x.right 0 ≤ 256) }
    ensures { let x = node_at policy.now place in
        result ≡ cap (spread_of (way_of way) (get_or spreads.now x.left 0) (get_or spreads.now x.right 0)) }
{
    let left = spreads[usize::from(node_left(policy, place))];
    let right = spreads[usize::from(node_right(policy, place))];
    pair_spread(way, left, right)
}

// The first node whose spread is above 255: the nodes go down, so the last that is found is the first. Before, each leaf's entry has the number of its ins
// steps, which is its spread; after, every node's entry has its spread.
pub fn wrong10(file: Counted, spreads: &mut [u32]) -> Option<u16>
    requires policy_value { broken4 file.policy.now ≡ false }
    requires policy_value_2 { broken5 file.policy.now ≡ false }
    requires policy_value_3 { broken6 file.policy.now ≡ false }
    requires leaf_values { LeafValues inserts_in file.policy.now file.n spreads.old }
    ensures result_value { spot_of result ≡ wrong10 file.entry.policy.now }
    ensures kept_from { KeptFrom file.entry.policy.now file.entry.n 0 spreads.new }
{
    let mut found = None;
    for i in (0..file.n).rev() {
        let place = node_place(i);
        match node_kind(file.policy, place) {
            Kind::Leaf => {}
            Kind::Pair(way, _) => {
                let spread = spread_at(file.policy, place, way, spreads);
                spreads[i] = spread;
                if spread == TOO_WIDE {
                    found = on_record(i);
                }
            }
            _ => {
                spreads[i] = 0;
            }
        }
    }
    found
}

// The root's spread, for who shows it; 256 if it is above 255.
pub fn root_spread(file: Counted, spreads: &mut [u32]) -> u32
    requires policy_value { broken4 file.policy.now ≡ false }
    requires policy_value_2 { broken5 file.policy.now ≡ false }
    requires policy_value_3 { broken6 file.policy.now ≡ false }
    requires leaf_values { LeafValues inserts_in file.policy.now file.n spreads.old }
    ensures { result ≡ capped (tree_at file.entry.policy.now 0) }
{
    wrong10(file, spreads);
    spreads[0]
}
