// Rule 5, the tree rule: one pass that tests each child's number and counts it, then one over the counts; and which node breaks it.
#![tactic(auto)]

ghost use Rattle.std.specs.Prelude.{◌≡◌, [], ◌∷◌, ℕ, ◌+◌, ◌*◌, ◌≤◌, ◌<◌, ◌==◌, T, length, get_or, slice_range};
ghost use Rattle.std.specs.List.{list_all};
ghost use Rattle.spec_policy.specs.Lists.{listed, every_at, occurs};
ghost use Rattle.spec_policy.specs.Records.{node_size, most_nodes, node_at, node_place, nodes};
ghost use Rattle.spec_check.specs.Children.{later, children, wrong5, broken5};
ghost use Rattle.faults.specs.Meaning.{spot_of};
ghost use Rattle.check_children.specs.Pair.{pair_of};

use check_layout::counted::Counted;
use faults::on_record;
use file_records::{Kind, MOST_NODES, node_kind, node_left, node_place, node_right};

// The two children of the node whose record is at `at`, if it is a pair.
fn children(policy: &[u8], at: usize) -> Option<(usize, usize)>
    requires { at + node_size ≤ length policy.now }
    ensures { pair_of result ≡ children (node_at policy.now at ∷ []) }
{
    match node_kind(policy, at) {
        Kind::Pair(_, _) => Some((
            usize::from(node_left(policy, at)),
            usize::from(node_right(policy, at)),
        )),
        _ => None,
    }
}

// Whether the children of node i, whose record is at `at`, have numbers greater than i and less than n.
fn children_later(policy: &[u8], at: usize, i: usize, n: usize) -> bool
    requires { at + node_size ≤ length policy.now }
    ensures { result ≡ later n i (node_at policy.now at) }
{
    match children(policy, at) {
        Some((left, right)) => (i < left) & (left < n) & (i < right) & (right < n),
        None => true,
    }
}

// Tests the children of node i, whose record is at `at`, and counts them. The i nodes before it have at most 2 * i children, so no
// count overflows.
fn count_node(policy: &[u8], at: usize, i: usize, n: usize, count: &mut [u8]) -> bool
    requires node_size_in_bounds { at + node_size ≤ length policy.now }
    requires i_lt_n { (i < n) × (n ≤ most_nodes) }
    requires n_in_bounds { n ≤ length count.old }
    requires by_index { (k : ℕ) → get_or count.old k 0 ≤ 2 * i }
    ensures value { result ≡ later n i (node_at policy.now at) }
    ensures k_after { T result → (k : ℕ) → get_or count.new k 0
        ≡ occurs k (children (node_at policy.now at ∷ [])) + get_or count.old k 0 }
{
    if !children_later(policy, at, i, n) {
        return false;
    }
    if let Some((left, right)) = children(policy, at) {
        count[left] += 1;
        count[right] += 1;
    }
    true
}

// Whether each child's number is greater than its parent's and less than n; how often each number is a child is then in `count`.
fn count_nodes(policy: &[u8], n: usize, count: &mut [u8]) -> bool
    requires n_in_bounds { (node_place n ≤ length policy.now) × (n ≤ most_nodes) }
    requires n_in_bounds_2 { n ≤ length count.old }
    requires by_index { (k : ℕ) → get_or count.old k 0 ≡ 0 }
    ensures value { result ≡ every_at (later n) 0 (listed (λ i. node_at policy.now (node_place i)) 0 n) }
    ensures k_after { T result → (k : ℕ) → get_or count.new k 0
        ≡ occurs k (children (listed (λ i. node_at policy.now (node_place i)) 0 n)) }
{
    for i in 0..n {
        if !count_node(policy, node_place(i), i, n, count) {
            return false;
        }
    }
    true
}

// Whether every number from 1 on and below n is counted once.
fn each_once(count: &[u8], n: usize) -> bool
    requires { (1 ≤ n) × (n ≤ length count.now) }
    ensures { result ≡ list_all (λ times. times == 1) (slice_range count.now 1 n) }
{
    count[1..n].iter().all(|times| *times == 1)
}

pub fn broken5(file: Counted) -> bool
    ensures { result ≡ broken5 file.entry.policy.now }
{
    let mut count = [0; MOST_NODES];
    !count_nodes(file.policy, file.n, &mut count) || !each_once(&count, file.n)
}

// ---- which node breaks the rule, asked only once it is known to be broken

// How often the node whose record is at `at` names k as its child.
fn names(policy: &[u8], at: usize, k: usize) -> usize
    requires { at + node_size ≤ length policy.now }
    ensures { (result ≡ occurs k (children (node_at policy.now at ∷ []))) × (result ≤ 2) }
{
    match children(policy, at) {
        Some((left, right)) => usize::from(left == k) + usize::from(right == k),
        None => 0,
    }
}

// How often k is named as a child: every naming counts, a bad one too.
fn named(file: Counted, k: usize) -> usize
    ensures { result ≡ occurs k (children (nodes file.entry.policy.now)) }
{
    let mut sum = 0;
    for i in 0..file.n {
        sum += names(file.policy, node_place(i), k);
    }
    sum
}

// The walk's own test counts each child as it is named and ends at a bad one, so that it knows no count then: here the namings of each node are
// counted anew.
pub fn wrong5(file: Counted) -> Option<u16>
    ensures { spot_of result ≡ wrong5 file.entry.policy.now }
{
    for i in 0..file.n {
        let later = children_later(file.policy, node_place(i), i, file.n);
        let once = (i == 0) | (named(file, i) == 1);
        if !(later & once) {
            return on_record(i);
        }
    }
    None
}
