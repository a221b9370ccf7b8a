// Rule 12: whether a saved state fits a passed policy. Nodes are taken from the last to the first, so a pair finds its sides tested.
#![tactic(auto)]

ghost use Rattle.std.specs.Prelude.{◌≡◌, false, ◌&&◌, ◌||◌, not, ℕ, ◌+◌, ◌*◌, ◌≤◌, ◌<◌, eqb, length, get_or};
ghost use Rattle.std.specs.Bool.{beq};
ghost use Rattle.actions.specs.Sets.{ActionSet};
ghost use Rattle.spec_policy.specs.Lists.{one, among};
ghost use Rattle.spec_policy.specs.Records.{most_nodes, node_count, step_count, node_at, node_place, most_leaf_steps};
ghost use Rattle.spec_policy.specs.Tree as spec;
ghost use Rattle.spec_policy.specs.Tree.{first_step, tree_at};
ghost use Rattle.spec_check.specs.Passed.{Passed};
ghost use Rattle.file_records.specs.Kinds.{join_of};
ghost use Rattle.file_records.specs.Code.{code_from, StepsIn};
ghost use Rattle.spec_turns.specs.Status.{status_of, is_running};
ghost use Rattle.spec_turns.specs.Saved.{state_size, cells, statuses, undecided, bare, waits_at, fits_under, zeros_up_to, count_fits, fits};
ghost use Rattle.call_fits.specs.Alone.{fits_alone};

use file_records::{Join, Kind, MOST_NODES, NEXT};
use file_view::{view_count, view_kind, view_left, view_right, view_start, view_step_kind};
use turn_state::{
    DROPPED, ENDED, ENDED_LEFT, ENDED_RIGHT, HALTED, RUNNING, has_ended, is_ahead, is_empty_from,
    is_halted, saved_counter, saved_offset, saved_status, saved_zeros,
};

// ---- one record of the state

#[tactic(auto, unfolding(spec_turns::specs::Saved::bare))]
fn bare(state: &[u8], i: usize) -> bool
    requires { (length state.now ≡ state_size) × (i < most_nodes) }
    ensures { result ≡ bare (cells state.now) i }
{
    (saved_offset(state, i) == 0) & (saved_counter(state, i) == 0)
}

// A leaf of `count` steps from number `first` on waits at a next: of a step only the kind is read.
fn waits(policy: &[u8], first: usize, count: usize, start: u64, state: &[u8], i: usize) -> bool
    requires steps_in { StepsIn policy.now first count × (count ≤ most_leaf_steps) }
    requires state_len { (length state.now ≡ state_size) × (i < most_nodes) }
    ensures { result ≡ waits_at (code_from policy.now first count) start (cells state.now) i }
{
    let offset = usize::from(saved_offset(state, i));
    if count <= offset {
        return false;
    }
    let kind = view_step_kind(policy, first + offset);
    let counter = saved_counter(state, i);
    (kind == NEXT) & (counter <= start)
}

// ---- statuses

// A status that a node of this join can have.
#[tactic(auto, unfolding(spec_policy::specs::Lists::among, spec_turns::specs::Saved::statuses, file_records::specs::Kinds::join_of))]
fn is_status(join: Join, s: u8) -> bool
    ensures { result ≡ among s (statuses (join_of join)) }
{
    match join {
        Join::And => matches!(s, RUNNING | ENDED | HALTED | DROPPED),
        Join::Or => matches!(s, RUNNING | ENDED_LEFT | ENDED_RIGHT | HALTED | DROPPED),
    }
}

#[tactic(auto, unfolding(spec_turns::specs::Saved::undecided, file_records::specs::Kinds::join_of))]
fn undecided(join: Join, l: u8, r: u8) -> bool
    ensures { result ≡ undecided (join_of join) (status_of l) (status_of r) }
{
    match join {
        Join::And => !is_halted(l) & !is_halted(r) & !(has_ended(l) & has_ended(r)),
        Join::Or => !has_ended(l) & !has_ended(r) & !(is_halted(l) & is_halted(r)),
    }
}

// The sides of a running node have not decided it and are not dropped. Sides that both run, which most do, are neither.
fn running_sides_fit(join: Join, l: u8, r: u8) -> bool
    ensures { result ≡ (undecided (join_of join) (status_of l) (status_of r) && not (eqb l 6) && not (eqb r 6)) }
{
    ((l == RUNNING) & (r == RUNNING)) || (undecided(join, l, r) & (l != DROPPED) & (r != DROPPED))
}

// ---- one node, its parent left aside

fn leaf_fits(policy: &[u8], first: usize, count: usize, start: u64, state: &[u8], i: usize) -> bool
    requires steps_in { StepsIn policy.now first count × (count ≤ most_leaf_steps) }
    requires state_len { (length state.now ≡ state_size) × (i < most_nodes) }
    ensures { let code = code_from policy.now first count in
        ((set : ActionSet) → result ≡ fits_alone (spec.leaf i set start code) (cells state.now)) }
{
    let s = saved_status(state, i);
    if s == RUNNING {
        return waits(policy, first, count, start, state, i);
    }
    ((s == ENDED) | (s == HALTED) | (s == DROPPED)) & bare(state, i)
}

// A node that is over when it opens, with this status, and then stands at it until it is dropped: a trivial one, or an unsatisfiable one.
fn constant_fits(over: u8, state: &[u8], i: usize) -> bool
    requires { (length state.now ≡ state_size) × (i < most_nodes) }
    ensures trivial { over ≡ 2 → result ≡ fits_alone (spec.trivial i) (cells state.now) }
    ensures unsatisfiable { over ≡ 5 → result ≡ fits_alone (spec.unsatisfiable i) (cells state.now) }
{
    let s = saved_status(state, i);
    ((s == over) | (s == DROPPED)) & bare(state, i)
}

// `fit` tells whether the sides fit, their parent left aside. Those of a node that does not run are dropped.
fn pair_fits(join: Join, left: usize, right: usize, state: &[u8], i: usize, fit: &[bool]) -> bool
    requires state_len { (length state.now ≡ state_size) × (i < most_nodes) × (left < most_nodes) × (right < most_nodes) }
    requires most_nodes_in_bounds { most_nodes ≤ length fit.now }
    ensures { (w : spec.Way) (l r : spec.Tree) → spec.number_of l ≡ left → spec.number_of r ≡ right
        → get_or fit.now left false ≡ fits_alone l (cells state.now)
        → get_or fit.now right false ≡ fits_alone r (cells state.now)
        → result ≡ fits_alone (spec.node w (join_of join) i l r) (cells state.now) }
{
    let s = saved_status(state, i);
    let l = saved_status(state, left);
    let r = saved_status(state, right);
    if !bare(state, i) {
        return false;
    }
    if s == RUNNING {
        return running_sides_fit(join, l, r) & fit[left] & fit[right];
    }
    is_status(join, s) & (l == DROPPED) & (r == DROPPED) & fit[left] & fit[right]
}

// Node i, whose `count` steps begin with number `first`, with `fit` known of every node after it.
fn node_fits(
    policy: &[u8],
    i: usize,
    first: usize,
    count: usize,
    state: &[u8],
    fit: &[bool],
) -> bool
    requires passed { Passed policy.now × (i < node_count policy.now) }
    requires first_value { (first ≡ first_step policy.now i) × (count ≡ (node_at policy.now (node_place i)).count) }
    requires state_len { (length state.now ≡ state_size) × (most_nodes ≤ length fit.now) }
    requires by_index { (k : ℕ) → i < k → k < node_count policy.now
        → get_or fit.now k false ≡ fits_alone (tree_at policy.now k) (cells state.now) }
    ensures { result ≡ fits_alone (tree_at policy.now i) (cells state.now) }
{
    match view_kind(policy, i) {
        Kind::Leaf => leaf_fits(policy, first, count, view_start(policy, i), state, i),
        // by rule 4 there is no unknown node; the tree would have a trivial one
        Kind::Trivial | Kind::Unknown => constant_fits(ENDED, state, i),
        Kind::Unsatisfiable => constant_fits(HALTED, state, i),
        Kind::Pair(_, join) => {
            let left = usize::from(view_left(policy, i));
            let right = usize::from(view_right(policy, i));
            pair_fits(join, left, right, state, i, fit)
        }
    }
}

// ---- the state

// The nodes, and the count of those that are running leaves. By rule 4 only a leaf counts steps, so each node's count tells whether it is one, and moves
// back to where its own steps begin.
fn tree_fits(policy: &[u8], n: usize, m: usize, state: &[u8]) -> bool
    requires passed { Passed policy.now × (n ≡ node_count policy.now) × (m ≡ step_count policy.now) }
    requires state_len { length state.now ≡ state_size }
    ensures { let t = spec.tree policy.now in
        result ≡ (fits_under false t (cells state.now) && count_fits t state.now) }
{
    let mut fit = [false; MOST_NODES];
    let mut first = m;
    let mut leaves = 0;
    for i in (0..n).rev() {
        let count = usize::from(view_count(policy, i));
        first -= count;
        fit[i] = node_fits(policy, i, first, count, state, &fit);
        if count > 0 {
            leaves += u64::from(saved_status(state, i) == RUNNING);
        }
    }
    fit[0] & (saved_status(state, 0) != DROPPED) & is_ahead(state, leaves)
}

// The two zeros of each of the first n records.
fn zeros_kept(state: &[u8], n: usize) -> bool
    requires { (length state.now ≡ state_size) × (n ≤ most_nodes) }
    ensures { result ≡ zeros_up_to (cells state.now) n }
{
    (0..n).all(|i| saved_zeros(state, i) == 0)
}

pub fn fits(policy: &[u8], n: usize, m: usize, state: &[u8]) -> bool
    requires passed { Passed policy.now × (n ≡ node_count policy.now) × (m ≡ step_count policy.now) }
    requires state_len { length state.now ≡ state_size }
    ensures { result ≡ fits policy.now state.now }
{
    tree_fits(policy, n, m, state) & zeros_kept(state, n) & is_empty_from(state, n)
}
