// A node's sides in the file, how their statuses join, and what the node decides from them.
#![tactic(auto)]

ghost use Rattle.std.specs.Prelude.{◌≡◌, ◌+◌, ◌<◌, eqb, get_or};
ghost use Rattle.spec_policy.specs.Records.{most_nodes};
ghost use Rattle.spec_policy.specs.Tree.{and, or};
ghost use Rattle.spec_turns.specs.Status.{status_of, joined};
ghost use Rattle.spec_turns.specs.Turn.{still_asked};
ghost use Rattle.file_records.specs.Kinds.{join_of};
ghost use Rattle.turn_memory.specs.Words.{set_place, memory_of};
ghost use Rattle.turn_memory.specs.Phases.{after_number, phase_of};
ghost use Rattle.turn_paths.specs.Choices.{emits, goes_on, end_sup, asked_in, joined_in};
ghost use Rattle.turn_sides.specs.Sides.{left_at, right_at, join_at, Placed, Sided};

use actions::ActionSet;
use file_records::{Join, Kind};
use file_view::{view_kind, view_left, view_right};
use turn_memory::{AFTER, SETS, WORDS, mark_at, status_at};
use turn_state::{
    ENDED, ENDED_LEFT, ENDED_RIGHT, HALTED, RUNNING, has_ended, is_halted, is_running,
};

// ---- a node's record

pub fn left_of(policy: &[u8], node: usize) -> usize
    requires { Placed policy.now node }
    ensures { result ≡ left_at policy.now node }
{
    view_left(policy, node) as usize
}

pub fn right_of(policy: &[u8], node: usize) -> usize
    requires { Placed policy.now node }
    ensures { result ≡ right_at policy.now node }
{
    view_right(policy, node) as usize
}

pub fn join_of(policy: &[u8], node: usize) -> Join
    requires { Placed policy.now node }
    ensures { join_of result ≡ join_at policy.now node }
{
    let kind = view_kind(policy, node);
    match kind {
        Kind::Leaf => Join::And,
        Kind::Trivial => Join::And,
        Kind::Unsatisfiable => Join::And,
        Kind::Pair(_, j) => j,
        Kind::Unknown => Join::And,
    }
}

// ---- statuses

// "And": halted once a side has halted; ended once both have ended.
fn join_and(l: u8, r: u8) -> u8
    ensures { status_of result ≡ joined and (status_of l) (status_of r) }
{
    if is_halted(l) {
        return HALTED;
    }
    if is_halted(r) {
        return HALTED;
    }
    if has_ended(l) {
        if has_ended(r) {
            return ENDED;
        }
    }
    RUNNING
}

// "Or": ended left once the left has ended, otherwise ended right once the right has ended; halted once both have halted.
fn join_or(l: u8, r: u8) -> u8
    ensures { status_of result ≡ joined or (status_of l) (status_of r) }
{
    if has_ended(l) {
        return ENDED_LEFT;
    }
    if has_ended(r) {
        return ENDED_RIGHT;
    }
    if is_halted(l) {
        if is_halted(r) {
            return HALTED;
        }
    }
    RUNNING
}

// Sides that both run decide nothing. They are most of what is asked, so that this is asked first.
pub fn join(j: Join, l: u8, r: u8) -> u8
    ensures { status_of result ≡ joined (join_of j) (status_of l) (status_of r) }
{
    if is_running(l) & is_running(r) {
        return RUNNING;
    }
    match j {
        Join::And => join_and(l, r),
        Join::Or => join_or(l, r),
    }
}

// ---- a sequential node's choices

// Whether an insert that was given to the right side goes out, once its phase before the verdict has ended (u: it was suppressed).
pub fn emits(j: Join, s: u8, u: bool) -> bool
    ensures { result ≡ emits (join_of j) (status_of s) u }
{
    match j {
        Join::And => {
            if is_halted(s) {
                return false;
            }
            !u
        }
        Join::Or => {
            if is_halted(s) {
                return true;
            }
            !u
        }
    }
}

// Whether the right side has a part of its own after the left side's end: before the verdict, unless the left side suppressed the action, and at closing.
pub fn goes_on(phase: u8, runs: bool, u: bool) -> bool
    requires { phase ≡ after_number → ⊥ }
    ensures { result ≡ goes_on (phase_of phase) runs u }
{
    if phase < AFTER {
        if u {
            return false;
        }
    }
    runs
}

// Only before the verdict is there an action to suppress.
pub fn end_sup(phase: u8, u: bool) -> bool
    ensures { result ≡ end_sup (phase_of phase) u }
{
    if phase < AFTER {
        return u;
    }
    false
}

// A node that was asked before the verdict and still runs is asked again after it.
pub fn mark_of(phase: u8) -> u8
    ensures { (eqb result 1 ≡ still_asked (phase_of phase)) × (result < 256) }
{
    if phase < AFTER {
        return 1;
    }
    0
}

// ---- what a node's cell tells

// "Only a running node that regulates a is asked"; after the verdict one that was asked before it; at closing every one that runs.
pub fn is_asked(mem: &[u64; WORDS], node: usize, phase: u8) -> bool
    requires { node < most_nodes }
    ensures { result ≡ asked_in (get_or mem.now (set_place + node) 0) (phase_of phase) (memory_of mem.now node) }
{
    if !is_running(status_at(mem, node)) {
        return false;
    }
    if phase < AFTER {
        let set = ActionSet {
            bits: mem[SETS + node],
        };
        return set.has(phase);
    }
    if phase == AFTER {
        return mark_at(mem, node) == 1;
    }
    true
}

// The status that a node's sides give it.
pub fn joined_at(policy: &[u8], mem: &[u64; WORDS], node: usize) -> u8
    requires { Sided policy.now node }
    ensures { status_of result ≡ joined_in (join_at policy.now node)
        (left_at policy.now node) (right_at policy.now node) (memory_of mem.now) }
{
    let left = status_at(mem, left_of(policy, node));
    let right = status_at(mem, right_of(policy, node));
    join(join_of(policy, node), left, right)
}
