// The turn: a node's phase, from its begin to its end. An insert goes up from the leaf that makes it: each sequential node on whose left side it is made
// gives it to its right side as a turn of its own. A phase is one number: the action that it is about, before the verdict; 64 after it; 65 at closing.
#![tactic(auto)]

ghost use Rattle.std.specs.Prelude.{◌≡◌, true, false, List, ℕ, ◌≤◌, ◌<◌, eqb};
ghost use Rattle.actions.specs.Sets.{Action, has};
ghost use Rattle.spec_policy.specs.Tree.{parallel, sequential, aLeaf, aPair};
ghost use Rattle.spec_turns.specs.Turn.{after};
ghost use Rattle.turn_memory.specs.Words.{Words};
ghost use Rattle.turn_memory.specs.Phases.{after_number, phase_of};
ghost use Rattle.turn_sides.specs.Sides.{kind_at, join_at};
ghost use Rattle.turn_tables.specs.Tables.{path_at};
ghost use Rattle.turn_ends.specs.Ends.{ended};
ghost use Rattle.turn_place.specs.Places.{Stands, Sequential, Asked};
ghost use Rattle.turn_node.specs.Turns.{TurnsAt, LeftEnds, Emits, Feeds, Owing, Rises, Settles};

use actions::ActionSet;
use file_records::{Kind, Way};
use file_view::view_kind;
use turn_ends::{ACCEPTED, STOPPED, SUPPRESSED, caught, over, par_end, reread, seq_end};
use turn_leaf::Progress;
use turn_memory::{AFTER, WORDS, let_out};
use turn_place::{begin_leaf, lets_on, run_leaf, taker};
use turn_sides::{goes_on, is_asked, joined_at, left_of, right_of};
use turn_state::{ENDED, HALTED, is_running};
use turn_tables::NONE;
use turn_tally::STEP_COUNTS;

// A node's phase: only a node that is asked has one.
#[cycle(turns)]
pub fn turn(
    policy: &[u8],
    mem: &mut [u64; WORDS],
    node: usize,
    phase: u8,
    counts: &mut [u32; STEP_COUNTS],
    counting: bool,
) -> usize
    requires { Stands policy.now mem.old node }
    ensures { TurnsAt counting policy.now counts.old counts.new
        node (phase_of phase) mem.old mem.new result }
{
    if !is_asked(mem, node, phase) {
        return ACCEPTED;
    }
    asked_turn(policy, mem, node, phase, counts, counting)
}

// The phase of a node that is asked.
#[cycle(turns)]
fn asked_turn(
    policy: &[u8],
    mem: &mut [u64; WORDS],
    node: usize,
    phase: u8,
    counts: &mut [u32; STEP_COUNTS],
    counting: bool,
) -> usize
    requires { Stands policy.now mem.old node × Asked policy.now mem.old node (phase_of phase) }
    ensures { TurnsAt counting policy.now counts.old counts.new
        node (phase_of phase) mem.old mem.new result }
{
    let kind = view_kind(policy, node);
    match kind {
        Kind::Leaf => leaf(policy, mem, node, phase, counts, counting),
        Kind::Trivial => over(mem, node, ENDED),
        Kind::Unsatisfiable => over(mem, node, HALTED),
        Kind::Pair(way, _) => match way {
            Way::Parallel => parallel(policy, mem, node, phase, counts, counting),
            Way::Sequential => sequential(policy, mem, node, phase, counts, counting),
        },
        Kind::Unknown => over(mem, node, ENDED),
    }
}

// ---- a leaf

// "A leaf's: go on to a next, end or halt": each insert goes its way before the leaf goes on.
#[cycle(turns)]
fn leaf(
    policy: &[u8],
    mem: &mut [u64; WORDS],
    node: usize,
    phase: u8,
    counts: &mut [u32; STEP_COUNTS],
    counting: bool,
) -> usize
    requires { Stands policy.now mem.old node × ((kind_at policy.now node ≡ aLeaf) × Asked policy.now mem.old node (phase_of phase)) }
    ensures { TurnsAt counting policy.now counts.old counts.new
        node (phase_of phase) mem.old mem.new result }
{
    begin_leaf(policy, mem, node, phase, counts, counting);
    loop {
        let x = run_leaf(policy, mem, node, phase, counts, counting);
        match x {
            Progress::Insert(b) => {
                let r = emit(policy, mem, node, b, counts, counting);
                if r >= STOPPED {
                    return r;
                }
            }
            Progress::Done(u) => {
                return u as usize;
            }
        }
    }
}

// ---- a node with two sides

// "Both asked sides run the phase to its end, left first; then the node's status is read."
#[cycle(turns)]
fn parallel(
    policy: &[u8],
    mem: &mut [u64; WORDS],
    node: usize,
    phase: u8,
    counts: &mut [u32; STEP_COUNTS],
    counting: bool,
) -> usize
    requires { Stands policy.now mem.old node
        × ((kind_at policy.now node ≡ aPair parallel (join_at policy.now node)) × Asked policy.now mem.old node (phase_of phase)) }
    ensures { TurnsAt counting policy.now counts.old counts.new
        node (phase_of phase) mem.old mem.new result }
{
    let x = turn(policy, mem, left_of(policy, node), phase, counts, counting);
    if x >= STOPPED {
        return x;
    }
    let y = turn(policy, mem, right_of(policy, node), phase, counts, counting);
    if y >= STOPPED {
        return y;
    }
    par_end(policy, mem, node, phase, x, y)
}

// "Before: the left side runs if asked"; "a sequential node closes its left side first". After the verdict the right side goes first.
#[cycle(turns)]
fn sequential(
    policy: &[u8],
    mem: &mut [u64; WORDS],
    node: usize,
    phase: u8,
    counts: &mut [u32; STEP_COUNTS],
    counting: bool,
) -> usize
    requires { Stands policy.now mem.old node × (Sequential policy.now node × Asked policy.now mem.old node (phase_of phase)) }
    ensures { TurnsAt counting policy.now counts.old counts.new
        node (phase_of phase) mem.old mem.new result }
{
    if phase == AFTER {
        return right_first(policy, mem, node, counts, counting);
    }
    let x = turn(policy, mem, left_of(policy, node), phase, counts, counting);
    if x >= STOPPED {
        return caught(x, node);
    }
    after_left(policy, mem, node, phase, x, counts, counting)
}

// "After: the right first, if it was asked on a, then the left, if asked".
#[cycle(turns)]
fn right_first(
    policy: &[u8],
    mem: &mut [u64; WORDS],
    node: usize,
    counts: &mut [u32; STEP_COUNTS],
    counting: bool,
) -> usize
    requires { Stands policy.now mem.old node × (Sequential policy.now node × Asked policy.now mem.old node after) }
    ensures { TurnsAt counting policy.now counts.old counts.new
        node after mem.old mem.new result }
{
    let y = turn(policy, mem, right_of(policy, node), AFTER, counts, counting);
    if y >= STOPPED {
        return y;
    }
    if !is_running(joined_at(policy, mem, node)) {
        return seq_end(policy, mem, node, AFTER, ACCEPTED);
    }
    let x = turn(policy, mem, left_of(policy, node), AFTER, counts, counting);
    if x >= STOPPED {
        return caught(x, node);
    }
    seq_end(policy, mem, node, AFTER, x)
}

// The right side's own part, or the end: "If the left suppressed a, the verdict is suppressed; otherwise the right is asked."
#[cycle(turns)]
fn after_left(
    policy: &[u8],
    mem: &mut [u64; WORDS],
    node: usize,
    phase: u8,
    x: usize,
    counts: &mut [u32; STEP_COUNTS],
    counting: bool,
) -> usize
    requires { Stands policy.now mem.old node × (Sequential policy.now node × ((x < 2) × (phase ≡ after_number → ⊥))) }
    ensures { LeftEnds counting policy.now counts.old counts.new
        node (phase_of phase) mem.old mem.new (eqb x 1) (ended result) }
{
    if !goes_on(
        phase,
        is_running(joined_at(policy, mem, node)),
        x == SUPPRESSED,
    ) {
        return seq_end(policy, mem, node, phase, x);
    }
    let y = turn(policy, mem, right_of(policy, node), phase, counts, counting);
    if y >= STOPPED {
        return y;
    }
    seq_end(policy, mem, node, phase, y)
}

// ---- inserts

// An insert of a node goes its way: up, as far as the right sides let it, and down again.
#[cycle(turns)]
fn emit(
    policy: &[u8],
    mem: &mut [u64; WORDS],
    node: usize,
    b: u8,
    counts: &mut [u32; STEP_COUNTS],
    counting: bool,
) -> usize
    requires { Stands policy.now mem.old node }
    ensures { Emits counting policy.now counts.old counts.new
        (path_at policy.now mem.old node) b mem.old mem.new (ended result) }
{
    let risen = rise(policy, mem, node, b, counts, counting);
    if risen.code >= STOPPED {
        return risen.code;
    }
    sink(policy, mem, risen.top, node, risen.fed, counts, counting)
}

// How far an insert rose: the nodes whose right side took it, the last of them, and the node that stopped it, if one did.
#[derive(Clone, Copy)]
pub struct Risen {
    pub fed: ActionSet,
    pub top: usize,
    pub code: usize,
}

// "each insert of the left side that the right regulates is given to the right as a turn of its own. Accepted, it is emitted between that turn's phases".
#[cycle(turns)]
fn rise(
    policy: &[u8],
    mem: &mut [u64; WORDS],
    node: usize,
    b: u8,
    counts: &mut [u32; STEP_COUNTS],
    counting: bool,
) -> Risen
    requires { Stands policy.now mem.old node }
    ensures { Rises counting policy.now counts.old counts.new
        (path_at policy.now mem.old node) b mem.old mem.new node result }
{
    let mut fed = ActionSet::EMPTY;
    let mut at = node;
    loop {
        let next = taker(policy, mem, at, b);
        if next == NONE {
            let_out(mem, b);
            return Risen {
                fed,
                top: at,
                code: ACCEPTED,
            };
        }
        at = next;
        let x = asked_turn(policy, mem, right_of(policy, at), b, counts, counting);
        if x >= STOPPED {
            return Risen {
                fed,
                top: at,
                code: x,
            };
        }
        fed = fed.union(ActionSet::single(at as u8));
        if !lets_on(policy, mem, at, x) {
            return Risen {
                fed,
                top: at,
                code: ACCEPTED,
            };
        }
    }
}

// The nodes that took it, from above, which is by their numbers: each has its part to do.
#[cycle(turns)]
fn sink(
    policy: &[u8],
    mem: &mut [u64; WORDS],
    top: usize,
    node: usize,
    fed: ActionSet,
    counts: &mut [u32; STEP_COUNTS],
    counting: bool,
) -> usize
    requires { Stands policy.now mem.old node
        × ((k : ℕ) → top ≤ k → k < node → has fed.bits k ≡ true → Feeds policy.now mem.old node k) }
    ensures { (ws : Words) (cs : List ℕ) (b : Action)
        → Owing counting policy.now cs counts.old
        (path_at policy.now mem.old node) b ws mem.old node top fed.bits
        → Emits counting policy.now cs counts.new
        (path_at policy.now mem.old node) b ws mem.new (ended result) }
{
    let mut at = top;
    while at < node {
        if fed.has(at as u8) {
            let x = settle_insert(policy, mem, at, counts, counting);
            if x >= STOPPED {
                return x;
            }
        }
        at += 1;
    }
    ACCEPTED
}

// A node's part once an insert is through above it: its right side's phase after the verdict, and "Status is read after each insert".
#[cycle(turns)]
fn settle_insert(
    policy: &[u8],
    mem: &mut [u64; WORDS],
    node: usize,
    counts: &mut [u32; STEP_COUNTS],
    counting: bool,
) -> usize
    requires { Stands policy.now mem.old node × Sequential policy.now node }
    ensures { Settles counting policy.now counts.old counts.new
        node mem.old mem.new (ended result) }
{
    let x = turn(policy, mem, right_of(policy, node), AFTER, counts, counting);
    if x >= STOPPED {
        return x;
    }
    reread(policy, mem, node)
}
