// A leaf's part of a phase: how it begins, and its run from where it is up to its next insert or to the phase's end.
#![tactic(auto)]

ghost use Rattle.std.specs.Prelude.{◌≡◌, true, ℕ, ◌<◌, length, get_or};
ghost use Rattle.spec_policy.specs.Records.{most_nodes};
ghost use Rattle.spec_policy.specs.Steps.{halt};
ghost use Rattle.spec_policy.specs.Tree.{leaf, first_step};
ghost use Rattle.spec_turns.specs.Turn.{affords, is_asked};
ghost use Rattle.file_records.specs.Code.{code_from, StepsIn};
ghost use Rattle.file_records.specs.Kinds.{step_meant, ins_of, acase_of, spend_of};
ghost use Rattle.turn_paths.specs.Memory.{held};
ghost use Rattle.turn_memory.specs.Words.{word_count, memory_of};
ghost use Rattle.turn_memory.specs.Phases.{phase_of, pending_in};
ghost use Rattle.turn_leaf.specs.Leaf.{Taken, Passing, Stopped, leaving, begins, left_counted, Left, Ran};

use file_records::{NEXT, Operand, Step};
use file_view::{view_step, view_step_first, view_step_kind, view_step_second};
use turn_memory::{AFTER, MARKED, UNMARKED, WORDS, counter_at, offset_at, put};
use turn_state::{ENDED, HALTED, RUNNING};
use turn_tally::{STEP_COUNTS, count_step};

// What a leaf's run came to: an insert, after which it goes on; or its phase's end, and whether it suppressed.
#[derive(Clone, Copy)]
pub enum Progress {
    Insert(u8),
    Done(bool),
}

// What ends a leaf's run: it stays at a next; it stops at the target, and whether it suppressed; it inserts, to go on from the
// target; it is over, with its status.
#[derive(Clone, Copy)]
pub enum Last {
    Stay,
    Stops(u8, bool),
    Inserts(u8, u8),
    Over(u8),
}

// Where one step leads: on at the target with what is left of the counter; or to the run's end; or, at a next, nowhere: a next runs when it is left.
#[derive(Clone, Copy)]
pub enum Move {
    On(u8, u64),
    Ends(Last),
    Stays,
}

// How far a leaf goes by itself: what ended the run, and the offset and the counter there.
#[derive(Clone, Copy)]
pub struct Stop {
    pub last: Last,
    pub offset: u8,
    pub counter: u64,
}

// "Spend shall go to its yes target when the counter is at least n."
fn affords(counter: u64, amount: u64) -> bool
    ensures { result ≡ affords counter amount }
{
    counter >= amount
}

fn inserts(x: Operand, to: u8, counter: u64) -> Move
    ensures { (a : ℕ) → Taken (ins_of x to) a counter result }
{
    match x {
        Operand::Action(b) => Move::Ends(Last::Inserts(b, to)),
        Operand::Set(_) => Move::Ends(Last::Over(HALTED)),
        Operand::Amount(_) => Move::Ends(Last::Over(HALTED)),
    }
}

fn cases(x: Operand, yes: u8, otherwise: u8, action: u8, counter: u64) -> Move
    ensures { Taken (acase_of x yes otherwise) action counter result }
{
    match x {
        Operand::Action(_) => Move::Ends(Last::Over(HALTED)),
        Operand::Set(s) => {
            if s.has(action) {
                Move::On(yes, counter)
            } else {
                Move::On(otherwise, counter)
            }
        }
        Operand::Amount(_) => Move::Ends(Last::Over(HALTED)),
    }
}

fn spends(x: Operand, yes: u8, otherwise: u8, counter: u64) -> Move
    ensures { (a : ℕ) → Taken (spend_of x yes otherwise) a counter result }
{
    match x {
        Operand::Action(_) => Move::Ends(Last::Over(HALTED)),
        Operand::Set(_) => Move::Ends(Last::Over(HALTED)),
        Operand::Amount(n) => {
            if affords(counter, n) {
                let rest = counter - n;
                Move::On(yes, rest)
            } else {
                Move::On(otherwise, counter)
            }
        }
    }
}

fn one_step(step: Step, action: u8, counter: u64) -> Move
    ensures { Taken (step_meant step) action counter result }
{
    match step {
        Step::Next(_, _) => Move::Stays,
        Step::Ok(t) => Move::Ends(Last::Stops(t, false)),
        Step::Sup(t) => Move::Ends(Last::Stops(t, true)),
        Step::Ins(x, t) => inserts(x, t, counter),
        Step::Acase(x, y, z) => cases(x, y, z, action, counter),
        Step::Spend(x, y, z) => spends(x, y, z, counter),
        Step::End => Move::Ends(Last::Over(ENDED)),
        Step::Halt => Move::Ends(Last::Over(HALTED)),
    }
}

// The leaf goes on, over steps that no one sees, up to what ends its run. Past its last step it halts.
fn go_on(
    policy: &[u8],
    first: usize,
    count: usize,
    action: u8,
    offset: u8,
    counter: u64,
    counts: &mut [u32; STEP_COUNTS],
    counting: bool,
) -> Stop
    requires { StepsIn policy.now first count × Passing (code_from policy.now first count) }
    ensures { Stopped counting policy.now first counts.old counts.new
        (code_from policy.now first count) action offset counter result }
{
    if offset as usize >= count {
        count_step(counts, counting, first + offset as usize);
        return Stop {
            last: Last::Over(HALTED),
            offset,
            counter,
        };
    }
    let mut o = offset;
    let mut n = counter;
    loop {
        let number = first + o as usize;
        let step = view_step(policy, number);
        let m = one_step(step, action, n);
        match m {
            Move::On(t, k) => {
                count_step(counts, counting, number);
                o = t;
                n = k;
            }
            Move::Ends(x) => {
                count_step(counts, counting, number);
                return Stop {
                    last: x,
                    offset: o,
                    counter: n,
                };
            }
            Move::Stays => {
                return Stop {
                    last: Last::Stay,
                    offset: o,
                    counter: n,
                };
            }
        }
    }
}

// ---- where a phase begins

// Where a next leads when it is left: to its take target, at closing to its done target. What is no next leads nowhere. Only here is a
// step not read as an enum: of a next that is left one target is wanted, and the enum's reader then has one caller, which it is compiled into.
fn leaving(policy: &[u8], first: usize, count: usize, offset: u8, closing: bool) -> u8
    requires { StepsIn policy.now first count }
    ensures { result ≡ leaving closing (get_or (code_from policy.now first count) offset halt) }
{
    let ahead = offset as usize;
    if ahead >= count {
        return 0;
    }
    let number = first + ahead;
    if view_step_kind(policy, number) != NEXT {
        return 0;
    }
    if closing {
        return view_step_second(policy, number);
    }
    view_step_first(policy, number)
}

fn begin(policy: &[u8], first: usize, count: usize, offset: u8, phase: u8) -> u8
    requires { StepsIn policy.now first count }
    ensures { result ≡ begins (phase_of phase) (code_from policy.now first count) offset }
{
    if phase == AFTER {
        return offset;
    }
    leaving(policy, first, count, offset, phase > AFTER)
}

// A next that is left has run: this one, where the phase leaves one.
fn count_left(counts: &mut [u32; STEP_COUNTS], counting: bool, phase: u8, number: usize)
    ensures { counts.new ≡ left_counted counting (phase_of phase) counts.old number }
{
    if phase == AFTER {
        return;
    }
    count_step(counts, counting, number);
}

// "Before: go from take .. After: go on": a next is left as the phase begins, but not after the verdict. Writes where the leaf is.
pub fn leave(
    policy: &[u8],
    mem: &mut [u64; WORDS],
    node: usize,
    first: usize,
    count: usize,
    phase: u8,
    counts: &mut [u32; STEP_COUNTS],
    counting: bool,
)
    requires mem_len { (length mem.old ≡ word_count) × (node < most_nodes) }
    requires steps_in { StepsIn policy.now first count × (first ≡ first_step policy.now node) }
    ensures { let code = code_from policy.now first count in
        ((r start : ℕ) → is_asked r (phase_of phase) (held (leaf node r start code) (memory_of mem.old)) ≡ true
        → Left node r start code (phase_of phase) counting policy.now
        counts.old counts.new mem.old mem.new) }
{
    let offset = offset_at(mem, node);
    count_left(counts, counting, phase, first + offset as usize);
    let to = begin(policy, first, count, offset, phase);
    let counter = counter_at(mem, node);
    put(mem, node, RUNNING, to, UNMARKED, counter);
}

// The action that is pending: none after the verdict and at closing.
fn pending(phase: u8) -> u8
    ensures { result ≡ pending_in (phase_of phase) }
{
    if phase < AFTER {
        return phase;
    }
    0
}

// Up to the leaf's next insert, or to its phase's end. A leaf that stops for the verdict is marked, to be asked after it; one that is over has
// offset and counter zero.
pub fn run(
    policy: &[u8],
    mem: &mut [u64; WORDS],
    node: usize,
    first: usize,
    count: usize,
    phase: u8,
    counts: &mut [u32; STEP_COUNTS],
    counting: bool,
) -> Progress
    requires mem_len { (length mem.old ≡ word_count) × (node < most_nodes) }
    requires steps_in { (StepsIn policy.now first count × (first ≡ first_step policy.now node)) × Passing (code_from policy.now first count) }
    ensures { let code = code_from policy.now first count in
        ((r start : ℕ) → Ran node r start code (phase_of phase) counting policy.now
        counts.old counts.new mem.old mem.new result) }
{
    let offset = offset_at(mem, node);
    let counter = counter_at(mem, node);
    let x = go_on(
        policy,
        first,
        count,
        pending(phase),
        offset,
        counter,
        counts,
        counting,
    );
    let last = x.last;
    match last {
        Last::Stay => {
            put(mem, node, RUNNING, x.offset, UNMARKED, x.counter);
            Progress::Done(false)
        }
        Last::Stops(t, u) => {
            put(mem, node, RUNNING, t, MARKED, x.counter);
            Progress::Done(u)
        }
        Last::Inserts(b, t) => {
            put(mem, node, RUNNING, t, UNMARKED, x.counter);
            Progress::Insert(b)
        }
        Last::Over(s) => {
            put(mem, node, s, 0, UNMARKED, 0);
            Progress::Done(false)
        }
    }
}
