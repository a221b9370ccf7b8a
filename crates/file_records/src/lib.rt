// Reading the policy where the caller keeps it: big-endian numbers, the fields of its records, and a step as an enum. No record is
// copied. Each function asks that what it reads is inside the slice, which rule 3 gives of every record.
#![tactic(auto)]

ghost use Rattle.std.specs.Prelude.{◌≡◌, ◌+◌, ◌*◌, ◌≤◌, ◌<◌, length};
ghost use Rattle.spec_policy.specs.Bytes.{number};
ghost use Rattle.spec_policy.specs.Records.{front_size, node_size, step_size, node_count, step_count, node_place, node_at, step_record_at};
ghost use Rattle.spec_policy.specs.Steps.{step_of};
ghost use Rattle.spec_policy.specs.Tree.{node_kind};
ghost use Rattle.file_records.specs.Kinds.{kind_of, step_value};

use actions::ActionSet;

// ---- the file's sizes and numbers, each named once in code

pub const FRONT_SIZE: usize = 6;

pub const NODE_SIZE: usize = 16;

pub const STEP_SIZE: usize = 12;

pub const MOST_NODES: usize = 31;

pub const MOST_STEPS: usize = 512;

pub const MOST_LEAF_STEPS: usize = 64;

// The length of the longest file that can pass the check.
pub const MOST_FILE: usize = 6646;

pub const VERSION: u8 = 1;

// Kinds of nodes and of steps, as the file has them: `node_kind` and `step_at` below make the enums of them.
pub const LEAF: u8 = 1;

pub const TRIVIAL: u8 = 2;

pub const UNSATISFIABLE: u8 = 3;

pub const AND: u8 = 4;

pub const SEQ_AND: u8 = 5;

pub const OR: u8 = 6;

pub const SEQ_OR: u8 = 7;

pub const NEXT: u8 = 1;

pub const OK: u8 = 2;

pub const SUP: u8 = 3;

pub const INS: u8 = 4;

pub const ACASE: u8 = 5;

pub const SPEND: u8 = 6;

pub const END: u8 = 7;

pub const HALT: u8 = 8;

// ---- numbers

pub fn byte(s: &[u8], at: usize) -> u8
    requires { at < length s.now }
    ensures { result ≡ number s.now at 1 }
{
    s[at]
}

pub fn word16(s: &[u8], at: usize) -> u64
    requires { at + 2 ≤ length s.now }
    ensures { (result ≡ number s.now at 2) × (result < 65536) }
{
    u64::from(u16::from_be_bytes([s[at], s[at + 1]]))
}

pub fn word32(s: &[u8], at: usize) -> u64
    requires { at + 4 ≤ length s.now }
    ensures { (result ≡ number s.now at 4) × (result < 4294967296) }
{
    u64::from(u32::from_be_bytes([s[at], s[at + 1], s[at + 2], s[at + 3]]))
}

pub fn word64(s: &[u8], at: usize) -> u64
    requires { at + 8 ≤ length s.now }
    ensures { result ≡ number s.now at 8 }
{
    u64::from_be_bytes([
        s[at],
        s[at + 1],
        s[at + 2],
        s[at + 3],
        s[at + 4],
        s[at + 5],
        s[at + 6],
        s[at + 7],
    ])
}

// ---- the front

// The two counts.
#[tactic(auto, unfolding(spec_policy::specs::Records::node_count))]
pub fn nodes_of(policy: &[u8]) -> usize
    requires { front_size ≤ length policy.now }
    ensures { (result ≡ node_count policy.now) × (result < 65536) }
{
    usize::from(byte(policy, 3))
}

#[tactic(auto, unfolding(spec_policy::specs::Records::step_count))]
pub fn steps_of(policy: &[u8]) -> usize
    requires { front_size ≤ length policy.now }
    ensures { (result ≡ step_count policy.now) × (result < 65536) }
{
    word16(policy, 4) as usize
}

// ---- nodes

#[derive(Clone, Copy)]
pub enum Way {
    Parallel,
    Sequential,
}

#[derive(Clone, Copy)]
pub enum Join {
    And,
    Or,
}

#[derive(Clone, Copy)]
pub enum Kind {
    Leaf,
    Trivial,
    Unsatisfiable,
    Pair(Way, Join),
    Unknown,
}

// Where node i's record begins.
#[tactic(auto, unfolding(spec_policy::specs::Records::node_place))]
pub fn node_place(i: usize) -> usize
    requires { i ≤ 255 }
    ensures { result ≡ node_place i }
{
    FRONT_SIZE + NODE_SIZE * i
}

#[tactic(auto, unfolding(spec_policy::specs::Records::node_at, spec_policy::specs::Tree::node_kind, crate::specs::Kinds::kind_of))]
pub fn node_kind(policy: &[u8], at: usize) -> Kind
    requires { at + node_size ≤ length policy.now }
    ensures { kind_of result ≡ node_kind (node_at policy.now at).kind }
{
    match byte(policy, at) {
        LEAF => Kind::Leaf,
        TRIVIAL => Kind::Trivial,
        UNSATISFIABLE => Kind::Unsatisfiable,
        AND => Kind::Pair(Way::Parallel, Join::And),
        SEQ_AND => Kind::Pair(Way::Sequential, Join::And),
        OR => Kind::Pair(Way::Parallel, Join::Or),
        SEQ_OR => Kind::Pair(Way::Sequential, Join::Or),
        _ => Kind::Unknown,
    }
}

#[tactic(auto, unfolding(spec_policy::specs::Records::node_at))]
pub fn node_left(policy: &[u8], at: usize) -> u8
    requires { at + node_size ≤ length policy.now }
    ensures { result ≡ (node_at policy.now at).left }
{
    byte(policy, at + 1)
}

#[tactic(auto, unfolding(spec_policy::specs::Records::node_at))]
pub fn node_right(policy: &[u8], at: usize) -> u8
    requires { at + node_size ≤ length policy.now }
    ensures { result ≡ (node_at policy.now at).right }
{
    byte(policy, at + 2)
}

#[tactic(auto, unfolding(spec_policy::specs::Records::node_at))]
pub fn node_count(policy: &[u8], at: usize) -> u8
    requires { at + node_size ≤ length policy.now }
    ensures { result ≡ (node_at policy.now at).count }
{
    byte(policy, at + 3)
}

#[tactic(auto, unfolding(spec_policy::specs::Records::node_at))]
pub fn node_start(policy: &[u8], at: usize) -> u64
    requires { at + node_size ≤ length policy.now }
    ensures { (result ≡ (node_at policy.now at).start) × (result < 4294967296) }
{
    word32(policy, at + 4)
}

#[tactic(auto, unfolding(spec_policy::specs::Records::node_at))]
pub fn node_set(policy: &[u8], at: usize) -> ActionSet
    requires { at + node_size ≤ length policy.now }
    ensures { result.bits ≡ (node_at policy.now at).set }
{
    ActionSet {
        bits: word64(policy, at + 8),
    }
}

// ---- steps

// What a step works with.
#[derive(Clone, Copy)]
pub enum Operand {
    Action(u8),
    Set(ActionSet),
    Amount(u64),
}

// A step holds its kind, and with it where it goes on.
#[derive(Clone, Copy)]
pub enum Step {
    Next(u8, u8),
    Ok(u8),
    Sup(u8),
    Ins(Operand, u8),
    Acase(Operand, u8, u8),
    Spend(Operand, u8, u8),
    End,
    Halt,
}

#[tactic(auto, unfolding(spec_policy::specs::Records::step_record_at, spec_policy::specs::Steps::step_of, crate::specs::Kinds::step_value))]
pub fn step_at(policy: &[u8], at: usize) -> Step
    requires { at + step_size ≤ length policy.now }
    ensures { result ≡ step_value (step_of (step_record_at policy.now at)) }
{
    let first = byte(policy, at + 2);
    let second = byte(policy, at + 3);
    match byte(policy, at) {
        NEXT => Step::Next(first, second),
        OK => Step::Ok(first),
        SUP => Step::Sup(first),
        INS => Step::Ins(Operand::Action(byte(policy, at + 1)), first),
        ACASE => Step::Acase(
            Operand::Set(ActionSet {
                bits: word64(policy, at + 4),
            }),
            first,
            second,
        ),
        SPEND => Step::Spend(Operand::Amount(word64(policy, at + 4)), first, second),
        END => Step::End,
        _ => Step::Halt,
    }
}
