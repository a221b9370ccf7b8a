// The policy view: the file where the caller keeps it, its two counts beside it, and thin getters of its records. No record is copied.
// Each getter asks that the record lies in the file, which rule 3 gives of every record.
#![tactic(auto)]

ghost use Rattle.std.specs.Prelude.{◌≡◌, ◌+◌, ◌*◌, ◌≤◌, ◌<◌, length};
ghost use Rattle.spec_policy.specs.Records.{front_size, node_count, step_count, node_size, step_size, node_place, node_at, step_record_at};
ghost use Rattle.spec_policy.specs.Steps.{step_of};
ghost use Rattle.spec_policy.specs.Tree.{node_kind};
ghost use Rattle.file_records.specs.Kinds.{kind_of, step_value};

use actions::ActionSet;
use file_records::{
    Kind, STEP_SIZE, Step, byte, node_count, node_kind, node_left, node_place, node_right,
    node_set, node_start, nodes_of, step_at, steps_of,
};

#[derive(Clone, Copy)]
pub struct PolicyView<'a> {
    pub file: &'a [u8],
    pub nodes: usize,
    pub steps: usize,
}

// The view that an entry point takes of the caller's file.
pub fn view_of<'a>(file: &'a [u8]) -> PolicyView<'a>
    requires { front_size ≤ length file.now }
    ensures { (result.file ≡ file.entry) × ((result.nodes ≡ node_count file.now) × (result.steps ≡ step_count file.now)) }
{
    PolicyView {
        file,
        nodes: nodes_of(file),
        steps: steps_of(file),
    }
}

// ---- a node's record, by its number

pub fn kind<'a>(view: PolicyView<'a>, node: usize) -> Kind
    requires { (node ≤ 255) × (node_place node + node_size ≤ length view.file.now) }
    ensures { kind_of result ≡ node_kind (node_at view.entry.file.now (node_place node)).kind }
{
    node_kind(view.file, node_place(node))
}

pub fn left<'a>(view: PolicyView<'a>, node: usize) -> u8
    requires { (node ≤ 255) × (node_place node + node_size ≤ length view.file.now) }
    ensures { result ≡ (node_at view.entry.file.now (node_place node)).left }
{
    node_left(view.file, node_place(node))
}

pub fn right<'a>(view: PolicyView<'a>, node: usize) -> u8
    requires { (node ≤ 255) × (node_place node + node_size ≤ length view.file.now) }
    ensures { result ≡ (node_at view.entry.file.now (node_place node)).right }
{
    node_right(view.file, node_place(node))
}

pub fn count<'a>(view: PolicyView<'a>, node: usize) -> u8
    requires { (node ≤ 255) × (node_place node + node_size ≤ length view.file.now) }
    ensures { result ≡ (node_at view.entry.file.now (node_place node)).count }
{
    node_count(view.file, node_place(node))
}

pub fn start<'a>(view: PolicyView<'a>, node: usize) -> u64
    requires { (node ≤ 255) × (node_place node + node_size ≤ length view.file.now) }
    ensures { (result ≡ (node_at view.entry.file.now (node_place node)).start) × (result < 4294967296) }
{
    node_start(view.file, node_place(node))
}

pub fn set<'a>(view: PolicyView<'a>, node: usize) -> ActionSet
    requires { (node ≤ 255) × (node_place node + node_size ≤ length view.file.now) }
    ensures { result.bits ≡ (node_at view.entry.file.now (node_place node)).set }
{
    node_set(view.file, node_place(node))
}

// ---- a step's record, by its number

// The steps' records begin where the nodes' end.
fn step_place<'a>(view: PolicyView<'a>, number: usize) -> usize
    requires { (view.nodes ≤ 255) × (node_place view.nodes + step_size * number + step_size ≤ length view.file.now) }
    ensures { result ≡ node_place view.entry.nodes + step_size * number }
{
    node_place(view.nodes) + STEP_SIZE * number
}

pub fn step<'a>(view: PolicyView<'a>, number: usize) -> Step
    requires { (view.nodes ≤ 255) × (node_place view.nodes + step_size * number + step_size ≤ length view.file.now) }
    ensures { result ≡ step_value (step_of (step_record_at view.entry.file.now (node_place view.entry.nodes + step_size * number))) }
{
    step_at(view.file, step_place(view, number))
}

#[tactic(auto, unfolding(spec_policy::specs::Records::step_record_at))]
pub fn step_kind<'a>(view: PolicyView<'a>, number: usize) -> u8
    requires { (view.nodes ≤ 255) × (node_place view.nodes + step_size * number + step_size ≤ length view.file.now) }
    ensures { result ≡ (step_record_at view.entry.file.now (node_place view.entry.nodes + step_size * number)).kind }
{
    byte(view.file, step_place(view, number))
}

#[tactic(auto, unfolding(spec_policy::specs::Records::step_record_at))]
pub fn step_first<'a>(view: PolicyView<'a>, number: usize) -> u8
    requires { (view.nodes ≤ 255) × (node_place view.nodes + step_size * number + step_size ≤ length view.file.now) }
    ensures { result ≡ (step_record_at view.entry.file.now (node_place view.entry.nodes + step_size * number)).first }
{
    byte(view.file, step_place(view, number) + 2)
}

#[tactic(auto, unfolding(spec_policy::specs::Records::step_record_at))]
pub fn step_second<'a>(view: PolicyView<'a>, number: usize) -> u8
    requires { (view.nodes ≤ 255) × (node_place view.nodes + step_size * number + step_size ≤ length view.file.now) }
    ensures { result ≡ (step_record_at view.entry.file.now (node_place view.entry.nodes + step_size * number)).second }
{
    byte(view.file, step_place(view, number) + 3)
}

// ---- the same of the file itself, for those that read it after the check: each makes a view and asks it.

pub fn view_kind(policy: &[u8], node: usize) -> Kind
    requires { (node ≤ 255) × (node_place node + node_size ≤ length policy.now) }
    ensures { kind_of result ≡ node_kind (node_at policy.now (node_place node)).kind }
{
    kind(view_of(policy), node)
}

pub fn view_left(policy: &[u8], node: usize) -> u8
    requires { (node ≤ 255) × (node_place node + node_size ≤ length policy.now) }
    ensures { result ≡ (node_at policy.now (node_place node)).left }
{
    left(view_of(policy), node)
}

pub fn view_right(policy: &[u8], node: usize) -> u8
    requires { (node ≤ 255) × (node_place node + node_size ≤ length policy.now) }
    ensures { result ≡ (node_at policy.now (node_place node)).right }
{
    right(view_of(policy), node)
}

pub fn view_count(policy: &[u8], node: usize) -> u8
    requires { (node ≤ 255) × (node_place node + node_size ≤ length policy.now) }
    ensures { result ≡ (node_at policy.now (node_place node)).count }
{
    count(view_of(policy), node)
}

pub fn view_start(policy: &[u8], node: usize) -> u64
    requires { (node ≤ 255) × (node_place node + node_size ≤ length policy.now) }
    ensures { (result ≡ (node_at policy.now (node_place node)).start) × (result < 4294967296) }
{
    start(view_of(policy), node)
}

pub fn view_set(policy: &[u8], node: usize) -> ActionSet
    requires { (node ≤ 255) × (node_place node + node_size ≤ length policy.now) }
    ensures { result.bits ≡ (node_at policy.now (node_place node)).set }
{
    set(view_of(policy), node)
}

pub fn view_step(policy: &[u8], number: usize) -> Step
    requires { (node_count policy.now ≤ 255) × (node_place (node_count policy.now) + step_size * number + step_size ≤ length policy.now) }
    ensures { result ≡ step_value (step_of (step_record_at policy.now (node_place (node_count policy.now) + step_size * number))) }
{
    step(view_of(policy), number)
}

pub fn view_step_kind(policy: &[u8], number: usize) -> u8
    requires { (node_count policy.now ≤ 255) × (node_place (node_count policy.now) + step_size * number + step_size ≤ length policy.now) }
    ensures { result ≡ (step_record_at policy.now (node_place (node_count policy.now) + step_size * number)).kind }
{
    step_kind(view_of(policy), number)
}

pub fn view_step_first(policy: &[u8], number: usize) -> u8
    requires { (node_count policy.now ≤ 255) × (node_place (node_count policy.now) + step_size * number + step_size ≤ length policy.now) }
    ensures { result ≡ (step_record_at policy.now (node_place (node_count policy.now) + step_size * number)).first }
{
    step_first(view_of(policy), number)
}

pub fn view_step_second(policy: &[u8], number: usize) -> u8
    requires { (node_count policy.now ≤ 255) × (node_place (node_count policy.now) + step_size * number + step_size ≤ length policy.now) }
    ensures { result ≡ (step_record_at policy.now (node_place (node_count policy.now) + step_size * number)).second }
{
    step_second(view_of(policy), number)
}
