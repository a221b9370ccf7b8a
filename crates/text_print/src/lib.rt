// A policy's records printed as text, whatever they hold, on slices that the caller lends. As much of the text is written as there is room for,
// so on no room it is measured.
#![tactic(auto)]

ghost use Rattle.std.specs.Prelude.{ℕ, ◌≡◌, [], ◌+◌, ◌*◌, ◌/◌, ◌^◌, ◌<◌, ◌≤◌, length, drop};
ghost use Rattle.spec_policy.specs.Bytes.{Bytes};
ghost use Rattle.spec_policy.specs.Records.{node_size, step_size};
ghost use Rattle.spec_text.specs.Printing.{shown_left, shown_records};
ghost use Rattle.text_append.specs.Added.{Added};
ghost use Rattle.text_print.specs.Led.{led_steps, led_records, steps_owned};

use file_records::{NODE_SIZE, STEP_SIZE};
use text_append::append;
use text_forms::fields::counted;
use text_forms::forms::Sort;
use text_lines::record_line;

// What leads a step's line, by the step's number over the whole file.
pub trait Lead {
    ghost words: { Self → ℕ → Bytes };

    fn append_lead(&self, out: &mut [u8], at: usize, step: usize) -> usize
        ensures { Added out.old at (words self.now step) out.new result };
}

// Nothing: the lines are the policy's text.
#[derive(Clone, Copy)]
struct Bare;

impl Lead for Bare {
    ghost words = { λ _ _. [] };

    fn append_lead(&self, _out: &mut [u8], at: usize, _step: usize) -> usize {
        at
    }
}

// The lines of these steps. The first is number `first` over the whole file, and number `offset` in its leaf.
fn step_lines<L: Lead>(
    out: &mut [u8],
    at: usize,
    steps: &[u8],
    lead: &L,
    offset: usize,
    first: usize,
) -> usize
    requires { (offset + length steps.now < 2 ^ 64) × (first + length steps.now < 2 ^ 64) }
    ensures { Added out.old at (led_steps (L.words lead.now) (length steps.now / step_size) offset first steps.now) out.new result }
{
    let mut end = at;
    for (i, step) in steps.chunks_exact(STEP_SIZE).enumerate() {
        let led = lead.append_lead(out, end, first + i);
        end = record_line(out, led, step, Sort::Step, offset + i);
    }
    end
}

// Where the lines end, and how many steps they tell.
#[derive(Clone, Copy)]
pub struct Told {
    pub end: usize,
    pub steps: usize,
}

// Every node's line, and those of its steps: the next ones that no node before it has.
pub fn record_lines<L: Lead>(
    out: &mut [u8],
    at: usize,
    nodes: &[u8],
    steps: &[u8],
    lead: &L,
) -> Told
    ensures told { Added out.old at (led_records (L.words lead.now) nodes.now steps.now) out.new result.end }
    ensures steps { result.steps ≡ steps_owned (length nodes.now / node_size) nodes.now steps.now }
    ensures there { step_size * result.steps ≤ length steps.now }
{
    let mut end = at;
    let mut first = 0;
    let mut left = steps;
    for (i, node) in nodes.chunks_exact(NODE_SIZE).enumerate() {
        let had = usize::from(counted(node, Sort::Node)).min(left.len() / STEP_SIZE);
        let (own, others) = left.split_at(STEP_SIZE * had);
        let named = record_line(out, end, node, Sort::Node, i);
        end = step_lines(out, named, own, lead, 0, first);
        first += had;
        left = others;
    }
    Told { end, steps: first }
}

// The lines of the steps that no node has. The first is number `first` over the whole file.
fn left_lines(out: &mut [u8], at: usize, steps: &[u8], first: usize) -> usize
    requires { first + length steps.now < 2 ^ 64 }
    ensures { Added out.old at (shown_left (length steps.now / step_size) first steps.now) out.new result }
{
    if steps.len() < STEP_SIZE {
        return at;
    }
    let told = append(out, at, b"# steps of no leaf\n");
    step_lines(out, told, steps, &Bare, first, first)
}

// Every record's line, with those of the steps that no node has.
pub fn print(out: &mut [u8], at: usize, nodes: &[u8], steps: &[u8]) -> usize
    ensures { Added out.old at (shown_records nodes.now steps.now) out.new result }
{
    let told = record_lines(out, at, nodes, steps, &Bare);
    let (_, left) = steps.split_at(STEP_SIZE * told.steps);
    left_lines(out, told.end, left, told.steps)
}
