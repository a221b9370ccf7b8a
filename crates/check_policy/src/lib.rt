// The check: rules 1 to 10, each tried over the whole file, where the caller keeps it, before its answer counts. Rules 6 to 8, and rule 4 of
// the step records, are tried in one walk through each leaf.
#![tactic(auto)]

ghost use Rattle.std.specs.Prelude.{◌≡◌, true};
ghost use Rattle.spec_check.specs.Check.{check};
ghost use Rattle.spec_check.specs.Passed.{spot_by, fault_by};
ghost use Rattle.spec_check.specs.Interference.{leaf_effects};
ghost use Rattle.check_layout.specs.Fits.{nodes_fit};
ghost use Rattle.check_leaves.specs.Leaves.{inserts_in, LeafValues};
ghost use Rattle.faults.specs.Meaning.{spot_of, fault_of, number_of};
ghost use Rattle.check_policy.specs.Answers.{answered, refusal_of};
ghost use Rattle.check_policy.specs.Kept.{FrontKept, LeavesKept, Sought, TreeFound};

use actions::ActionSet;
use check_children::{broken5, wrong5};
use check_interference::wrong9;
use check_layout::counted::Counted;
use check_layout::{broken1, broken2, broken3, steps_kept, unfit_node, unfit_step};
use check_leaves::{all_owned, walk_leaves};
use check_spots::{wrong6, wrong7, wrong8};
use check_spread::wrong10;
use faults::{Fault, Refusal, bare_fault};
use file_records::{MOST_NODES, nodes_of, steps_of};

// The root's two sets.
#[derive(Clone, Copy)]
pub struct Sets {
    pub regulated: ActionSet,
    pub effects: ActionSet,
}

// Either these or a refusal.
pub type Checked = Result<Sets, Fault>;

// The refusal. A check that passed has none, and no rule has number 0: it gives that.
pub fn refusal(checked: Checked) -> Fault
    ensures { fault_of result ≡ refusal_of (answered checked) }
{
    match checked {
        Ok(_) => bare_fault(0),
        Err(fault) => fault,
    }
}

// The record that breaks a rule from 4 to 8, which is known to be broken. The nodes keep rule 4, so that it is a step that breaks it.
fn spot_of(file: Counted, rule: Refusal) -> Option<u16>
    requires { Sought file.policy.now file.n file.m (number_of rule) }
    ensures { spot_of result ≡ spot_by file.entry.policy.now (number_of rule) }
{
    match rule {
        Refusal::Fields => unfit_step(file),
        Refusal::Children => wrong5(file),
        Refusal::Targets => wrong6(file),
        Refusal::Modes => wrong7(file),
        _ => wrong8(file),
    }
}

// What is told of such a rule.
fn told(file: Counted, rule: Refusal) -> Fault
    requires { Sought file.policy.now file.n file.m (number_of rule) }
    ensures { fault_of result ≡ fault_by file.entry.policy.now (number_of rule) }
{
    rule.at(spot_of(file, rule))
}

// Rules 9 and 10, and the answer. What the leaves' walks have found is in `effects` and `inserts`.
fn check_tree(file: Counted, effects: &mut [u64], inserts: &mut [u32]) -> Checked
    requires leaves_kept { LeavesKept file.policy.now file.n file.m }
    requires leaf_values { LeafValues leaf_effects file.policy.now file.n effects.old }
    requires leaf_values_2 { LeafValues inserts_in file.policy.now file.n inserts.old }
    ensures { answered result ≡ check file.entry.policy.now }
{
    let mut regulated = [0u64; MOST_NODES];
    if let Some(node) = wrong9(file, &mut regulated, effects) {
        return Err(Refusal::Interference.at(Some(node)));
    }
    if let Some(node) = wrong10(file, inserts) {
        return Err(Refusal::Spread.at(Some(node)));
    }
    Ok(Sets {
        regulated: ActionSet { bits: regulated[0] },
        effects: ActionSet { bits: effects[0] },
    })
}

// Rule 5, and the part of rule 6 that asks no leaf. What is broken before the step records are read is answered only where these keep rule 4.
fn tree_kept(file: Counted) -> Result<(), Refusal>
    requires front_kept { FrontKept file.policy.now file.n file.m }
    requires nodes_value { nodes_fit file.policy.now ≡ true }
    ensures { TreeFound file.entry.policy.now file.entry.n file.entry.m result }
{
    let broken = if broken5(file) {
        Refusal::Children
    } else if !all_owned(file) {
        Refusal::Targets
    } else {
        return Ok(());
    };
    steps_kept(file)?;
    Err(broken)
}

// Rules 4 to 8, and what follows. The walk through the leaves is the first to read the step records. With no step there is no leaf, so that
// the other rules ask nothing, and both sets are empty.
fn check_records(file: Counted) -> Checked
    requires { FrontKept file.policy.now file.n file.m }
    ensures { answered result ≡ check file.entry.policy.now }
{
    if let Some(node) = unfit_node(file.policy, file.n) {
        return Err(Refusal::Fields.at(Some(node)));
    }
    if let Err(rule) = tree_kept(file) {
        return Err(told(file, rule));
    }
    if file.m == 0 {
        return Ok(Sets {
            regulated: ActionSet::EMPTY,
            effects: ActionSet::EMPTY,
        });
    }
    let mut effects = [0u64; MOST_NODES];
    let mut inserts = [0u32; MOST_NODES];
    if let Err(rule) = walk_leaves(file, &mut effects, &mut inserts) {
        return Err(told(file, rule));
    }
    check_tree(file, &mut effects, &mut inserts)
}

pub fn check(policy: &[u8]) -> Checked
    ensures { answered result ≡ check policy.now }
{
    if broken1(policy) {
        return Err(Refusal::Length.bare());
    }
    if broken2(policy) {
        return Err(Refusal::Version.bare());
    }
    if broken3(policy) {
        return Err(Refusal::Counts.bare());
    }
    check_records(Counted {
        policy,
        n: nodes_of(policy),
        m: steps_of(policy),
    })
}
