// The entry points: open, offer and close, on slices that the caller lends. The check stands in crate `check_policy`.
#![tactic(auto)]

ghost use Rattle.spec_turns.specs.Entries.{opens, offers, closes};
ghost use Rattle.call_answer.specs.Replies.{Gave};

use actions::LAST_ACTION;
use call_answer::{Answer, Call};
use call_carry::{carry_action, carry_out};
use call_refusals::{broken11, broken12, broken14};
use check_policy::{check, refusal};
use faults::Refusal;

// Opens the policy: the state buffer need hold nothing beforehand.
pub fn open(policy: &[u8], state: &mut [u8], events: &mut [u8]) -> Answer
    ensures { Gave (opens policy.now state.old events.old) result state.new events.new }
{
    let checked = check(policy);
    let Ok(_) = checked else {
        return Err(refusal(checked));
    };
    if broken11(state, events) {
        return Err(Refusal::Buffers.bare());
    }
    carry_out(policy, state, events, Call::Open)
}

// Offers an action.
pub fn offer(policy: &[u8], state: &mut [u8], events: &mut [u8], action: u8) -> Answer
    ensures { Gave (offers policy.now state.old events.old action) result state.new events.new }
{
    let checked = check(policy);
    let Ok(sets) = checked else {
        return Err(refusal(checked));
    };
    if broken11(state, events) {
        return Err(Refusal::Buffers.bare());
    }
    if broken12(policy, state) {
        return Err(Refusal::State.bare());
    }
    if action > LAST_ACTION {
        return Err(Refusal::Action.bare());
    }
    if broken14(state) {
        return Err(Refusal::Halted.bare());
    }
    carry_action(policy, sets.regulated, state, events, action)
}

// Closes the policy.
pub fn close(policy: &[u8], state: &mut [u8], events: &mut [u8]) -> Answer
    ensures { Gave (closes policy.now state.old events.old) result state.new events.new }
{
    let checked = check(policy);
    let Ok(_) = checked else {
        return Err(refusal(checked));
    };
    if broken11(state, events) {
        return Err(Refusal::Buffers.bare());
    }
    if broken12(policy, state) {
        return Err(Refusal::State.bare());
    }
    carry_out(policy, state, events, Call::Close)
}
