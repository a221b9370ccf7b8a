// Refusals 11, 12 and 14.
#![tactic(auto)]

ghost use Rattle.std.specs.Prelude.{◌≡◌, length};
ghost use Rattle.spec_check.specs.Passed.{Passed};
ghost use Rattle.spec_turns.specs.Saved.{state_size};
ghost use Rattle.spec_turns.specs.Entries.{broken11, broken12, broken14};

use call_fits::fits;
use file_records::{nodes_of, steps_of};
use turn_state::{STATE_SIZE, is_halted, saved_status};
use turn_told::EVENT_ROOM;

// 11: "state buffer is not 248 bytes, or event buffer is under 512", and by request 04: "Refusal 11 now means 256 bytes"
#[tactic(auto, unfolding(spec_turns::specs::Entries::broken11))]
pub fn broken11(state: &[u8], events: &[u8]) -> bool
    ensures { result ≡ broken11 state.now events.now }
{
    (state.len() != STATE_SIZE) | (events.len() < EVENT_ROOM)
}

// 12: "the state doesn't fit the policy"
#[tactic(auto, unfolding(spec_turns::specs::Entries::broken12))]
pub fn broken12(policy: &[u8], state: &[u8]) -> bool
    requires { Passed policy.now × (length state.now ≡ state_size) }
    ensures { result ≡ broken12 policy.now state.now }
{
    !fits(policy, nodes_of(policy), steps_of(policy), state)
}

// 14: "the root has halted"
#[tactic(auto, unfolding(spec_turns::specs::Entries::broken14))]
pub fn broken14(state: &[u8]) -> bool
    requires { length state.now ≡ state_size }
    ensures { result ≡ broken14 state.now }
{
    is_halted(saved_status(state, 0))
}
