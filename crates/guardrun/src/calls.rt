// A call made, and what is printed of it.
ghost use Rattle.spec_turns.specs.Entries.{entry};
ghost use Rattle.call_answer.specs.Requests.{asked};
ghost use Rattle.call_answer.specs.Replies.{Gave};
ghost use Rattle.guardrun.specs.Spoke.{Spoke};

use call_answer::{Answer, Call};
use guard::{close, offer, open};
use run_report::{Told, answered, refused};

fn ask(policy: &[u8], state: &mut [u8], events: &mut [u8], request: Call) -> Answer
    ensures { Gave (entry policy.now (asked request) state.old events.old)
        result state.new events.new }
{
    match request {
        Call::Open => open(policy, state, events),
        Call::Offer(action) => offer(policy, state, events, action),
        Call::Close => close(policy, state, events),
    }
}

// Makes the call, and puts what is printed of it at the start of the text.
pub fn tell(
    policy: &[u8],
    state: &mut [u8],
    events: &mut [u8],
    text: &mut [u8],
    request: Call,
) -> Told
    ensures { Spoke (entry policy.now (asked request) state.old events.old)
        (asked request) state.new events.new text.old text.new result }
{
    match ask(policy, state, events, request) {
        Ok(answer) => answered(text, events, request, answer.events, answer.status),
        Err(fault) => refused(text, request, fault),
    }
}
