// What became of each action, counted by the bytes of a call's events.
#![tactic(auto)]

ghost use Rattle.std.specs.Prelude.{◌≡◌, ◌*◌, ◌≤◌, length, unwrap_or, IfSome};
ghost use Rattle.spec_trace.specs.Tallies.{action_counts, inserted_place};
ghost use Rattle.trace_events.specs.Counts.{table_place, event_counted, bytes_tallied};

use turn_tally::one_more;
use turn_told::{EVENT_ACCEPTED, EVENT_INSERTED, EVENT_SUPPRESSED};

// A count for each action accepted, suppressed and inserted.
pub const ACTIONS: usize = 64;

pub const ACTION_COUNTS: usize = 3 * ACTIONS;

// Where the counts of a kind of event begin, if it is one.
fn table_of(kind: u8) -> Option<usize>
    ensures place { unwrap_or result action_counts ≡ table_place kind }
    ensures small { IfSome result (λ table. table ≤ inserted_place 0) }
{
    match kind {
        EVENT_ACCEPTED => Some(0),
        EVENT_SUPPRESSED => Some(ACTIONS),
        EVENT_INSERTED => Some(2 * ACTIONS),
        _ => None,
    }
}

fn count_event(actions: &mut [u32; ACTION_COUNTS], kind: u8, action: u8)
    ensures { actions.new ≡ event_counted kind action actions.old }
{
    let Some(table) = table_of(kind) else { return };
    let place = table + usize::from(action);
    if place < ACTION_COUNTS {
        actions[place] = one_more(actions[place]);
    }
}

// The first events of the buffer, so many.
pub fn count_events(actions: &mut [u32; ACTION_COUNTS], events: &[u8], count: usize)
    requires { 2 * count ≤ length events.now }
    ensures { actions.new ≡ bytes_tallied count events.now 0 actions.old }
{
    for i in 0..count {
        count_event(actions, events[2 * i], events[2 * i + 1]);
    }
}
