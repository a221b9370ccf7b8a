// What is printed of a run.
ghost use Rattle.std.specs.Prelude.{◌≤◌, length};
ghost use Rattle.spec_check.specs.Layout.{CountsFit};
ghost use Rattle.spec_turns.specs.Status.{status_of};
ghost use Rattle.spec_trace.specs.Traces.{followed};
ghost use Rattle.text_append.specs.Added.{Added, Tells};
ghost use Rattle.guardtrace.specs.Shown.{ending, heading, reported, text_room};
ghost use Rattle.guardtrace.specs.Meaning.{stop_of, report_of, most_ending, Tellable};

use faults::Fault;
use file_records::{FRONT_SIZE, node_place, nodes_of};
use run_report::append_status;
use text_append::{append, refuse};
use text_tally::{append_numbered, print_tally};
use trace_events::ACTION_COUNTS;
use trace_run::Report;
use turn_tally::STEP_COUNTS;

// The refusal, if one stopped the run, and the line's end.
fn append_stop(out: &mut [u8], at: usize, stop: Option<Fault>) -> usize
    ensures { Added out.old at (ending (stop_of stop)) out.new result }
{
    match stop {
        None => append(out, at, b"\n"),
        Some(fault) => {
            let spaced = append(out, at, b" ");
            refuse(out, spaced, fault)
        }
    }
}

fn head(out: &mut [u8], stop: Option<Fault>, judged: usize, events: usize, root: u8) -> usize
    ensures { Added out.old 0 (heading (stop_of stop) judged events (status_of root)) out.new result }
{
    let first = append_numbered(out, 0, b"judged ", judged as u64);
    let second = append_numbered(out, first, b" events ", events as u64);
    let third = append(out, second, b" status ");
    let end = append_status(out, third, root);
    append_stop(out, end, stop)
}

// How the run ended, and the tally: the policy's records lie one after another behind its front.
fn tell_followed(
    room: &mut [u8],
    policy: &[u8],
    stop: Option<Fault>,
    judged: usize,
    events: usize,
    root: u8,
    ran: &[u32],
    met: &[u32],
) -> usize
    requires { CountsFit policy.now × (length (ending (stop_of stop)) ≤ most_ending) × (text_room ≤ length room.old) }
    ensures { Tells room.new result
        (reported policy.now (followed (stop_of stop) judged events (status_of root))
        (record { steps = ran.now; actions = met.now })) }
{
    let steps = node_place(nodes_of(policy));
    let headed = head(room, stop, judged, events, root);
    print_tally(
        room,
        headed,
        &policy[FRONT_SIZE..steps],
        &policy[steps..],
        ran,
        met,
    )
}

// Puts what is printed of the run into the room, which is long enough.
pub fn tell_report(
    room: &mut [u8],
    policy: &[u8],
    report: Report,
    steps: &[u32; STEP_COUNTS],
    actions: &[u32; ACTION_COUNTS],
) -> usize
    requires { Tellable policy.now (report_of report) × (text_room ≤ length room.old) }
    ensures { Tells room.new result
        (reported policy.now (report_of report) (record { steps = steps.entry.now; actions = actions.now })) }
{
    match report {
        Err(fault) => refuse(room, 0, fault),
        Ok(run) => tell_followed(
            room, policy, run.stop, run.judged, run.events, run.status, steps, actions,
        ),
    }
}
