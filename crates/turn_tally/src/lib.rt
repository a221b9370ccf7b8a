// The counts of steps that a run over a trace keeps: lent down the turn as one array, and counted only where that is asked.
#![tactic(auto)]

ghost use Rattle.std.specs.Prelude.{◌≡◌};
ghost use Rattle.spec_trace.specs.Counts.{more};
ghost use Rattle.spec_trace.specs.Tallies.{step_if};

// A count for each step that a file can have.
pub const STEP_COUNTS: usize = 512;

// One more: "counts stop at 4,294,967,295", the most that a `u32` holds.
pub fn one_more(n: u32) -> u32
    ensures { result ≡ more n }
{
    n.saturating_add(1)
}

// The step of this number has run. A call that keeps no counts passes `false`, a constant, so that a compiler takes both parameters out of its turn again.
pub fn count_step(counts: &mut [u32; STEP_COUNTS], counting: bool, step: usize)
    ensures { counts.new ≡ step_if counting counts.old step }
{
    if counting && step < STEP_COUNTS {
        counts[step] = one_more(counts[step]);
    }
}
