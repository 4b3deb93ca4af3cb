// Markers read strongly or weakly: the evidence of such reads, one run of the call under them, and the checks of a call that makes many.
#![tactic(auto)]

ghost use Rattle.std.specs.Prelude.{◌≡◌, ◌+◌, ◌*◌, ◌≤◌, ◌<◌, length, take};
ghost use Rattle.definition.specs.Refusals.{bale_of, accepted, verdict};
ghost use Rattle.definition.specs.Call.{overwrite};
ghost use Rattle.definition.specs.Reads.{above_half};
ghost use Rattle.reads.specs.Put.{put_read, read_floats};
ghost use Rattle.reads.specs.Ran.{settings_in, room_with, Ran};

use zero_lookahead_belief_propagation::calibrate_all_subgraphs;

mod check;

pub use check::{ReportBuffers, check_weak};

// What every run of a call is given.
#[derive(Clone, Copy)]
pub struct Settings {
    pub alpha: f32,
    pub beta: f32,
    pub prior: f32,
    pub regularised: bool,
    pub tolerance: f32,
    pub loop_limit: u32,
}

// The two floats of a marker: absent, then present.
pub fn put_read(evidence: &mut [f32], marker: usize, strong: bool)
    requires { 2 * marker + 1 < length evidence.old }
    ensures { evidence.new ≡ put_read evidence.old marker strong }
{
    let at = 2 * marker;
    if strong {
        evidence[at] = 0.0625;
        evidence[at + 1] = 0.9375;
    } else {
        evidence[at] = 0.9375;
        evidence[at + 1] = 0.0625;
    }
}

// The evidence of the first `markers` reads; true is strong.
pub fn put_reads(evidence: &mut [f32], markers: usize, reads: &[bool])
    requires { (2 * markers ≤ length evidence.old) × (markers ≤ length reads.now) }
    ensures { evidence.new ≡ overwrite (read_floats (take markers reads.now)) evidence.old }
{
    for (m, strong) in reads[..markers].iter().enumerate() {
        put_read(evidence, m, *strong);
    }
}

// Exactly 1/2 is not above.
pub fn is_above_half(present: f32) -> bool
    ensures { result ≡ above_half present }
{
    0.5 < present
}

// The call, with endings of its own, of a bale that it accepts. How many beliefs there are.
pub fn run_reads(
    settings: Settings,
    grades: u32,
    evidence: &[f32],
    pairs: &[u32],
    work_floats: &mut [f32],
    work_numbers: &mut [u32],
    numbers: &mut [u32],
    floats: &mut [f32],
) -> usize
    requires { verdict (settings_in settings) (room_with (length work_floats.old) (length work_numbers.old) (length numbers.old) (length floats.old)) (bale_of grades evidence.now pairs.now) ≡ accepted }
    ensures { Ran (settings_in settings) (bale_of grades evidence.now pairs.now) work_floats.old work_numbers.old numbers.old floats.old result work_floats.new work_numbers.new numbers.new floats.new }
{
    let mut endings = [0; 4096];
    let mut residuals = [0.0; 1024];
    let answered = calibrate_all_subgraphs(
        settings.alpha,
        settings.beta,
        settings.prior,
        settings.regularised,
        settings.tolerance,
        settings.loop_limit,
        grades,
        evidence,
        pairs,
        work_floats,
        work_numbers,
        numbers,
        floats,
        &mut endings,
        &mut residuals,
    );
    answered.unwrap().beliefs as usize
}
