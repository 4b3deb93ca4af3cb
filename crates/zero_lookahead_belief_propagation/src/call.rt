// The call: checked, and answered if it is accepted.
ghost use Rattle.std.specs.Prelude.{◌≡◌};
ghost use Rattle.definition.specs.Call.{call};
ghost use Rattle.definition.specs.Refusals.{bale_of, verdict};
ghost use Rattle.claims.specs.CallByParts.{AnsweredByParts};
ghost use Rattle.definition.specs.Settings.{settings_of};
ghost use Rattle.checks.specs.Verdicts.{buffers_of, verdict_of};
ghost use Rattle.zero_lookahead_belief_propagation.specs.AnsweredPart.{settings_from};
ghost use Rattle.zero_lookahead_belief_propagation.specs.Called.{lent_with, result_with};

use crate::calibrate::calibrate_accepted;
use checks::{Buffers, Refusal};
use zero_lookahead::settings::Settings;

// How many beliefs and endings there are.
#[derive(Clone, Copy)]
pub struct Counts {
    pub beliefs: u32,
    pub endings: u32,
}

// Whether the call is accepted.
fn judge(
    settings: Settings,
    limit: u32,
    grades: u32,
    evidence: &[f32],
    pairs: &[u32],
    lent: Buffers,
) -> Result<(), Refusal>
    ensures { verdict_of result ≡ verdict (settings_from settings limit) (buffers_of lent) (bale_of grades evidence.now pairs.now) }
{
    checks::check(
        settings.alpha,
        settings.beta,
        settings.prior,
        settings.regularised,
        settings.tolerance,
        limit,
        grades,
        evidence,
        pairs,
        lent,
    )
}

// Two floats of evidence to a marker, and two numbers to a pair. Of the answer, a number and two floats to a belief, and four numbers and a float to an ending.
// A refusal leaves all that is lent as it was. An answer leaves zeros in the work that it needed.
// The second clause is demand 3: each part is bounded, and what is read of it in the buffers is as if it were entered by itself.
pub fn calibrate_all_subgraphs(
    alpha: f32,
    beta: f32,
    prior: f32,
    regularised: bool,
    tolerance: f32,
    loop_limit: u32,
    grades: u32,
    evidence: &[f32],
    pairs: &[u32],
    work_floats: &mut [f32],
    work_numbers: &mut [u32],
    belief_numbers: &mut [u32],
    belief_floats: &mut [f32],
    ending_numbers: &mut [u32],
    ending_floats: &mut [f32],
) -> Result<Counts, Refusal>
    ensures ending_floats_after { result_with result (lent_with work_floats.new work_numbers.new belief_numbers.new belief_floats.new ending_numbers.new ending_floats.new) ≡ call (settings_of alpha beta prior regularised tolerance loop_limit) grades evidence.now pairs.now (lent_with work_floats.old work_numbers.old belief_numbers.old belief_floats.old ending_numbers.old ending_floats.old) }
    ensures answered_by_parts { AnsweredByParts (settings_of alpha beta prior regularised tolerance loop_limit) grades evidence.now pairs.now (lent_with work_floats.old work_numbers.old belief_numbers.old belief_floats.old ending_numbers.old ending_floats.old) (result_with result (lent_with work_floats.new work_numbers.new belief_numbers.new belief_floats.new ending_numbers.new ending_floats.new)) }
{
    let settings = Settings {
        alpha: alpha,
        beta: beta,
        prior: prior,
        regularised: regularised,
        tolerance: tolerance,
    };
    let lent = Buffers {
        work_floats: work_floats.len(),
        work_numbers: work_numbers.len(),
        belief_numbers: belief_numbers.len(),
        belief_floats: belief_floats.len(),
        ending_numbers: ending_numbers.len(),
        ending_floats: ending_floats.len(),
    };
    judge(settings, loop_limit, grades, evidence, pairs, lent)?;
    let needed = 64 * (grades as usize + evidence.len() / 2 + pairs.len() / 2) + 4096;
    let filled = calibrate_accepted(
        &mut work_floats[0..needed],
        &mut work_numbers[0..needed],
        settings,
        loop_limit,
        grades,
        evidence,
        pairs,
        belief_numbers,
        belief_floats,
        ending_numbers,
        ending_floats,
    );
    Ok(Counts {
        beliefs: filled.beliefs as u32,
        endings: filled.endings as u32,
    })
}
