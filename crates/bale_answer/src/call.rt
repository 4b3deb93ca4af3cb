// The library's call, as a bale file asks for it.
ghost use Rattle.std.specs.Prelude.{◌≡◌, map, ◌*◌, length};
ghost use Rattle.definition.specs.BaleFile.{bits, coded_settings, evidence_of, pair_of};
ghost use Rattle.definition.specs.Refusals.{markers_of, pairs_of};
ghost use Rattle.definition.specs.Call.{call};
ghost use Rattle.bale_file.specs.Base.{rate_of};
ghost use Rattle.zero_lookahead_belief_propagation.specs.Called.{result_with, lent_with};

use bale_file::Decoder;
use checks::Refusal;
use zero_lookahead_belief_propagation::{Counts, calibrate_all_subgraphs};

const TOLERANCE: f32 = 0.006;

const LOOP_LIMIT: u32 = 10000;

// With the settings of the words of kinds 1 and 2.
fn calibrate(
    rates: u32,
    prior: u32,
    grades: u32,
    evidence: &[f32],
    pairs: &[u32],
    work_floats: &mut [f32],
    work_numbers: &mut [u32],
    belief_numbers: &mut [u32],
    belief_floats: &mut [f32],
    ending_numbers: &mut [u32],
    ending_floats: &mut [f32],
) -> Result<Counts, Refusal>
    ensures { result_with result (lent_with work_floats.new work_numbers.new belief_numbers.new belief_floats.new ending_numbers.new ending_floats.new) ≡ call (coded_settings rates prior) grades evidence.now pairs.now (lent_with work_floats.old work_numbers.old belief_numbers.old belief_floats.old ending_numbers.old ending_floats.old) }
{
    calibrate_all_subgraphs(
        bale_file::alpha(rates),
        bale_file::beta(rates),
        bale_file::beta(prior),
        bale_file::is_regularised(prior),
        TOLERANCE,
        LOOP_LIMIT,
        grades,
        evidence,
        pairs,
        work_floats,
        work_numbers,
        belief_numbers,
        belief_floats,
        ending_numbers,
        ending_floats,
    )
}

// The bale of the markers' and the pairs' words, which goes into two slices of the right lengths.
pub(crate) fn call_words(
    decoder: Decoder,
    markers: &[u32],
    pairs: &[u32],
    evidence: &mut [f32],
    numbers: &mut [u32],
    work_floats: &mut [f32],
    work_numbers: &mut [u32],
    belief_numbers: &mut [u32],
    belief_floats: &mut [f32],
    ending_numbers: &mut [u32],
    ending_floats: &mut [f32],
) -> Result<Counts, Refusal>
    requires { (length evidence.old ≡ 2 * length markers.now) × (length numbers.old ≡ 2 * length pairs.now) }
    ensures evidence_after { (markers_of evidence.new ≡ map (evidence_of (rate_of decoder.reading.base)) markers.now) × (pairs_of numbers.new ≡ map pair_of pairs.now) }
    ensures ending_floats_after { result_with result (lent_with work_floats.new work_numbers.new belief_numbers.new belief_floats.new ending_numbers.new ending_floats.new) ≡ call (coded_settings decoder.reading.rates decoder.reading.prior) (bits 11 0 decoder.reading.grades) evidence.new numbers.new (lent_with work_floats.old work_numbers.old belief_numbers.old belief_floats.old ending_numbers.old ending_floats.old) }
{
    let reading = decoder.reading;
    bale_file::fill_evidence(markers, reading.base, evidence);
    bale_file::fill_pairs(pairs, numbers);
    let grades = bale_file::grade_count(reading.grades);
    calibrate(
        reading.rates,
        reading.prior,
        grades,
        evidence,
        numbers,
        work_floats,
        work_numbers,
        belief_numbers,
        belief_floats,
        ending_numbers,
        ending_floats,
    )
}
