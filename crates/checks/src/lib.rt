// The refusals 1 to 8: the number and the place of the first check that fails. Nothing that is lent is written.
#![tactic(auto)]

ghost use Rattle.std.specs.Prelude.{◌≡◌, false, [], ◌∷◌, map, ℕ, ◌+◌, ◌^◌, ◌/◌, ◌≤◌, ◌<◌, eqb, ltb, length, get_or, replicate};
ghost use Rattle.definition.specs.FactorGraph.{marker_numbers, grades_of};
ghost use Rattle.definition.specs.Refusals.{markers_of, pairs_of, bale_of, outside, least_probability, greatest_probability, too_many, too_small, bad_tolerance, bad_evidence, unknown_pair, lowest_place, repeated_pairs, too_many_grades, verdict};
ghost use Rattle.definition.specs.Settings.{settings_of};
ghost use Rattle.graph_laws.specs.Accepted.{Sized};
ghost use Rattle.checks.specs.Verdicts.{place_of, verdict_of, buffers_of, graph_verdict};
ghost use Rattle.checks.specs.Marks.{digit, InGrid, cell_of};
ghost use Rattle.checks.specs.Slices.{pair_at};

mod refusal;

pub use crate::refusal::{Check, FileRefusal, Refusal, refuse};

// How many entries each buffer has that the caller lends.
#[derive(Clone, Copy)]
pub struct Buffers {
    pub work_floats: usize,
    pub work_numbers: usize,
    pub belief_numbers: usize,
    pub belief_floats: usize,
    pub ending_numbers: usize,
    pub ending_floats: usize,
}

// 1/1024, 1023/1024 and 2^-14
const LEAST_PROBABILITY: f32 = 0.0009765625;

const GREATEST_PROBABILITY: f32 = 0.9990234375;

const LEAST_EVIDENCE: f32 = 0.00006103515625;

// ---- 1 and 2: sizes

fn check_sizes(grades: u32, evidence: &[f32], pairs: &[u32]) -> Option<u32>
    ensures { place_of result ≡ lowest_place (too_many 1024 1024 8192 (bale_of grades evidence.now pairs.now) ∷ []) }
{
    if 1024 < grades || 1024 < evidence.len() / 2 || 8192 < pairs.len() / 2 {
        return Some(0);
    }
    None
}

fn check_buffers(grades: u32, evidence: &[f32], pairs: &[u32], buffers: Buffers) -> Option<u32>
    requires { Sized (bale_of grades evidence.now pairs.now) }
    ensures { place_of result ≡ lowest_place (too_small (buffers_of buffers) (bale_of grades evidence.now pairs.now) ∷ []) }
{
    let count = grades as usize;
    let work = 64 * (count + evidence.len() / 2 + pairs.len() / 2) + 4096;
    if buffers.work_floats < work {
        return Some(0);
    }
    if buffers.work_numbers < work {
        return Some(0);
    }
    if buffers.belief_numbers < count {
        return Some(0);
    }
    if buffers.belief_floats < 2 * count {
        return Some(0);
    }
    if buffers.ending_numbers < 4 * count {
        return Some(0);
    }
    if buffers.ending_floats < count {
        return Some(0);
    }
    None
}

// ---- 3 and 4: settings

// A NaN passes no comparison, so it is outside.
fn is_outside(least: f32, greatest: f32, x: f32) -> bool
    ensures { result ≡ outside least greatest x }
{
    !(least <= x && x <= greatest)
}

fn check_probabilities(alpha: f32, beta: f32, prior: f32) -> Option<u32>
    ensures { place_of result ≡ lowest_place (map (outside least_probability greatest_probability) (alpha ∷ beta ∷ prior ∷ [])) }
{
    if is_outside(LEAST_PROBABILITY, GREATEST_PROBABILITY, alpha) {
        return Some(0);
    }
    if is_outside(LEAST_PROBABILITY, GREATEST_PROBABILITY, beta) {
        return Some(1);
    }
    if is_outside(LEAST_PROBABILITY, GREATEST_PROBABILITY, prior) {
        return Some(2);
    }
    None
}

// Negative, infinite or NaN. The bits are infinity's.
fn is_bad_tolerance(tolerance: f32) -> bool
    ensures { result ≡ bad_tolerance tolerance }
{
    if tolerance < 0.0 {
        return true;
    }
    if tolerance < f32::from_bits(0x7f80_0000) {
        return false;
    }
    true
}

fn check_stopping(tolerance: f32, loop_limit: u32) -> Option<u32>
    ensures { place_of result ≡ lowest_place (bad_tolerance tolerance ∷ ltb 1000000 loop_limit ∷ []) }
{
    if is_bad_tolerance(tolerance) {
        return Some(0);
    }
    if 1000000 < loop_limit {
        return Some(1);
    }
    None
}

// ---- 5: evidence

fn is_bad_evidence(evidence: &[f32], marker: usize) -> bool
    requires { marker < length evidence.now / 2 }
    ensures { result ≡ get_or (map bad_evidence (markers_of evidence.now)) marker false }
{
    is_outside(LEAST_EVIDENCE, 1.0, evidence[2 * marker])
        || is_outside(LEAST_EVIDENCE, 1.0, evidence[2 * marker + 1])
}

fn check_evidence(evidence: &[f32]) -> Option<u32>
    requires { length evidence.now / 2 ≤ 1024 }
    ensures { place_of result ≡ lowest_place (map bad_evidence (markers_of evidence.now)) }
{
    for m in 0..evidence.len() / 2 {
        if is_bad_evidence(evidence, m) {
            return Some(m as u32);
        }
    }
    None
}

// ---- 6: pairs of what is there

fn is_unknown_pair(grades: u32, evidence: &[f32], pairs: &[u32], pair: usize) -> bool
    requires { pair < length pairs.now / 2 }
    ensures { result ≡ get_or (map (unknown_pair (bale_of grades evidence.now pairs.now)) (pairs_of pairs.now)) pair false }
{
    grades <= pairs[2 * pair] || evidence.len() / 2 <= pairs[2 * pair + 1] as usize
}

fn check_pairs_known(grades: u32, evidence: &[f32], pairs: &[u32]) -> Option<u32>
    requires { length pairs.now / 2 ≤ 8192 }
    ensures { place_of result ≡ lowest_place (map (unknown_pair (bale_of grades evidence.now pairs.now)) (pairs_of pairs.now)) }
{
    for pair in 0..pairs.len() / 2 {
        if is_unknown_pair(grades, evidence, pairs, pair) {
            return Some(pair as u32);
        }
    }
    None
}

// ---- 7: a pair given before. Each pair passed leaves a mark: one binary digit to a grade and a marker,
// 128 KiB of them in a local array, since nothing that is lent may be written.

fn has_mark(word: u32, bit: u32) -> bool
    requires { bit < 32 }
    ensures { result ≡ eqb (digit word bit) 1 }
{
    (word >> bit) % 2 == 1
}

fn with_mark(word: u32, bit: u32) -> u32
    requires { (bit < 32) × (digit word bit ≡ 0) }
    ensures { result ≡ word + 2 ^ bit }
{
    word + (1u32 << bit)
}

// The pair's place among all pairs of 1,024 grades and 1,024 markers.
fn cell(pairs: &[u32], pair: usize) -> usize
    requires pair_in_bounds { pair < length pairs.now / 2 }
    requires in_grid { InGrid (pairs_of pairs.now) }
    ensures { (result ≡ cell_of (pair_at pairs.now pair)) × (result < 1048576) }
{
    let grade = pairs[2 * pair] as usize;
    let marker = pairs[2 * pair + 1] as usize;
    1024 * marker + grade
}

fn check_repeated(pairs: &[u32]) -> Option<u32>
    requires pairs_len_bound { length pairs.now / 2 ≤ 8192 }
    requires in_grid { InGrid (pairs_of pairs.now) }
    ensures { place_of result ≡ lowest_place (repeated_pairs [] (pairs_of pairs.now)) }
{
    let mut marks = [0u32; 32768];
    for i in 0..pairs.len() / 2 {
        let k = cell(pairs, i);
        let word = marks[k / 32];
        let bit = (k % 32) as u32;
        if has_mark(word, bit) {
            return Some(i as u32);
        }
        marks[k / 32] = with_mark(word, bit);
    }
    None
}

// ---- 8: a marker with over 128 grades

// Counts each marker's pairs.
fn count_grades(pairs: &[u32], counts: &mut [u32; 1024])
    requires pairs_len_bound { length pairs.now / 2 ≤ 8192 }
    requires in_grid { InGrid (pairs_of pairs.now) }
    requires counts_value { counts.old ≡ replicate 1024 0 }
    ensures { (m : ℕ) → m < 1024 → get_or counts.new m 0 ≡ length (grades_of (pairs_of pairs.now) m) }
{
    for i in 0..pairs.len() / 2 {
        counts[pairs[2 * i + 1] as usize] += 1;
    }
}

fn check_shared(grades: u32, evidence: &[f32], pairs: &[u32]) -> Option<u32>
    requires evidence_len_bound { (length evidence.now / 2 ≤ 1024) × (length pairs.now / 2 ≤ 8192) }
    requires in_grid { InGrid (pairs_of pairs.now) }
    ensures { place_of result ≡ lowest_place (map (too_many_grades (bale_of grades evidence.now pairs.now)) (marker_numbers (bale_of grades evidence.now pairs.now))) }
{
    let mut counts = [0u32; 1024];
    count_grades(pairs, &mut counts);
    let markers = evidence.len() / 2;
    for (m, count) in counts[..markers].iter().enumerate() {
        if 128 < *count {
            return Some(m as u32);
        }
    }
    None
}

// ---- all

// 5 to 8
fn check_graph(grades: u32, evidence: &[f32], pairs: &[u32]) -> Result<(), Refusal>
    requires { Sized (bale_of grades evidence.now pairs.now) }
    ensures { verdict_of result ≡ graph_verdict (bale_of grades evidence.now pairs.now) }
{
    refuse(Check::Evidence, check_evidence(evidence))?;
    refuse(
        Check::UnknownPair,
        check_pairs_known(grades, evidence, pairs),
    )?;
    refuse(Check::RepeatedPair, check_repeated(pairs))?;
    refuse(Check::CrowdedMarker, check_shared(grades, evidence, pairs))
}

// The first check that fails, by number, and within a number at the lowest place.
pub fn check(
    alpha: f32,
    beta: f32,
    prior: f32,
    regularised: bool,
    tolerance: f32,
    loop_limit: u32,
    grades: u32,
    evidence: &[f32],
    pairs: &[u32],
    buffers: Buffers,
) -> Result<(), Refusal>
    ensures { verdict_of result ≡ verdict (settings_of alpha beta prior regularised tolerance loop_limit) (buffers_of buffers) (bale_of grades evidence.now pairs.now) }
{
    refuse(Check::TooMany, check_sizes(grades, evidence, pairs))?;
    refuse(
        Check::BuffersTooSmall,
        check_buffers(grades, evidence, pairs, buffers),
    )?;
    refuse(Check::Probability, check_probabilities(alpha, beta, prior))?;
    refuse(Check::Stopping, check_stopping(tolerance, loop_limit))?;
    check_graph(grades, evidence, pairs)
}
