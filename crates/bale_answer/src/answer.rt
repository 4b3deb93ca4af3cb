// What a bale file is answered, from what the decoder has of it: the refusal of the program itself, or what the library says.
ghost use Rattle.std.specs.Prelude.{◌≡◌, List, ℕ};
ghost use Rattle.definition.specs.Call.{sizes_of};
ghost use Rattle.definition.specs.FileAnswer.{buffers, file_result};
ghost use Rattle.zero_lookahead_belief_propagation.specs.Called.{result_with, lent_with};
ghost use Rattle.bale_answer.specs.Taken.{Taken, SomeTaken};
ghost use Rattle.bale_answer.specs.Good.{Small, SomeSmall};
ghost use Rattle.bale_answer.specs.Outcomes.{file_result_with};

use crate::call::call_words;
use crate::refusals::{check_base, check_file, check_size};
use bale_file::Decoder;
use checks::{FileRefusal, Refusal};
use zero_lookahead_belief_propagation::Counts;

// A good file of at most 24 grades, 24 markers and 140 pairs.
fn answer_good(
    decoder: Decoder,
    markers: &[u32],
    pairs: &[u32],
    work_floats: &mut [f32],
    work_numbers: &mut [u32],
    belief_numbers: &mut [u32],
    belief_floats: &mut [f32],
    ending_numbers: &mut [u32],
    ending_floats: &mut [f32],
) -> Result<Counts, Refusal>
    requires some_small { SomeSmall decoder markers.now pairs.now }
    requires ending_floats_value { sizes_of (lent_with work_floats.old work_numbers.old belief_numbers.old belief_floats.old ending_numbers.old ending_floats.old) ≡ buffers }
    ensures { (bs : List ℕ) → Small bs decoder markers.now pairs.now → result_with result (lent_with work_floats.new work_numbers.new belief_numbers.new belief_floats.new ending_numbers.new ending_floats.new) ≡ file_result bs (lent_with work_floats.old work_numbers.old belief_numbers.old belief_floats.old ending_numbers.old ending_floats.old) }
{
    let reading = decoder.reading;
    let m = reading.markers as usize;
    let p = reading.pairs as usize;
    let e = 2 * m;
    let n = 2 * p;
    let mut evidence = [0.0; 48];
    let mut numbers = [0; 280];
    call_words(
        decoder,
        &markers[..m],
        &pairs[..p],
        &mut evidence[..e],
        &mut numbers[..n],
        work_floats,
        work_numbers,
        belief_numbers,
        belief_floats,
        ending_numbers,
        ending_floats,
    )
}

// The answer stands at the front of its four buffers, as the call leaves it; a refusal leaves everything as it was. The work that was needed is zero.
pub fn answer_bale(
    decoder: Decoder,
    markers: &[u32],
    pairs: &[u32],
    work_floats: &mut [f32],
    work_numbers: &mut [u32],
    belief_numbers: &mut [u32],
    belief_floats: &mut [f32],
    ending_numbers: &mut [u32],
    ending_floats: &mut [f32],
) -> Result<Counts, FileRefusal>
    requires some_taken { SomeTaken decoder markers.now pairs.now }
    requires ending_floats_value { sizes_of (lent_with work_floats.old work_numbers.old belief_numbers.old belief_floats.old ending_numbers.old ending_floats.old) ≡ buffers }
    ensures { (bs : List ℕ) → Taken bs decoder markers.now pairs.now → file_result_with result (lent_with work_floats.new work_numbers.new belief_numbers.new belief_floats.new ending_numbers.new ending_floats.new) ≡ file_result bs (lent_with work_floats.old work_numbers.old belief_numbers.old belief_floats.old ending_numbers.old ending_floats.old) }
{
    check_file(decoder)?;
    check_base(decoder)?;
    check_size(decoder)?;
    let counts = answer_good(
        decoder,
        markers,
        pairs,
        work_floats,
        work_numbers,
        belief_numbers,
        belief_floats,
        ending_numbers,
        ending_floats,
    )?;
    Ok(counts)
}
