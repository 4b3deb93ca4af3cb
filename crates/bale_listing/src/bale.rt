// The listing of a bale file, from what the decoder has of it: the refusal, or the lines of the bale and of its parts.
ghost use Rattle.std.specs.Prelude.{◌≡◌, List, ℕ, ◌≤◌, length};
ghost use Rattle.bale_answer.specs.Taken.{Taken, SomeTaken};
ghost use Rattle.bale_listing.specs.Lent.{ListedFrom};

use bale_answer::answer_bale;
use bale_file::Decoder;
use listing::{put_bale, put_parts, put_refusal};

// The listing stands at the front of `out`, whose rest is left as it was. How many bytes it has.
pub fn list_bale(
    decoder: Decoder,
    markers: &[u32],
    pairs: &[u32],
    work_floats: &mut [f32],
    work_numbers: &mut [u32],
    out: &mut [u8],
) -> usize
    requires some_taken { SomeTaken decoder markers.now pairs.now }
    requires work_floats_len { (length work_floats.old ≡ 16128) × (length work_numbers.old ≡ 16128) × (4096 ≤ length out.old) }
    ensures { (bs : List ℕ) → Taken bs decoder markers.now pairs.now → ListedFrom bs result work_floats.old work_numbers.old out.old work_floats.new work_numbers.new out.new }
{
    let mut numbers = [0; 24];
    let mut floats = [0.0; 48];
    let mut endings = [0; 96];
    let mut residuals = [0.0; 24];
    let answered = answer_bale(
        decoder,
        markers,
        pairs,
        work_floats,
        work_numbers,
        &mut numbers,
        &mut floats,
        &mut endings,
        &mut residuals,
    );
    match answered {
        Err(refusal) => put_refusal(out, 0, refusal.check.number(), refusal.place),
        Ok(counts) => {
            let reading = decoder.reading;
            let grades = bale_file::grade_count(reading.grades);
            let k = put_bale(
                out,
                0,
                grades as usize,
                reading.markers as usize,
                reading.pairs as usize,
            );
            put_parts(
                out,
                k,
                &numbers,
                &floats,
                &endings,
                &residuals,
                counts.endings as usize,
            )
        }
    }
}
