// The lines of the morning and the bales of a shift, in step: the next line waits for its bale, and each bale that ends is weighed if a line waits for it.
ghost use Rattle.std.specs.Prelude.{◌≡◌, List, [], ◌∷◌, ◌++◌, ℕ, ◌≤◌, length, replicate};
ghost use Rattle.theorems.specs.Facts.{ended_bales};
ghost use Rattle.bale_answer.specs.Taken.{Taken, SomeTaken};
ghost use Rattle.definition.specs.Tonnage.{tonnage};
ghost use Rattle.shares.specs.Adding.{Low};
ghost use Rattle.tonnage.specs.Answering.{AnswerAdded};
ghost use Rattle.tonnage.specs.Standings.{is_waiting, StandsAt, HoldsTally, SomeTally, weighing_with};

use bale_answer::answer_bale;
use bale_file::Decoder;
use checks::{Check, Refusal};
use shares::add_bale;
use weights::{Line, read_line};

#[derive(Clone, Copy)]
pub enum Standing {
    // The next line waits for its bale.
    Waiting(Line),
    // No line is left.
    Weighed,
    // The next line is refused.
    Refused(Check),
}

#[derive(Clone, Copy)]
pub struct Tally {
    pub standing: Standing,
    // How many lines were weighed, which is the number of the next.
    pub lines: u32,
    // How many of the shift's bales have ended.
    pub bales: u32,
}

// What is known by the line from a place on, whose bale is at least `next`.
fn standing_at(csv: &[u8], at: usize, next: u32) -> Standing
    ensures { StandsAt next csv.now at result }
{
    match read_line(csv, at, next) {
        Ok(Some(line)) => Standing::Waiting(line),
        Ok(None) => Standing::Weighed,
        Err(_) => Standing::Refused(Check::MalformedLine),
    }
}

// Before the first bale, with totals of 0.
pub fn begin(csv: &[u8]) -> Tally
    ensures { HoldsTally csv.now [] result (replicate 1024 0) }
{
    let standing = standing_at(csv, 0, 0);
    Tally {
        standing: standing,
        lines: 0,
        bales: 0,
    }
}

// Whether a line waits for a bale; else nothing that follows in the shift counts.
pub fn is_waiting(tally: Tally) -> bool
    ensures { result ≡ is_waiting tally.standing }
{
    matches!(tally.standing, Standing::Waiting(_))
}

// A bale's answer, weighed and added. Whether it has one.
fn add_answer(
    decoder: Decoder,
    markers: &[u32],
    pairs: &[u32],
    work_floats: &mut [f32],
    work_numbers: &mut [u32],
    kilograms: u32,
    sums: &mut [u64],
) -> bool
    requires some_taken { SomeTaken decoder markers.now pairs.now }
    requires work_floats_len { (length work_floats.old ≡ 16128) × (length work_numbers.old ≡ 16128) }
    requires kilograms_bound { (kilograms ≤ 2000) × Low sums.old }
    ensures { (bs : List ℕ) → Taken bs decoder markers.now pairs.now → AnswerAdded bs kilograms sums.old result sums.new }
{
    let mut numbers = [0; 24];
    let mut floats = [0.0; 48];
    let mut endings = [0; 96];
    let mut residuals = [0.0; 24];
    let answered = answer_bale(
        decoder,
        markers,
        pairs,
        work_floats,
        work_numbers,
        &mut numbers,
        &mut floats,
        &mut endings,
        &mut residuals,
    );
    let Ok(counts) = answered else {
        return false;
    };
    let n = counts.beliefs as usize;
    add_bale(
        sums,
        1000 * (kilograms as u64),
        &numbers[..n],
        &floats[..2 * n],
    );
    true
}

// A bale more has ended, of which the decoder has all bytes.
pub(crate) fn weigh_bale(
    tally: Tally,
    csv: &[u8],
    decoder: Decoder,
    markers: &[u32],
    pairs: &[u32],
    work_floats: &mut [f32],
    work_numbers: &mut [u32],
    sums: &mut [u64],
) -> Tally
    requires some_tally { SomeTally csv.now tally sums.old }
    requires some_taken { SomeTaken decoder markers.now pairs.now }
    requires work_floats_len { (length work_floats.old ≡ 16128) × (length work_numbers.old ≡ 16128) }
    ensures { (es : List (List ℕ)) (bs : List ℕ) → HoldsTally csv.now es tally sums.old → Taken bs decoder markers.now pairs.now → HoldsTally csv.now (es ++ bs ∷ []) result sums.new }
{
    let standing = tally.standing;
    match standing {
        Standing::Waiting(line) => {
            let ended = tally.bales + 1;
            if tally.bales < line.bale {
                return Tally {
                    standing: standing,
                    lines: tally.lines,
                    bales: ended,
                };
            }
            let answered = add_answer(
                decoder,
                markers,
                pairs,
                work_floats,
                work_numbers,
                line.kilograms,
                sums,
            );
            if !answered {
                return Tally {
                    standing: Standing::Refused(Check::MissingBale),
                    lines: tally.lines,
                    bales: ended,
                };
            }
            let next = standing_at(csv, line.after, line.bale + 1);
            Tally {
                standing: next,
                lines: tally.lines + 1,
                bales: ended,
            }
        }
        Standing::Weighed | Standing::Refused(_) => tally,
    }
}

// At the end of the shift, how many lines were weighed, or the line that is refused. A bale that did not end, or is not there, answers no line that waits
// for it.
pub fn outcome_of(tally: Tally) -> Result<u32, Refusal>
    ensures { (csv shift sums : List ℕ) → HoldsTally csv (ended_bales shift) tally sums → weighing_with result sums ≡ tonnage csv shift }
{
    let check = match tally.standing {
        Standing::Weighed => return Ok(tally.lines),
        Standing::Waiting(_) => Check::MissingBale,
        Standing::Refused(check) => check,
    };
    Err(Refusal {
        check: check,
        place: tally.lines,
    })
}
