// A shift's bytes, taken in piece by piece, each bale weighed as soon as it has ended.
ghost use Rattle.std.specs.Prelude.{◌≡◌, List, ◌++◌, ℕ, ◌+◌, ◌^◌, ◌<◌, length, replicate};
ghost use Rattle.definition.specs.Tonnage.{tonnage};
ghost use Rattle.tonnage.specs.Standings.{weighing_with};
ghost use Rattle.tonnage.specs.Weighed.{Weighs, SomeWeighs, WeighedTo};

use crate::tally::{Tally, begin, is_waiting, outcome_of, weigh_bale};
use bale_answer::{Input, take_bale};
use checks::Refusal;

// The tally of the bales that have ended, and what was taken in of the one that has not.
#[derive(Clone, Copy)]
pub struct Weighing {
    pub tally: Tally,
    pub input: Input,
}

// What is weighed with so many bytes more of a piece.
#[derive(Clone, Copy)]
pub struct Went {
    pub weighing: Weighing,
    pub used: usize,
}

// Takes in a piece up to its first end word, and weighs the bale that it ends. Where no line waits the rest of the shift counts for nothing.
fn weigh_next(
    weighing: Weighing,
    csv: &[u8],
    piece: &[u8],
    markers: &mut [u32],
    pairs: &mut [u32],
    work_floats: &mut [f32],
    work_numbers: &mut [u32],
    sums: &mut [u64],
) -> Went
    requires some_weighs { SomeWeighs csv.now weighing markers.old pairs.old sums.old (length piece.now) }
    requires work_floats_len { (length work_floats.old ≡ 16128) × (length work_numbers.old ≡ 16128) }
    ensures { (bs : List ℕ) → Weighs csv.now bs weighing markers.old pairs.old sums.old → WeighedTo csv.now bs piece.now result markers.new pairs.new sums.new }
{
    let tally = weighing.tally;
    if !is_waiting(tally) {
        return Went {
            weighing: weighing,
            used: piece.len(),
        };
    }
    let input = weighing.input;
    let took = take_bale(input, piece, markers, pairs);
    let taken = took.input;
    if !took.ended {
        let on = Weighing {
            tally: tally,
            input: taken,
        };
        return Went {
            weighing: on,
            used: took.used,
        };
    }
    let decoder = taken.decoder;
    let weighed = weigh_bale(
        tally,
        csv,
        decoder,
        markers,
        pairs,
        work_floats,
        work_numbers,
        sums,
    );
    let fresh = bale_answer::begin();
    let next = Weighing {
        tally: weighed,
        input: fresh,
    };
    Went {
        weighing: next,
        used: took.used,
    }
}

// Takes in a piece, and weighs each bale that ends in it.
pub fn weigh_piece(
    weighing: Weighing,
    csv: &[u8],
    piece: &[u8],
    markers: &mut [u32],
    pairs: &mut [u32],
    work_floats: &mut [f32],
    work_numbers: &mut [u32],
    sums: &mut [u64],
) -> Weighing
    requires some_weighs { SomeWeighs csv.now weighing markers.old pairs.old sums.old (length piece.now) }
    requires work_floats_len { (length work_floats.old ≡ 16128) × (length work_numbers.old ≡ 16128) }
    ensures { (bs : List ℕ) → Weighs csv.now bs weighing markers.old pairs.old sums.old → length bs + length piece.now < 2 ^ 64 → Weighs csv.now (bs ++ piece.now) result markers.new pairs.new sums.new }
{
    let mut held = weighing;
    let mut at = 0;
    // It moves on by what a turn took in.
    while at < piece.len() {
        let next = weigh_next(
            held,
            csv,
            &piece[at..],
            markers,
            pairs,
            work_floats,
            work_numbers,
            sums,
        );
        at += next.used;
        held = next.weighing;
    }
    held
}

// A whole shift. The sums begin with 0 and are the totals, unless it is refused.
pub(crate) fn weigh_shift(csv: &[u8], shift: &[u8], sums: &mut [u64]) -> Result<u32, Refusal>
    requires { sums.old ≡ replicate 1024 0 }
    ensures { weighing_with result sums.new ≡ tonnage csv.now shift.now }
{
    let mut markers = [0; 24];
    let mut pairs = [0; 140];
    let mut work_floats = [0.0; 16128];
    let mut work_numbers = [0; 16128];
    let tally = begin(csv);
    let input = bale_answer::begin();
    let weighing = Weighing {
        tally: tally,
        input: input,
    };
    let all = weigh_piece(
        weighing,
        csv,
        shift,
        &mut markers,
        &mut pairs,
        &mut work_floats,
        &mut work_numbers,
        sums,
    );
    let last = all.tally;
    outcome_of(last)
}
