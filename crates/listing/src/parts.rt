// The parts of an answer, from the slices in which it stands: each part's own line, and then its beliefs.
ghost use Rattle.std.specs.Prelude.{List, length};
ghost use Rattle.definition.specs.Answer.{Belief, PartAnswer};
ghost use Rattle.definition.specs.Listing.{belief_lines, part_lines};
ghost use Rattle.listing.specs.Writing.{Written};
ghost use Rattle.listing.specs.Beliefs.{BeliefsFit, SomeBeliefs};
ghost use Rattle.listing.specs.Parts.{PartsFit, SomeParts};

use crate::lines::{put_ending, put_grade};

// The lines of the beliefs that stand in the slices: a number and two floats each.
pub fn put_beliefs(out: &mut [u8], at: usize, numbers: &[u32], floats: &[f32]) -> usize
    requires { SomeBeliefs numbers.now floats.now at (length out.old) }
    ensures { (bs : List Belief) → BeliefsFit bs numbers.now floats.now at (length out.old) → Written out.old at (belief_lines bs) out.new result }
{
    let mut k = at;
    for (i, &grade) in numbers.iter().enumerate() {
        k = put_grade(out, k, grade, floats[2 * i], floats[2 * i + 1]);
    }
    k
}

// The lines of count parts: four numbers and a residual each, and the beliefs of all of them in their order.
pub fn put_parts(
    out: &mut [u8],
    at: usize,
    grades: &[u32],
    values: &[f32],
    endings: &[u32],
    residuals: &[f32],
    count: usize,
) -> usize
    requires { SomeParts grades.now values.now endings.now residuals.now count at (length out.old) }
    ensures { (ps : List PartAnswer) → PartsFit ps grades.now values.now endings.now residuals.now count at (length out.old) → Written out.old at (part_lines ps) out.new result }
{
    let mut k = at;
    let mut first: usize = 0;
    for e in 0..count {
        let last = first + endings[4 * e + 3] as usize;
        let number = endings[4 * e];
        let ending = endings[4 * e + 1];
        let steps = endings[4 * e + 2];
        k = put_ending(out, k, number, ending, steps, residuals[e]);
        k = put_beliefs(out, k, &grades[first..last], &values[2 * first..2 * last]);
        first = last;
    }
    k
}
