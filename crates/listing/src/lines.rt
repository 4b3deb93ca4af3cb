// The lines of the listing, each written from a place of the buffer on. Each function answers the place after its line.
ghost use Rattle.std.specs.Prelude.{not, [], ◌∷◌, ◌+◌, ◌≤◌, T, length};
ghost use Rattle.std.specs.Float.Ieee.{is_nan};
ghost use Rattle.definition.specs.FactorGraph.{Bale};
ghost use Rattle.definition.specs.Listing.{decimal, hex, line, bale_line, refusal};
ghost use Rattle.listing.specs.Writing.{Written};
ghost use Rattle.claims.specs.CallByParts.{ending_of};
ghost use Rattle.listing.specs.Lines.{counts_line, Counts, head_line, grade_line};

use crate::fields::{put_float, put_number, put_word};

pub fn put_refusal(out: &mut [u8], at: usize, number: u32, place: u64) -> usize
    requires { at + length (refusal number place) ≤ length out.old }
    ensures { Written out.old at (refusal number place) out.new result }
{
    let k = put_word(out, at, b"refused", b' ');
    let k = put_number(out, k, number as u64, b' ');
    let k = put_word(out, k, b"at", b' ');
    put_number(out, k, place, b'\n')
}

pub fn put_bale(out: &mut [u8], at: usize, grades: usize, markers: usize, pairs: usize) -> usize
    requires { at + length (counts_line grades markers pairs) ≤ length out.old }
    ensures { (b : Bale) → Counts b grades markers pairs → Written out.old at (bale_line b) out.new result }
{
    let k = put_word(out, at, b"bale", b' ');
    let k = put_number(out, k, grades as u64, b' ');
    let k = put_number(out, k, markers as u64, b' ');
    put_number(out, k, pairs as u64, b'\n')
}

// One grade, with the bits of absent and present.
pub(crate) fn put_grade(out: &mut [u8], at: usize, grade: u32, absent: f32, present: f32) -> usize
    requires t { T (not (is_nan absent)) × T (not (is_nan present)) }
    requires present_in_bounds { at + length (grade_line grade absent present) ≤ length out.old }
    ensures { Written out.old at (grade_line grade absent present) out.new result }
{
    let k = put_number(out, at, grade as u64, b' ');
    let k = put_float(out, k, absent, b' ');
    put_float(out, k, present, b'\n')
}

// The end of a part's line, where the residual is printed.
fn put_residual(out: &mut [u8], at: usize, name: &[u8], steps: u32, residual: f32) -> usize
    requires t { T (not (is_nan residual)) }
    requires residual_in_bounds { at + length (line (name.now ∷ decimal steps ∷ hex residual ∷ [])) ≤ length out.old }
    ensures { Written out.old at (line (name.now ∷ decimal steps ∷ hex residual ∷ [])) out.new result }
{
    let k = put_word(out, at, name, b' ');
    let k = put_number(out, k, steps as u64, b' ');
    put_float(out, k, residual, b'\n')
}

// A part's number, ending (0 limit, 1 settled, 2 empty) and steps, and its residual unless it is empty.
pub(crate) fn put_ending(
    out: &mut [u8],
    at: usize,
    number: u32,
    ending: u32,
    steps: u32,
    residual: f32,
) -> usize
    requires t { T (not (is_nan residual)) }
    requires steps_in_bounds { at + length (head_line number (ending_of ending residual) steps) ≤ length out.old }
    ensures { Written out.old at (head_line number (ending_of ending residual) steps) out.new result }
{
    let k = put_word(out, at, b"part", b' ');
    let k = put_number(out, k, number as u64, b' ');
    if ending == 0 {
        return put_residual(out, k, b"limit", steps, residual);
    }
    if ending == 1 {
        return put_residual(out, k, b"settled", steps, residual);
    }
    let k = put_word(out, k, b"empty", b' ');
    put_number(out, k, steps as u64, b'\n')
}
