// The lines of the depot: a grade and its grams.
ghost use Rattle.std.specs.Prelude.{[], ◌∷◌, ◌+◌, ◌*◌, ◌≤◌, length};
ghost use Rattle.definition.specs.Listing.{decimal, line};
ghost use Rattle.definition.specs.Tonnage.{total_lines};
ghost use Rattle.listing.specs.Writing.{Written};

use crate::fields::put_number;

fn put_total(out: &mut [u8], at: usize, grade: usize, grams: u64) -> usize
    requires { at + length (line (decimal grade ∷ decimal grams ∷ [])) ≤ length out.old }
    ensures { Written out.old at (line (decimal grade ∷ decimal grams ∷ [])) out.new result }
{
    let k = put_number(out, at, grade as u64, b' ');
    put_number(out, k, grams, b'\n')
}

// A line for each total above 0; 26 bytes are room for each of 1,024 grades. The place after them.
pub fn put_totals(out: &mut [u8], totals: &[u64]) -> usize
    requires { (length totals.now ≤ 1024) × (26 * length totals.now ≤ length out.old) }
    ensures { Written out.old 0 (total_lines 0 totals.now) out.new result }
{
    let mut end = 0;
    for (grade, &grams) in totals.iter().enumerate() {
        if grams != 0 {
            end = put_total(out, end, grade, grams);
        }
    }
    end
}
