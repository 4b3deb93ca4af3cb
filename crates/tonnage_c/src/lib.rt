// Tonnage by grade as programs in C and Rust link it: include/tonnage.h declares the function. A slice is a pointer and a length there.
#![tactic(auto)]

ghost use Rattle.definition.specs.Tonnage.{tonnage_by_grade};
ghost use Rattle.tonnage.specs.Reply.{Replies};

use tonnage::Reply;

// The totals are set, not added to, and a refusal leaves them as they were.
#[unsafe(no_mangle)]
pub extern "C" fn tonnage_by_grade(csv: &[u8], shift: &[u8], totals: &mut [u64]) -> Reply
    ensures { Replies result totals.new (tonnage_by_grade csv.now shift.now totals.old) }
{
    tonnage::tonnage_by_grade(csv, shift, totals)
}
