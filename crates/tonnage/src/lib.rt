// Tonnage by grade, as programs in C and Rust call it: the crate tonnage_c exports the function.
#![tactic(auto)]

ghost use Rattle.std.specs.Prelude.{◌≡◌};
ghost use Rattle.definition.specs.Tonnage.{tonnage_by_grade};
ghost use Rattle.tonnage.specs.Reply.{Replies};

mod pieces;
mod tally;

use crate::pieces::weigh_shift;
use checks::{Check, Refusal};
pub use pieces::{Weighing, weigh_piece};
pub use tally::{Standing, Tally, begin, is_waiting, outcome_of};

// Refusal 0, and how many lines were weighed; or the refusal's number, and its line.
#[repr(C)]
#[derive(Clone, Copy)]
pub struct Reply {
    pub refusal: u32,
    pub place: u32,
    pub lines: u32,
}

impl From<Result<u32, Refusal>> for Reply {
    ghost use Rattle.tonnage.specs.Reply.{reply_of};

    ghost from_gives = { λ r p. p ≡ reply_of r };

    fn from(weighed: Result<u32, Refusal>) -> Reply {
        match weighed {
            Ok(lines) => Reply {
                refusal: 0,
                place: 0,
                lines: lines,
            },
            Err(refusal) => Reply {
                refusal: refusal.check.number(),
                place: refusal.place,
                lines: 0,
            },
        }
    }
}

const GRADES: usize = 1024;

// The totals are set, not added to, and a refusal leaves them as they were.
pub fn tonnage_by_grade(csv: &[u8], shift: &[u8], totals: &mut [u64]) -> Reply
    ensures { Replies result totals.new (tonnage_by_grade csv.now shift.now totals.old) }
{
    if totals.len() < GRADES {
        return Reply::from(Err(Refusal {
            check: Check::BuffersTooSmall,
            place: 0,
        }));
    }
    let mut sums = [0; GRADES];
    let weighed = weigh_shift(csv, shift, &mut sums);
    if weighed.is_ok() {
        totals[..GRADES].copy_from_slice(&sums);
    }
    Reply::from(weighed)
}
