// How far a shift's input was read and listed. What is decided here neither reads nor writes.
ghost use Rattle.std.specs.Prelude.{◌≡◌, List, [], ℕ, Option, length};
ghost use Rattle.streams.specs.Input.{never, came_by};
ghost use Rattle.shift.specs.Shifts.{HoldsShift, is_going};

use bale_answer::Input;
use streams::{Phase, is_reading};

#[derive(Clone, Copy)]
pub struct Shift {
    // What was taken in of the bale that has not ended.
    pub input: Input,
    // How many bytes came, of all bales.
    pub bytes: u64,
    pub phase: Phase,
    // Whether each listing was handed over whole.
    pub written: bool,
}

// What is left of a piece whose ended bales were listed.
#[derive(Clone, Copy)]
pub struct Went {
    pub input: Input,
    pub written: bool,
}

// Before the first read.
pub fn begin() -> Shift
    ensures { (known : Option (List ℕ)) (ms ps : List ℕ) → length ms ≡ 24 → length ps ≡ 140 → HoldsShift known known (came_by never []) result ms ps }
{
    let input = bale_answer::begin();
    Shift {
        input: input,
        bytes: 0,
        phase: Phase::Reading,
        written: true,
    }
}

// Whether there is more to read, and all listings went.
pub fn is_going(shift: Shift) -> bool
    ensures { result ≡ is_going shift }
{
    if !shift.written {
        return false;
    }
    let phase = shift.phase;
    is_reading(phase)
}
