// Whether there is more to read.
ghost use Rattle.std.specs.Prelude.{◌≡◌};
ghost use Rattle.streams.specs.Input.{is_reading, phase_after};

// The most bytes that a program takes in: input without end would not end otherwise.
const MOST_BYTES: u64 = 4294967296;

// There is more to read, and if not why: all was read that counts, or too much, or a read failed.
#[derive(Clone, Copy)]
pub enum Phase {
    Reading,
    Whole,
    TooLong,
    Unreadable,
}

pub fn is_reading(phase: Phase) -> bool
    ensures { result ≡ is_reading phase }
{
    matches!(phase, Phase::Reading)
}

// After a `read` that answered `got` and gave n bytes, with which there are `bytes`. Where these are enough no further byte counts.
pub fn phase_after(got: Option<usize>, n: usize, bytes: u64, enough: bool) -> Phase
    ensures { result ≡ phase_after got n bytes enough }
{
    if got.is_none() {
        return Phase::Unreadable;
    }
    if n == 0 {
        return Phase::Whole;
    }
    if MOST_BYTES < bytes {
        return Phase::TooLong;
    }
    if enough {
        return Phase::Whole;
    }
    Phase::Reading
}
