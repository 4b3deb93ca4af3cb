// The morning's lines, as far as they were read.
ghost use Rattle.std.specs.Prelude.{◌≡◌, List, [], ℕ, ◌≤◌, length};
ghost use Rattle.streams.specs.Reads.{read_call};
ghost use Rattle.streams.specs.Input.{is_reading, after_read, came_by};
ghost use Rattle.depot.specs.Program.{enough};
ghost use Rattle.depot.specs.Lines.{CountsLines, HoldsLines};

use streams::{Phase, is_reading, phase_after};

// With so many bytes no further one counts: 10,000 good lines have at most 100,000, and 11 more are a line that is too long.
const ENOUGH: usize = 100011;

#[derive(Clone, Copy)]
pub struct Csv {
    // How many bytes came.
    pub len: usize,
    pub phase: Phase,
}

// Before the first read.
pub fn begin() -> Csv
    ensures { (text : List ℕ) → HoldsLines (came_by enough []) result text }
{
    Csv {
        len: 0,
        phase: Phase::Reading,
    }
}

// Whether there is more to read.
pub fn is_going(csv: Csv) -> bool
    ensures { result ≡ is_reading csv.phase }
{
    let phase = csv.phase;
    is_reading(phase)
}

// What a `read` gave that answered `got` and left this in its buffer, behind so many bytes.
pub fn take_read(len: usize, got: Option<usize>, buffer: &[u8]) -> Csv
    requires { (len ≤ 100010) × (length buffer.now ≤ 65536) }
    ensures { (bs : List ℕ) → length bs ≡ len → CountsLines (after_read enough (read_call got buffer.now) bs) result }
{
    let n = streams::count(got, buffer);
    let all = len + n;
    let phase = phase_after(got, n, all as u64, ENOUGH <= all);
    Csv {
        len: all,
        phase: phase,
    }
}
