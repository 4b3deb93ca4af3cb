// What each `read` gave, taken in, and the listing of all of it.
ghost use Rattle.std.specs.Prelude.{◌≡◌, List, [], ℕ, ◌≤◌, length};
ghost use Rattle.definition.specs.Call.{overwrite};
ghost use Rattle.bale_answer.specs.Taken.{TakenIn, SomeTakenIn};
ghost use Rattle.streams.specs.Reads.{read_call};
ghost use Rattle.streams.specs.Input.{Came, after_read, came_by, is_reading};
ghost use Rattle.bale.specs.Program.{decided, listing_of};
ghost use Rattle.bale.specs.Taking.{HoldsInput, SomeHeld};

use bale_answer::Input;
use streams::{Phase, is_reading};

#[derive(Clone, Copy)]
pub struct Taking {
    pub input: Input,
    pub phase: Phase,
}

// Before the first read.
pub fn begin() -> Taking
    ensures { (ms ps : List ℕ) → length ms ≡ 24 → length ps ≡ 140 → HoldsInput (came_by decided []) result ms ps }
{
    let input = bale_answer::begin();
    Taking {
        input: input,
        phase: Phase::Reading,
    }
}

// Whether there is more to read.
pub fn is_going(taking: Taking) -> bool
    ensures { result ≡ is_reading taking.phase }
{
    let phase = taking.phase;
    is_reading(phase)
}

// What a `read` gave that answered `got` and left this in its buffer.
pub fn take_read(
    input: Input,
    got: Option<usize>,
    buffer: &[u8],
    markers: &mut [u32],
    pairs: &mut [u32],
) -> Taking
    requires some_taken_in { SomeTakenIn input markers.old pairs.old }
    requires bytes_bound { (input.bytes ≤ 4294967296) × (length buffer.now ≤ 65536) }
    ensures { (bs : List ℕ) → TakenIn bs input markers.old pairs.old → HoldsInput (after_read decided (read_call got buffer.now) bs) result markers.new pairs.new }
{
    let n = streams::count(got, buffer);
    let taken = bale_answer::take_piece(input, &buffer[..n], markers, pairs);
    let enough = bale_answer::is_decided(taken.decoder);
    let phase = streams::phase_after(got, n, taken.bytes, enough);
    Taking {
        input: taken,
        phase: phase,
    }
}

// The listing stands at the front of `out`, whose rest is left as it was. How many bytes it has: none, unless all was read that counts.
pub fn put_listing(taking: Taking, markers: &[u32], pairs: &[u32], out: &mut [u8]) -> usize
    requires some_held { SomeHeld taking markers.now pairs.now }
    requires in_bounds { 4096 ≤ length out.old }
    ensures { (x : Came) → HoldsInput x taking markers.now pairs.now → (out.new ≡ overwrite (listing_of x) out.old) × (result ≡ length (listing_of x)) }
{
    let input = taking.input;
    let phase = taking.phase;
    match phase {
        Phase::Whole => {
            let mut work_floats = [0.0; 16128];
            let mut work_numbers = [0; 16128];
            let decoder = input.decoder;
            bale_listing::list_bale(
                decoder,
                markers,
                pairs,
                &mut work_floats,
                &mut work_numbers,
                out,
            )
        }
        Phase::Reading => 0,
        Phase::TooLong => 0,
        Phase::Unreadable => 0,
    }
}
