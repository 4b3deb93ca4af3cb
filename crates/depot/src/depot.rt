// How far a shift's input was read and weighed, and what is printed of it. What is decided here neither reads nor writes.
ghost use Rattle.std.specs.Prelude.{◌≡◌, List, [], ℕ, ◌≤◌, length, replicate};
ghost use Rattle.definition.specs.Call.{overwrite};
ghost use Rattle.streams.specs.Reads.{read_call};
ghost use Rattle.streams.specs.Input.{Came, never, after_read, came_by};
ghost use Rattle.depot.specs.Depots.{HoldsDepot, SomeDepot, SomeGoing, is_going, is_settled, Follows, text_of};

use streams::{Phase, is_reading, phase_after};
use tonnage::Weighing;

#[derive(Clone, Copy)]
pub struct Depot {
    pub weighing: Weighing,
    // How many bytes came, of all bales.
    pub bytes: u64,
    pub phase: Phase,
}

// Before the first read of the shift.
pub fn begin(csv: &[u8]) -> Depot
    ensures { (ms ps : List ℕ) → length ms ≡ 24 → length ps ≡ 140 → HoldsDepot csv.now (came_by never []) result ms ps (replicate 1024 0) }
{
    let tally = tonnage::begin(csv);
    let input = bale_answer::begin();
    let weighing = Weighing {
        tally: tally,
        input: input,
    };
    Depot {
        weighing: weighing,
        bytes: 0,
        phase: Phase::Reading,
    }
}

// Whether there is more to read, and a line that waits for it.
pub fn is_going(depot: Depot) -> bool
    ensures { result ≡ is_going depot }
{
    let weighing = depot.weighing;
    let tally = weighing.tally;
    if !tonnage::is_waiting(tally) {
        return false;
    }
    let phase = depot.phase;
    is_reading(phase)
}

// Whether it is known what to print: no line waits, or the end of the shift was found.
pub fn is_settled(depot: Depot) -> bool
    ensures { result ≡ is_settled depot }
{
    let weighing = depot.weighing;
    let tally = weighing.tally;
    if !tonnage::is_waiting(tally) {
        return true;
    }
    matches!(depot.phase, Phase::Whole)
}

// What a `read` gave that answered `got` and left this in its buffer.
pub fn take_read(
    depot: Depot,
    got: Option<usize>,
    buffer: &[u8],
    csv: &[u8],
    markers: &mut [u32],
    pairs: &mut [u32],
    work_floats: &mut [f32],
    work_numbers: &mut [u32],
    sums: &mut [u64],
) -> Depot
    requires some_going { SomeGoing csv.now depot markers.old pairs.old sums.old }
    requires buffer_len_bound { length buffer.now ≤ 65536 }
    requires work_floats_len { (length work_floats.old ≡ 16128) × (length work_numbers.old ≡ 16128) }
    ensures { (x : Came) → HoldsDepot csv.now x depot markers.old pairs.old sums.old → HoldsDepot csv.now (after_read never (read_call got buffer.now) x.bytes) result markers.new pairs.new sums.new }
{
    let n = streams::count(got, buffer);
    let held = depot.weighing;
    let weighing = tonnage::weigh_piece(
        held,
        csv,
        &buffer[..n],
        markers,
        pairs,
        work_floats,
        work_numbers,
        sums,
    );
    let bytes = depot.bytes + n as u64;
    let phase = phase_after(got, n, bytes, false);
    Depot {
        weighing: weighing,
        bytes: bytes,
        phase: phase,
    }
}

// What is printed stands at the front of `out`, whose rest is left as it was. How many bytes it has: none, unless it is known.
pub fn put_outcome(depot: Depot, sums: &[u64], out: &mut [u8]) -> usize
    requires { SomeDepot depot sums.now × (26624 ≤ length out.old) }
    ensures { (csv : List ℕ) (x : Came) (ms ps xs : List ℕ) → HoldsDepot csv x depot ms ps sums.now → Follows depot xs → (out.new ≡ overwrite (text_of csv x depot xs) out.old) × (result ≡ length (text_of csv x depot xs)) }
{
    if !is_settled(depot) {
        return 0;
    }
    let weighing = depot.weighing;
    let tally = weighing.tally;
    match tonnage::outcome_of(tally) {
        Ok(_) => listing::put_totals(out, sums),
        Err(refusal) => listing::put_refusal(out, 0, refusal.check.number(), refusal.place.into()),
    }
}
