// Reads bale files that follow one another from standard input, each up to its end word, and writes the listing of each to standard output as soon as it
// has ended. What is left at the end of the input, if any byte, is a bale too. One set of work buffers serves all bales. A read that fails and an input of
// over 2^32 bytes end it with a line on standard error, and no listing of the bale that has not ended; so does a write that fails.
//
// What is proved and what is only run is as in `bale`: whatever is decided is decided in functions that are handed what `read` and `write` answered.
#![tactic(auto)]

ghost use Rattle.std.specs.Prelude.{◌≡◌, List, ◌++◌, ℕ, ◌+◌, ◌^◌, ◌≤◌, ◌<◌, Option, length};
ghost use Rattle.bale_answer.specs.Open.{OpenIn, SomeOpenIn};
ghost use Rattle.streams.specs.Reads.{read_call};
ghost use Rattle.streams.specs.Input.{Came, never, after_read};
ghost use Rattle.streams.specs.Writes.{GoneInOrder};
ghost use Rattle.shift.specs.Program.{texts_of};
ghost use Rattle.shift.specs.Shifts.{WentOver, HoldsShift, SomeShift, SomeGoing, ReadBy};

mod input;

use crate::input::{Shift, Went, begin, is_going};
use bale_answer::Input;
use bale_listing::{list_last, list_next};
use std::io::{Read, Write};
use streams::{Phase, count, hand_over, phase_after, read_some};

// Hands over the listing of each bale that ends in the piece.
fn list_piece<W: Write>(
    to: &mut W,
    input: Input,
    piece: &[u8],
    markers: &mut [u32],
    pairs: &mut [u32],
    work_floats: &mut [f32],
    work_numbers: &mut [u32],
) -> Went
    requires some_open_in { SomeOpenIn input markers.old pairs.old }
    requires piece_bound { input.bytes + length piece.now < 2 ^ 64 }
    requires work_floats_len { (length work_floats.old ≡ 16128) × (length work_numbers.old ≡ 16128) }
    ensures { (bs : List ℕ) → OpenIn bs input markers.old pairs.old → WentOver (W.contents to.old) (W.contents to.new) (bs ++ piece.now) result markers.new pairs.new }
{
    let mut out = [0; 4096];
    let mut held = input;
    let mut at = 0;
    // It moves on by what a bale takes up.
    while at < piece.len() {
        let next = list_next(
            held,
            &piece[at..],
            markers,
            pairs,
            work_floats,
            work_numbers,
            &mut out,
        );
        let n = next.len;
        at += next.used;
        held = next.input;
        if !hand_over(to, &out[..n]) {
            return Went {
                input: held,
                written: false,
            };
        }
    }
    Went {
        input: held,
        written: true,
    }
}

// What a `read` gave that answered `got` and left this in its buffer.
fn take_read<W: Write>(
    to: &mut W,
    shift: Shift,
    got: Option<usize>,
    buffer: &[u8],
    markers: &mut [u32],
    pairs: &mut [u32],
    work_floats: &mut [f32],
    work_numbers: &mut [u32],
) -> Shift
    requires some_going { SomeGoing shift markers.old pairs.old }
    requires buffer_len_bound { length buffer.now ≤ 65536 }
    requires work_floats_len { (length work_floats.old ≡ 16128) × (length work_numbers.old ≡ 16128) }
    ensures { (before : Option (List ℕ)) (x : Came) → HoldsShift before (W.contents to.old) x shift markers.old pairs.old → HoldsShift before (W.contents to.new) (after_read never (read_call got buffer.now) x.bytes) result markers.new pairs.new }
{
    let n = count(got, buffer);
    let input = shift.input;
    let went = list_piece(
        to,
        input,
        &buffer[..n],
        markers,
        pairs,
        work_floats,
        work_numbers,
    );
    let bytes = shift.bytes + n as u64;
    let phase = phase_after(got, n, bytes, false);
    let held = went.input;
    Shift {
        input: held,
        bytes: bytes,
        phase: phase,
        written: went.written,
    }
}

// Reads to the end of the input, and lists each bale that ends.
fn read_shift<R: Read, W: Write>(
    from: &mut R,
    to: &mut W,
    markers: &mut [u32],
    pairs: &mut [u32],
    work_floats: &mut [f32],
    work_numbers: &mut [u32],
) -> Shift
    requires markers_len { (length markers.old ≡ 24) × (length pairs.old ≡ 140) }
    requires work_floats_len { (length work_floats.old ≡ 16128) × (length work_numbers.old ≡ 16128) }
    ensures { ReadBy (R.remaining from.old) (R.remaining from.new) (W.contents to.old) (W.contents to.new) result markers.new pairs.new }
{
    let mut buffer = [0; 65536];
    let mut shift = begin();
    while is_going(shift) {
        let got = read_some(from, &mut buffer);
        shift = take_read(
            to,
            shift,
            got,
            &buffer,
            markers,
            pairs,
            work_floats,
            work_numbers,
        );
    }
    shift
}

// The listing of what no end word has ended, once the end of the input was found. Whether all listings of the shift were handed over.
fn write_last<W: Write>(
    to: &mut W,
    shift: Shift,
    markers: &[u32],
    pairs: &[u32],
    work_floats: &mut [f32],
    work_numbers: &mut [u32],
) -> bool
    requires some_shift { SomeShift shift markers.now pairs.now }
    requires work_floats_len { (length work_floats.old ≡ 16128) × (length work_numbers.old ≡ 16128) }
    ensures { (before : Option (List ℕ)) (x : Came) → HoldsShift before (W.contents to.old) x shift markers.now pairs.now → GoneInOrder before (W.contents to.new) (texts_of x) result }
{
    if !shift.written {
        return false;
    }
    let phase = shift.phase;
    match phase {
        Phase::Whole => {
            let mut out = [0; 4096];
            let input = shift.input;
            let n = list_last(input, markers, pairs, work_floats, work_numbers, &mut out);
            hand_over(to, &out[..n])
        }
        Phase::Reading => true,
        Phase::TooLong => true,
        Phase::Unreadable => true,
    }
}

// A line for what went wrong.
fn complain<W: Write>(to: &mut W, phase: Phase, written: bool) {
    if !written {
        hand_over(to, b"shift: a listing can't be written\n");
        return;
    }
    match phase {
        Phase::TooLong => {
            hand_over(to, b"shift: the input is too long\n");
        }
        Phase::Unreadable => {
            hand_over(to, b"shift: the input can't be read\n");
        }
        Phase::Reading | Phase::Whole => {}
    }
}

fn main(rt: HostRuntime) {
    let mut markers = [0; 24];
    let mut pairs = [0; 140];
    let mut work_floats = [0.0; 16128];
    let mut work_numbers = [0; 16128];
    let mut listings = rt.stdout();
    let shift = read_shift(
        &mut rt.stdin(),
        &mut listings,
        &mut markers,
        &mut pairs,
        &mut work_floats,
        &mut work_numbers,
    );
    let written = write_last(
        &mut rt.stdout(),
        shift,
        &markers,
        &pairs,
        &mut work_floats,
        &mut work_numbers,
    );
    let phase = shift.phase;
    complain(&mut rt.stderr(), phase, written);
}
