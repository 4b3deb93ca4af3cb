// Reads a bale file from standard input and writes its listing to standard output. A read that fails and an input of over 2^32 bytes end it with a
// line on standard error and no listing, a write that fails with such a line. Its exit status is 0 in each case.
//
// What is proved: it ends on every input, if `read` and `write` return; what is taken in of each `read` is what that call gave, by its answer and by its
// buffer (`take_read`); reading ends where the definition of specs/Program has it end, and not before a read (`read_input`); the listing is the definition's
// of the bytes that came, and whether all of it was handed over follows from what `write` answered (`write_listing`). Of a reader and a writer whose bytes
// are known it is proved too that these bytes came in and went out. Of the system's streams no contract says which bytes a call moves. So it is to be seen in
// `main`, and is run by the tests, which streams are read and written, and which line goes to standard error.
#![tactic(auto)]

ghost use Rattle.std.specs.Prelude.{◌≡◌, length};
ghost use Rattle.bale.specs.Taking.{SomeHeld, ReadBy, ListingHanded};

mod input;

use crate::input::{Taking, begin, is_going, put_listing, take_read};
use std::io::{Read, Write};
use streams::{Phase, hand_over, read_some};

// Reads to the end of the input, or until no further byte counts.
fn read_input<R: Read>(from: &mut R, markers: &mut [u32], pairs: &mut [u32]) -> Taking
    requires { (length markers.old ≡ 24) × (length pairs.old ≡ 140) }
    ensures { ReadBy (R.remaining from.old) (R.remaining from.new) result markers.new pairs.new }
{
    let mut buffer = [0; 65536];
    let mut taking = begin();
    while is_going(taking) {
        let input = taking.input;
        let got = read_some(from, &mut buffer);
        taking = take_read(input, got, &buffer, markers, pairs);
    }
    taking
}

// The listing, if the input was read whole. Whether all of it was handed over.
fn write_listing<W: Write>(to: &mut W, taking: Taking, markers: &[u32], pairs: &[u32]) -> bool
    requires { SomeHeld taking markers.now pairs.now }
    ensures { ListingHanded (W.contents to.old) (W.contents to.new) taking markers.now pairs.now result }
{
    let mut out = [0; 4096];
    let n = put_listing(taking, markers, pairs, &mut out);
    hand_over(to, &out[..n])
}

// A line for what went wrong.
fn complain<W: Write>(to: &mut W, phase: Phase, written: bool) {
    match phase {
        Phase::TooLong => {
            hand_over(to, b"bale: the input is too long\n");
        }
        Phase::Unreadable => {
            hand_over(to, b"bale: the input can't be read\n");
        }
        Phase::Reading | Phase::Whole => {
            if !written {
                hand_over(to, b"bale: the listing can't be written\n");
            }
        }
    }
}

fn main(rt: HostRuntime) {
    let mut markers = [0; 24];
    let mut pairs = [0; 140];
    let taking = read_input(&mut rt.stdin(), &mut markers, &mut pairs);
    let written = write_listing(&mut rt.stdout(), taking, &markers, &pairs);
    let phase = taking.phase;
    complain(&mut rt.stderr(), phase, written);
}
