// `depot CSV SHIFT` reads the morning's lines and the bale files of a shift, each from a file that is named, and prints a line for each grade with grams, or the
// refusal. Of the shift no more is read than the lines wait for, in pieces, in step with the lines. A file that can't be opened or read and a shift of over 2^32
// bytes end it with a line on standard error and nothing printed, a write that fails with such a line.
//
// What is proved and what is only run is as in `bale` and `shift`: whatever is decided is decided in functions that are handed what `read` and `write` answered.
#![tactic(auto)]

ghost use Rattle.std.specs.Prelude.{◌≡◌, length, replicate};
ghost use Rattle.depot.specs.Lines.{LinesReadBy};
ghost use Rattle.depot.specs.Depots.{ReadBy, SomeDepot, OutcomeHanded};

mod csv;
mod depot;

use crate::csv::Csv;
use crate::depot::{Depot, is_going, is_settled, put_outcome};
use std::env::{Env, FillError};
use std::fs::Files;
use std::io::{Read, Write};
use std::{fs, str};
use streams::{Phase, hand_over, read_some};

// Reads the lines to their end, or as many bytes as count.
fn read_lines<R: Read>(from: &mut R, text: &mut [u8]) -> Csv
    requires { length text.old ≡ 165546 }
    ensures { LinesReadBy (R.remaining from.old) (R.remaining from.new) result text.new }
{
    let mut lines = csv::begin();
    while csv::is_going(lines) {
        let at = lines.len;
        let end = at + 65536;
        let got = read_some(from, &mut text[at..end]);
        lines = csv::take_read(at, got, &text[at..end]);
    }
    lines
}

// Reads the shift as far as the lines wait for it, and weighs each bale that ends.
fn read_shift<R: Read>(
    from: &mut R,
    csv: &[u8],
    markers: &mut [u32],
    pairs: &mut [u32],
    work_floats: &mut [f32],
    work_numbers: &mut [u32],
    sums: &mut [u64],
) -> Depot
    requires markers_len { (length markers.old ≡ 24) × (length pairs.old ≡ 140) × (sums.old ≡ replicate 1024 0) }
    requires work_floats_len { (length work_floats.old ≡ 16128) × (length work_numbers.old ≡ 16128) }
    ensures { ReadBy (R.remaining from.old) (R.remaining from.new) csv.now result markers.new pairs.new sums.new }
{
    let mut buffer = [0; 65536];
    let mut depot = depot::begin(csv);
    while is_going(depot) {
        let got = read_some(from, &mut buffer);
        depot = depot::take_read(
            depot,
            got,
            &buffer,
            csv,
            markers,
            pairs,
            work_floats,
            work_numbers,
            sums,
        );
    }
    depot
}

// What is known of the shift, printed. Whether all of it was handed over.
fn write_outcome<W: Write>(to: &mut W, depot: Depot, sums: &[u64]) -> bool
    requires { SomeDepot depot sums.now }
    ensures { OutcomeHanded (W.contents to.old) (W.contents to.new) depot sums.now result }
{
    let mut out = [0; 26624];
    let n = put_outcome(depot, sums, &mut out);
    hand_over(to, &out[..n])
}

// A line for what went wrong with the shift.
fn complain<W: Write>(to: &mut W, depot: Depot, written: bool) {
    if !written {
        hand_over(to, b"depot: the totals can't be written\n");
        return;
    }
    if is_settled(depot) {
        return;
    }
    let phase = depot.phase;
    match phase {
        Phase::TooLong => {
            hand_over(to, b"depot: the shift is too long\n");
        }
        Phase::Unreadable => {
            hand_over(to, b"depot: the shift can't be read\n");
        }
        Phase::Reading | Phase::Whole => {}
    }
}

// The shift, weighed by the lines.
fn weigh<R: Read, W: Write, E: Write>(csv: &[u8], from: &mut R, to: &mut W, complaints: &mut E) {
    let mut markers = [0; 24];
    let mut pairs = [0; 140];
    let mut work_floats = [0.0; 16128];
    let mut work_numbers = [0; 16128];
    let mut sums = [0; 1024];
    let depot = read_shift(
        from,
        csv,
        &mut markers,
        &mut pairs,
        &mut work_floats,
        &mut work_numbers,
        &mut sums,
    );
    let written = write_outcome(to, depot, &sums);
    complain(complaints, depot, written);
}

// Whether there is such an argument. The program's name is the first.
fn is_given<R: Env>(rt: &R, argument: usize) -> bool {
    let mut front = [0; 1];
    match rt.arg(argument, &mut front) {
        Ok(_) | Err(FillError::TooLong) => true,
        Err(FillError::NotPresent) => false,
    }
}

// The file that an argument names, if it can be opened. A name is UTF-8.
fn open<R: Env + Files>(rt: &R, argument: usize) -> Option<R::File> {
    let mut path = [0; 4096];
    let Ok(n) = rt.arg(argument, &mut path) else {
        return None;
    };
    let Ok(name) = str::from_utf8(&path[..n]) else {
        return None;
    };
    fs::open(rt, name).ok()
}

fn main(rt: HostRuntime) {
    let mut complaints = rt.stderr();
    if !is_given(&rt, 2) || is_given(&rt, 3) {
        hand_over(&mut complaints, b"depot: wants two files, CSV and SHIFT\n");
        return;
    }
    let Some(mut from) = open(&rt, 1) else {
        hand_over(&mut complaints, b"depot: the CSV can't be opened\n");
        return;
    };
    let Some(mut shift) = open(&rt, 2) else {
        hand_over(&mut complaints, b"depot: the shift can't be opened\n");
        return;
    };
    let mut text = [0; 165546];
    let lines = read_lines(&mut from, &mut text);
    let phase = lines.phase;
    match phase {
        Phase::Whole => {
            let n = lines.len;
            weigh(&text[..n], &mut shift, &mut rt.stdout(), &mut complaints);
        }
        Phase::Reading | Phase::TooLong | Phase::Unreadable => {
            hand_over(&mut complaints, b"depot: the CSV can't be read\n");
        }
    }
}
