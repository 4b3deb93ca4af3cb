// The decoder: a state by value that is fed ranges of bytes, and what it finds does not depend on where the input is cut.
ghost use Rattle.std.specs.Prelude.{◌≡◌, List, ℕ};
ghost use Rattle.claims.specs.ShiftCut.{NoEnd};
ghost use Rattle.bale_file.specs.FirstBale.{FirstBale};
ghost use Rattle.bale_file.specs.Decoder.{started, fed_of, fed_byte, fed, ends_bale, fed_bale_of, fed_bale, place_of, finished};

use crate::reading::{Reading, read_word};
use crate::word::{kind_of, word_of};

#[derive(Clone, Copy)]
pub struct Decoder {
    pub reading: Reading,
    // How many bytes of the next word are there, and these.
    pub filled: u32,
    pub first: u8,
    pub second: u8,
    pub third: u8,
}

// What was fed of a range that may go on behind the end of a bale: how many bytes, and whether they end in an end word.
#[derive(Clone, Copy)]
pub struct FedBale {
    pub decoder: Decoder,
    pub used: usize,
    pub ended: bool,
}

// The file is bad, number 9, and this is the place.
#[derive(Clone, Copy, Debug, PartialEq, Eq)]
pub struct BadWord {
    pub place: u64,
}

pub fn start() -> Decoder
    ensures { result ≡ started }
{
    let reading = Reading {
        place: 0,
        kind: 0,
        bad: false,
        rates: 0,
        prior: 0,
        grades: 0,
        base: 0,
        markers: 0,
        pairs: 0,
    };
    Decoder {
        reading: reading,
        filled: 0,
        first: 0,
        second: 0,
        third: 0,
    }
}

fn feed_byte(decoder: Decoder, byte: u8, markers: &mut [u32], pairs: &mut [u32]) -> Decoder
    ensures { fed_of result markers.new pairs.new ≡ fed_byte byte (fed_of decoder markers.old pairs.old) }
{
    let filled = decoder.filled;
    let mut next = decoder;
    if filled == 0 {
        next.filled = 1;
        next.first = byte;
        return next;
    }
    if filled == 1 {
        next.filled = 2;
        next.second = byte;
        return next;
    }
    if filled == 2 {
        next.filled = 3;
        next.third = byte;
        return next;
    }
    let word = word_of(decoder.first, decoder.second, decoder.third, byte);
    let reading = read_word(decoder.reading, word, markers, pairs);
    next.filled = 0;
    next.reading = reading;
    next
}

// The words of kinds 4 and 5 go into the two slices, the first that fit. Feeding one range and then another is feeding the two as one.
pub fn feed(decoder: Decoder, bytes: &[u8], markers: &mut [u32], pairs: &mut [u32]) -> Decoder
    ensures { fed_of result markers.new pairs.new ≡ fed bytes.now (fed_of decoder markers.old pairs.old) }
{
    let mut d = decoder;
    for &byte in bytes {
        d = feed_byte(d, byte, markers, pairs);
    }
    d
}

// Whether the next byte completes a word of kind 6. What was read before does not matter, nor do its other bits.
fn ends_bale(decoder: Decoder, byte: u8) -> bool
    ensures { result ≡ ends_bale byte decoder }
{
    if decoder.filled < 3 {
        return false;
    }
    let word = word_of(decoder.first, decoder.second, decoder.third, byte);
    kind_of(word) == 6
}

// As `feed`, up to the first end word if one is there: what follows it is another bale's. So it consumes exactly the first bale of what is left, however
// the input was cut.
pub fn feed_bale(decoder: Decoder, bytes: &[u8], markers: &mut [u32], pairs: &mut [u32]) -> FedBale
    ensures pairs_after { fed_bale_of result markers.new pairs.new ≡ fed_bale bytes.now (fed_of decoder markers.old pairs.old) }
    ensures by_index { (bs ms ps : List ℕ) → NoEnd bs → fed_of decoder markers.old pairs.old ≡ fed bs (fed_of started ms ps) → FirstBale bs bytes.now result }
{
    let mut d = decoder;
    for (i, &byte) in bytes.iter().enumerate() {
        let ends = ends_bale(d, byte);
        d = feed_byte(d, byte, markers, pairs);
        if ends {
            return FedBale {
                decoder: d,
                used: i + 1,
                ended: true,
            };
        }
    }
    FedBale {
        decoder: d,
        used: bytes.len(),
        ended: false,
    }
}

// At the end of the input: a missing end or bytes that make no whole word are bad too.
pub fn finish(decoder: Decoder) -> Result<(), BadWord>
    ensures { place_of result ≡ finished decoder }
{
    let reading = decoder.reading;
    if reading.bad || reading.kind != 6 || decoder.filled != 0 {
        return Err(BadWord {
            place: reading.place,
        });
    }
    Ok(())
}
