// What the words of a bale file say, taken one by one. It has no end of its own: a bad word is found however many words came before it.
ghost use Rattle.std.specs.Prelude.{◌≡◌};
ghost use Rattle.bale_file.specs.Reading.{held_of, most_words, one_more, put_at, kept_word, read_word};

use crate::word::{is_clean, kind_of, may_follow};

// How far words are counted: a file that has more does not exist.
const MOST_WORDS: u32 = 4294967295;

#[derive(Clone, Copy)]
pub struct Reading {
    // How many good words there are, which is the place of the next one; once a word is bad, its place.
    pub place: u64,
    // The last word's kind, 0 before the first.
    pub kind: u32,
    pub bad: bool,
    // The words of kinds 1, 2 and 3.
    pub rates: u32,
    pub prior: u32,
    pub grades: u32,
    // The word of kind 7, 0 where there is none.
    pub base: u32,
    // How many words of kinds 4 and 5 there are.
    pub markers: u32,
    pub pairs: u32,
}

// Puts a word at the place `count`, if it is there, and counts it.
fn put_word(words: &mut [u32], count: u32, word: u32) -> u32
    ensures { (result ≡ one_more most_words count) × (words.new ≡ put_at most_words words.old count word) }
{
    let at = count as usize;
    if count < MOST_WORDS {
        if at < words.len() {
            words[at] = word;
        }
        return count + 1;
    }
    count
}

// A good word, by its kind.
fn keep_word(
    reading: Reading,
    word: u32,
    kind: u32,
    markers: &mut [u32],
    pairs: &mut [u32],
) -> Reading
    ensures { held_of result markers.new pairs.new ≡ kept_word word kind (held_of reading markers.old pairs.old) }
{
    let mut next = reading;
    next.place = reading.place.saturating_add(1);
    next.kind = kind;
    if kind == 1 {
        next.rates = word;
        return next;
    }
    if kind == 2 {
        next.prior = word;
        return next;
    }
    if kind == 3 {
        next.grades = word;
        return next;
    }
    if kind == 7 {
        next.base = word;
        return next;
    }
    if kind == 4 {
        next.markers = put_word(markers, reading.markers, word);
        return next;
    }
    if kind == 5 {
        next.pairs = put_word(pairs, reading.pairs, word);
    }
    next
}

// The next word. Once a word is bad nothing changes any more.
pub fn read_word(reading: Reading, word: u32, markers: &mut [u32], pairs: &mut [u32]) -> Reading
    ensures { held_of result markers.new pairs.new ≡ read_word word (held_of reading markers.old pairs.old) }
{
    if reading.bad {
        return reading;
    }
    let kind = kind_of(word);
    let mut spoilt = reading;
    spoilt.bad = true;
    if !may_follow(reading.kind, kind) {
        return spoilt;
    }
    if !is_clean(word) {
        return spoilt;
    }
    keep_word(reading, word, kind, markers, pairs)
}
