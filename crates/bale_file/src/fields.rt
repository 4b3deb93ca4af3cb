// The fields of a good word, as the settings and the bale that they stand for.
ghost use Rattle.std.specs.Prelude.{◌≡◌, ◌≤◌, ◌<◌, eqb};
ghost use Rattle.std.proofs.Math.Option.{none};
ghost use Rattle.definition.specs.BaleFile.{bits, evidence_of};
ghost use Rattle.definition.specs.FileAnswer.{zero_base};
ghost use Rattle.definition.specs.Floats.{ratio};
ghost use Rattle.bale_file.specs.Base.{rate_of};

use crate::word::kind_of;

// Bits 19 to 10: alpha of the rates, the grade of a pair.
pub fn upper_ten(word: u32) -> u32
    ensures { (result ≡ bits 20 10 word) × (result < 1024) }
{
    word % 1048576 / 1024
}

// Bits 9 to 0: beta of the rates, the prior, the marker of a pair.
pub fn lower_ten(word: u32) -> u32
    ensures { (result ≡ bits 10 0 word) × (result < 1024) }
{
    word % 1024
}

// A setting in 1,024ths.
pub fn over_1024(n: u32) -> f32
    requires { n ≤ 1024 }
    ensures { result ≡ ratio n 1024 }
{
    (n as f32) / 1024.0
}

fn over_16384(n: u32) -> f32
    requires { n < 32768 }
    ensures { result ≡ ratio n 16384 }
{
    (n as f32) / 16384.0
}

// Of the word of kind 1.
pub fn alpha(word: u32) -> f32
    ensures { result ≡ ratio (bits 20 10 word) 1024 }
{
    over_1024(upper_ten(word))
}

// Beta of the word of kind 1, and the prior of that of kind 2.
pub fn beta(word: u32) -> f32
    ensures { result ≡ ratio (bits 10 0 word) 1024 }
{
    over_1024(lower_ten(word))
}

// Of the word of kind 2.
pub fn is_regularised(word: u32) -> bool
    ensures { result ≡ eqb (bits 11 10 word) 1 }
{
    word % 2048 / 1024 == 1
}

// Of the word of kind 3.
pub fn grade_count(word: u32) -> u32
    ensures { result ≡ bits 11 0 word }
{
    word % 2048
}

// Whether a word is of kind 7 and says a base rate of 0.
pub fn is_zero_base(word: u32) -> bool
    ensures { result ≡ zero_base word }
{
    if kind_of(word) != 7 {
        return false;
    }
    lower_ten(word) == 0
}

// Of a word of kind 4, as it stands. Over 16,384 nothing is left for absent.
fn bare_absent(word: u32) -> f32
    ensures { result ≡ (evidence_of none word).absent }
{
    let e = word % 32768;
    if 16384 < e {
        return over_16384(0);
    }
    over_16384(16384 - e)
}

fn bare_present(word: u32) -> f32
    ensures { result ≡ (evidence_of none word).present }
{
    over_16384(word % 32768)
}

// The same with the base rate of a word of kind 7 taken out, if there is one.
pub(crate) fn absent(word: u32, base: u32) -> f32
    ensures { result ≡ (evidence_of (rate_of base) word).absent }
{
    if base == 0 {
        return bare_absent(word);
    }
    bare_absent(word) * over_1024(lower_ten(base))
}

pub(crate) fn present(word: u32, base: u32) -> f32
    ensures { result ≡ (evidence_of (rate_of base) word).present }
{
    if base == 0 {
        return bare_present(word);
    }
    bare_present(word) * over_1024(1024 - lower_ten(base))
}
