// The bale that the words of kinds 4 and 5 stand for, two entries to each, as the library takes it. The first words are laid, as many as there is room
// for, and the rest of the slice stays.
ghost use Rattle.std.specs.Prelude.{◌≡◌};
ghost use Rattle.bale_file.specs.Base.{rate_of};
ghost use Rattle.bale_file.specs.Laid.{evidence_laid, pairs_laid};

use crate::fields::{absent, lower_ten, present, upper_ten};

// With the base rate of a word of kind 7 taken out, which is 0 where there is none.
pub fn fill_evidence(words: &[u32], base: u32, evidence: &mut [f32])
    ensures { evidence.new ≡ evidence_laid (rate_of base) words.now evidence.old }
{
    let room = evidence.len() / 2;
    for i in 0..words.len().min(room) {
        let word = words[i];
        evidence[2 * i] = absent(word, base);
        evidence[2 * i + 1] = present(word, base);
    }
}

pub fn fill_pairs(words: &[u32], pairs: &mut [u32])
    ensures { pairs.new ≡ pairs_laid words.now pairs.old }
{
    let room = pairs.len() / 2;
    for i in 0..words.len().min(room) {
        let word = words[i];
        pairs[2 * i] = upper_ten(word);
        pairs[2 * i + 1] = lower_ten(word);
    }
}
