// Two readers over one belt, as programs in C and Rust call it.
ghost use Rattle.std.specs.Prelude.{◌≡◌};
ghost use Rattle.definition.specs.Readers.{match_call};
ghost use Rattle.pikaplatinum.specs.Matches.{matches_to, MatchAnswers};

use checks::Refusal;
use readers::match_reads;

// How many matches were written; or the refusal's number and place.
#[repr(C)]
#[derive(Clone, Copy)]
pub struct Matches {
    pub refusal: u32,
    pub place: u32,
    pub matches: u32,
}

impl From<Result<u32, Refusal>> for Matches {
    ghost from_gives = { λ answer reply. reply ≡ matches_to answer };

    fn from(answer: Result<u32, Refusal>) -> Matches {
        match answer {
            Ok(matches) => Matches {
                refusal: 0,
                place: 0,
                matches: matches,
            },
            Err(refusal) => Matches {
                refusal: refusal.check.number(),
                place: refusal.place,
                matches: 0,
            },
        }
    }
}

// The upper and the lower reads, two numbers each: a tick and a marker.
pub fn pikaplatinum_match_reads(
    upper: &[u32],
    lower: &[u32],
    window: u32,
    matches: &mut [u32],
) -> Matches
    ensures { MatchAnswers result matches.new (match_call upper.now lower.now window matches.old) }
{
    match_reads(upper, lower, window, matches).into()
}
