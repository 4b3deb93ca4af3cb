// A refusal: the check that fails and the place where it does, as documents 01 and 02 number them.
ghost use Rattle.std.specs.Prelude.{◌≡◌};
ghost use Rattle.definition.specs.Refusals.{accepted, or_refused};
ghost use Rattle.checks.specs.Verdicts.{number_of, place_of, verdict_of};

#[derive(Clone, Copy, Debug, PartialEq, Eq)]
pub enum Check {
    TooMany = 1,
    BuffersTooSmall = 2,
    Probability = 3,
    Stopping = 4,
    Evidence = 5,
    UnknownPair = 6,
    RepeatedPair = 7,
    CrowdedMarker = 8,
    BadWord = 9,
    OutOfOrder = 10,
    ZeroBase = 11,
    MalformedLine = 14,
    MissingBale = 15,
    ZeroSeed = 16,
    TooManyTrials = 17,
    TooManyMarkers = 18,
}

impl Check {
    pub fn number(self) -> u32
        ensures { result ≡ number_of self }
    {
        self as u32
    }
}

#[derive(Clone, Copy, Debug, PartialEq, Eq)]
pub struct Refusal {
    pub check: Check,
    pub place: u32,
}

// A bale file's, whose words are counted in 64 bits.
#[derive(Clone, Copy, Debug, PartialEq, Eq)]
pub struct FileRefusal {
    pub check: Check,
    pub place: u64,
}

impl From<Refusal> for FileRefusal {
    ghost from_gives = { λ r f. f ≡ record { check = r.check; place = r.place } };

    fn from(refusal: Refusal) -> FileRefusal {
        FileRefusal {
            check: refusal.check,
            place: refusal.place.into(),
        }
    }
}

// The refusal where a check found a place.
pub fn refuse(check: Check, place: Option<u32>) -> Result<(), Refusal>
    ensures { verdict_of result ≡ or_refused (number_of check) (place_of place) accepted }
{
    match place {
        Some(place) => Err(Refusal {
            check: check,
            place: place,
        }),
        None => Ok(()),
    }
}
