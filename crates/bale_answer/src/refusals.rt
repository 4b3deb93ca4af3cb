// The program's own checks, which come before the library's: number 9, then 11, then 1.
ghost use Rattle.std.specs.Prelude.{◌≡◌, ◌||◌, ltb};
ghost use Rattle.bale_answer.specs.Checks.{verdict_of, file_check, base_check, size_check};

use bale_file::Decoder;
use checks::{Check, FileRefusal};

// The most grades, markers and pairs that the program takes.
const MOST_GRADES: u32 = 24;

const MOST_MARKERS: u32 = 24;

const MOST_PAIRS: u32 = 140;

fn is_too_many(grades: u32, markers: u32, pairs: u32) -> bool
    ensures { result ≡ (ltb 24 grades || ltb 24 markers || ltb 140 pairs) }
{
    MOST_GRADES < grades || MOST_MARKERS < markers || MOST_PAIRS < pairs
}

// The file is bad.
pub(crate) fn check_file(decoder: Decoder) -> Result<(), FileRefusal>
    ensures { verdict_of result ≡ file_check decoder }
{
    if let Err(bad) = bale_file::finish(decoder) {
        return Err(FileRefusal {
            check: Check::BadWord,
            place: bad.place,
        });
    }
    Ok(())
}

// Where a good file has its word of kind 7.
const BASE_PLACE: u64 = 2;

// The base rate is 0.
pub(crate) fn check_base(decoder: Decoder) -> Result<(), FileRefusal>
    ensures { verdict_of result ≡ base_check decoder }
{
    let reading = decoder.reading;
    if bale_file::is_zero_base(reading.base) {
        return Err(FileRefusal {
            check: Check::ZeroBase,
            place: BASE_PLACE,
        });
    }
    Ok(())
}

// The bale is larger than the program takes.
pub(crate) fn check_size(decoder: Decoder) -> Result<(), FileRefusal>
    ensures { verdict_of result ≡ size_check decoder }
{
    let reading = decoder.reading;
    let grades = bale_file::grade_count(reading.grades);
    if is_too_many(grades, reading.markers, reading.pairs) {
        return Err(FileRefusal {
            check: Check::TooMany,
            place: 0,
        });
    }
    Ok(())
}
