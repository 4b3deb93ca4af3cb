// Whether a text is a file's listing, byte for byte.
ghost use Rattle.std.specs.Prelude.{◌≡◌, ◌≤◌, length};
ghost use Rattle.std.specs.Str.{bytes_eq};
ghost use Rattle.definition.specs.Listing.{listing};
ghost use Rattle.definition.specs.Shift.{shift_listing};

use bale_answer::{begin, take_piece};
use bale_listing::{list_bale, list_last, list_next};

// Of a bale file.
pub fn is_listing(file: &[u8], text: &[u8]) -> bool
    requires { length file.now ≤ 4096 }
    ensures { result ≡ bytes_eq (listing file.now) text.now }
{
    let mut markers = [0; 24];
    let mut pairs = [0; 140];
    let mut work_floats = [0.0; 16128];
    let mut work_numbers = [0; 16128];
    let start = begin();
    let input = take_piece(start, file, &mut markers, &mut pairs);
    let mut out = [0; 4096];
    let n = list_bale(
        input.decoder,
        &markers,
        &pairs,
        &mut work_floats,
        &mut work_numbers,
        &mut out,
    );
    &out[..n] == text
}

// Of a shift, bale by bale.
pub fn is_shift_listing(file: &[u8], text: &[u8]) -> bool
    requires { length file.now ≤ 4096 }
    ensures { result ≡ bytes_eq (shift_listing file.now) text.now }
{
    let mut markers = [0; 24];
    let mut pairs = [0; 140];
    let mut work_floats = [0.0; 16128];
    let mut work_numbers = [0; 16128];
    let mut out = [0; 4096];
    let mut input = begin();
    let mut at = 0;
    let mut told = 0;
    // It moves on by what a bale takes up.
    while at < file.len() {
        let next = list_next(
            input,
            &file[at..],
            &mut markers,
            &mut pairs,
            &mut work_floats,
            &mut work_numbers,
            &mut out,
        );
        let n = next.len;
        if !text[told..].starts_with(&out[..n]) {
            return false;
        }
        at += next.used;
        told += n;
        input = next.input;
    }
    let n = list_last(
        input,
        &markers,
        &pairs,
        &mut work_floats,
        &mut work_numbers,
        &mut out,
    );
    out[..n] == text[told..]
}
