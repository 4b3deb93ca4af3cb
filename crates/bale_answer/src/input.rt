// The input, taken in piece by piece.
ghost use Rattle.std.specs.Prelude.{◌≡◌, true, List, [], ◌++◌, ℕ, ◌+◌, ◌^◌, ◌<◌, length};
ghost use Rattle.definition.specs.Refusals.{refused};
ghost use Rattle.definition.specs.FileAnswer.{file_verdict};
ghost use Rattle.bale_answer.specs.Taken.{Taken, TakenIn, SomeTakenIn};
ghost use Rattle.bale_answer.specs.Open.{OpenIn, SomeOpenIn, TookTo};

use bale_file::Decoder;

#[derive(Clone, Copy)]
pub struct Input {
    pub decoder: Decoder,
    // How many bytes were taken in.
    pub bytes: u64,
}

// Before the first byte, whatever the slices of 24 and 140 words hold.
pub fn begin() -> Input
    ensures { (ms ps : List ℕ) → length ms ≡ 24 → length ps ≡ 140 → TakenIn [] result ms ps }
{
    Input {
        decoder: bale_file::start(),
        bytes: 0,
    }
}

// The next bytes.
pub fn take_piece(input: Input, piece: &[u8], markers: &mut [u32], pairs: &mut [u32]) -> Input
    requires some_taken_in { SomeTakenIn input markers.old pairs.old }
    requires piece_bound { input.bytes + length piece.now < 2 ^ 64 }
    ensures { (bs : List ℕ) → TakenIn bs input markers.old pairs.old → TakenIn (bs ++ piece.now) result markers.new pairs.new }
{
    let decoder = bale_file::feed(input.decoder, piece, markers, pairs);
    Input {
        decoder: decoder,
        bytes: input.bytes + piece.len() as u64,
    }
}

// What was taken in of a piece, how many of its bytes, and whether they end in an end word.
#[derive(Clone, Copy)]
pub struct TakenBale {
    pub input: Input,
    pub used: usize,
    pub ended: bool,
}

// The next bytes, up to the first end word if one is there.
pub fn take_bale(input: Input, piece: &[u8], markers: &mut [u32], pairs: &mut [u32]) -> TakenBale
    requires some_open_in { SomeOpenIn input markers.old pairs.old }
    requires piece_bound { input.bytes + length piece.now < 2 ^ 64 }
    ensures { (bs : List ℕ) → OpenIn bs input markers.old pairs.old → TookTo result.ended bs piece.now result.used result.input markers.new pairs.new }
{
    let fed = bale_file::feed_bale(input.decoder, piece, markers, pairs);
    let decoder = fed.decoder;
    let taken = Input {
        decoder: decoder,
        bytes: input.bytes + fed.used as u64,
    };
    TakenBale {
        input: taken,
        used: fed.used,
        ended: fed.ended,
    }
}

// Whether no further bytes can change what is answered: a word is bad.
pub fn is_decided(decoder: Decoder) -> bool
    ensures value { result ≡ decoder.reading.bad }
    ensures rest_value { result ≡ true → (bs ms ps rest : List ℕ) → Taken bs decoder ms ps → length (bs ++ rest) < 2 ^ 64 → file_verdict (bs ++ rest) ≡ refused 9 decoder.reading.place }
{
    let reading = decoder.reading;
    reading.bad
}
