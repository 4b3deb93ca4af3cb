// Bales that follow one another, listed one by one.
ghost use Rattle.std.specs.Prelude.{◌≡◌, List, ℕ, ◌+◌, ◌^◌, ◌≤◌, ◌<◌, length};
ghost use Rattle.bale_answer.specs.Open.{OpenIn, SomeOpenIn};
ghost use Rattle.bale_answer.specs.Taken.{TakenIn, SomeTakenIn};
ghost use Rattle.bale_listing.specs.Lent.{RestListed};
ghost use Rattle.bale_listing.specs.Next.{NextListed};

use crate::bale::list_bale;
use bale_answer::{Input, begin, take_bale};

// What is taken in of the bale that comes next, how many bytes of the piece were used, and how long the listing is of the bale that they ended: 0 if
// they ended none.
#[derive(Clone, Copy)]
pub struct Listed {
    pub input: Input,
    pub used: usize,
    pub len: usize,
}

// Takes in a piece up to its first end word. If it has one, the listing of the bale that it ends stands at the front of `out`, and the next bale begins.
pub fn list_next(
    input: Input,
    piece: &[u8],
    markers: &mut [u32],
    pairs: &mut [u32],
    work_floats: &mut [f32],
    work_numbers: &mut [u32],
    out: &mut [u8],
) -> Listed
    requires some_open_in { SomeOpenIn input markers.old pairs.old }
    requires piece_bound { input.bytes + length piece.now < 2 ^ 64 }
    requires work_floats_len { (length work_floats.old ≡ 16128) × (length work_numbers.old ≡ 16128) × (4096 ≤ length out.old) }
    ensures { (bs : List ℕ) → OpenIn bs input markers.old pairs.old → NextListed bs piece.now result markers.new pairs.new work_floats.old work_numbers.old out.old work_floats.new work_numbers.new out.new }
{
    let took = take_bale(input, piece, markers, pairs);
    let taken = took.input;
    if took.ended {
        let n = list_bale(
            taken.decoder,
            markers,
            pairs,
            work_floats,
            work_numbers,
            out,
        );
        let next = begin();
        return Listed {
            input: next,
            used: took.used,
            len: n,
        };
    }
    Listed {
        input: taken,
        used: took.used,
        len: 0,
    }
}

// At the end of the input: the listing of what no end word has ended, if any byte came. How many bytes it has.
pub fn list_last(
    input: Input,
    markers: &[u32],
    pairs: &[u32],
    work_floats: &mut [f32],
    work_numbers: &mut [u32],
    out: &mut [u8],
) -> usize
    requires some_taken_in { SomeTakenIn input markers.now pairs.now }
    requires work_floats_len { (length work_floats.old ≡ 16128) × (length work_numbers.old ≡ 16128) × (4096 ≤ length out.old) }
    ensures { (bs : List ℕ) → TakenIn bs input markers.now pairs.now → RestListed bs result work_floats.old work_numbers.old out.old work_floats.new work_numbers.new out.new }
{
    if input.bytes == 0 {
        return 0;
    }
    list_bale(
        input.decoder,
        markers,
        pairs,
        work_floats,
        work_numbers,
        out,
    )
}
