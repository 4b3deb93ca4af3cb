// A call of `read` or `write`, and what it answered.
ghost use Rattle.std.specs.Prelude.{◌≡◌, ◌≤◌, length, take};
ghost use Rattle.std.specs.Io.KnownBytes.{Consumes};
ghost use Rattle.streams.specs.Calls.{AnsweredWithin, counted, ReadMoves, WriteMoves};

use std::io::{Read, Write};

// One `read`: how many bytes it moved, or that it failed. Any failure is one, also where a signal came before any byte did.
pub fn read_some<R: Read>(from: &mut R, buffer: &mut [u8]) -> Option<usize>
    ensures within { AnsweredWithin (length buffer.new) result }
    ensures bytes { ReadMoves (R.remaining from.old) (R.remaining from.new) result buffer.new }
{
    from.read(buffer).ok()
}

// One `write`, as `read_some`.
pub fn write_some<W: Write>(to: &mut W, text: &[u8]) -> Option<usize>
    ensures within { AnsweredWithin (length text.now) result }
    ensures bytes { WriteMoves (W.contents to.old) (W.contents to.new) result text.now }
{
    to.write(text).ok()
}

// How many of the buffer's bytes it moved: none where it failed, and whatever was answered never more than there are.
pub fn count(got: Option<usize>, buffer: &[u8]) -> usize
    ensures within { result ≤ length buffer.now }
    ensures value { result ≡ counted got (length buffer.now) }
{
    got.unwrap_or(0).min(buffer.len())
}

// Reads until the buffer is full, the input ends or a read fails. How many bytes came, to the front of the buffer. On an empty buffer it makes no call.
pub fn read_full<R: Read>(from: &mut R, buffer: &mut [u8]) -> usize
    ensures within { result ≤ length buffer.new }
    ensures bytes { Consumes (R.remaining from.old) (R.remaining from.new) (take result buffer.new) }
{
    let mut done = 0;
    // It moves on by what a `read` gave.
    while done < buffer.len() {
        let got = read_some(from, &mut buffer[done..]);
        let n = count(got, &buffer[done..]);
        if n == 0 {
            break;
        }
        done += n;
    }
    done
}
