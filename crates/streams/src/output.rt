// A text is handed to `write`, as often as it takes.
ghost use Rattle.streams.specs.Writes.{HandedOver, HandedOn};

use crate::calls::{count, write_some};
use std::io::Write;

// Whether all of the text was handed over, each call of `write` being given what those before it left. It ends at the first that takes nothing or fails.
pub fn hand_over<W: Write>(to: &mut W, text: &[u8]) -> bool
    ensures calls { HandedOver text.now result }
    ensures bytes { HandedOn (W.contents to.old) (W.contents to.new) text.now result }
{
    let mut done = 0;
    // It moves on by what a `write` took.
    while done < text.len() {
        let rest = &text[done..];
        let answer = write_some(to, rest);
        let took = count(answer, rest);
        if took == 0 {
            return false;
        }
        done += took;
    }
    true
}
