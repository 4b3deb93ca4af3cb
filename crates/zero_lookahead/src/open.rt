// The opening of a part in its two ranges (`Messages::new`, `initialize_messages`), whatever its floats, flags and queue held before.
ghost use Rattle.std.specs.Prelude.{◌≡◌, length, get_or, replicate};
ghost use Rattle.definition.specs.Settings as definition;
ghost use Rattle.definition.specs.Directions.{MessageGraph};
ghost use Rattle.definition.specs.Sweeps.{opening};
ghost use Rattle.list_laws.specs.Put.{put};
ghost use Rattle.zero_lookahead.specs.Part.{Given, rows_end, PartRoom, SomePartRoom, StandsFor, KeptFront};
ghost use Rattle.zero_lookahead.specs.Open.{PendingFits, pending_cleared, OpenedPart, FlagsFit};

use crate::settings::Settings;
use array_utils::LogTable;
use messages::directions::{
    firsts_row, kinds_row, labels_row, offsets_row, outs_row, starts_row, word,
};
use opening::open::open_part;

// Nothing is pending, and so many floats behind the pending residuals are zero.
pub(crate) fn clear_pending(w: &mut [f32], words: &[u32], out: usize, more: usize)
    requires { PendingFits words.now out more (length w.old) }
    ensures { w.new ≡ pending_cleared words.now out more w.old }
{
    let edges = word(words, 1);
    let l = word(words, out + 6 * edges);
    let at = 4 * l;
    w[at..at + 2 * edges + more].fill(0.0);
}

fn open_floats(
    table: &LogTable,
    w: &mut [f32],
    words: &[u32],
    out: usize,
    evidence: &[f32],
    settings: Settings,
)
    requires some_part_room { SomePartRoom settings out evidence.now words.now w.old }
    ensures { (s : definition.Settings) (t : MessageGraph) → PartRoom s t out evidence.now words.now w.old → Given s settings → OpenedPart s t w.new }
{
    clear_pending(w, words, out, 1664);
    let kinds = kinds_row(words, 0);
    let firsts = firsts_row(words, 0);
    let starts = starts_row(words, 0, out);
    let outs = outs_row(words, 0, out);
    let offsets = offsets_row(words, 0, out);
    let labels = labels_row(words, 0);
    open_part(
        table,
        w,
        kinds,
        firsts,
        starts,
        outs,
        offsets,
        labels,
        evidence,
        settings.alpha,
        settings.beta,
        settings.prior,
        settings.regularised,
    );
}

// No tree was built.
fn clear_flags(words: &mut [u32], out: usize)
    requires { FlagsFit words.old out }
    ensures { words.new ≡ put words.old (rows_end words.old out) (replicate (get_or words.old 0 0) 0) }
{
    let nodes = words[0] as usize;
    let edges = words[1] as usize;
    let at = out + (6 * edges + 1);
    words[at..at + nodes].fill(0);
}

pub fn open(
    table: &LogTable,
    w: &mut [f32],
    words: &mut [u32],
    out: usize,
    evidence: &[f32],
    settings: Settings,
)
    requires some_part_room { SomePartRoom settings out evidence.now words.old w.old }
    ensures kept_front { KeptFront out words.old words.new }
    ensures stands_for { (s : definition.Settings) (t : MessageGraph) → PartRoom s t out evidence.now words.old w.old → Given s settings → StandsFor s t out evidence.now (opening s t) words.new w.new }
{
    open_floats(table, w, words, out, evidence, settings);
    clear_flags(words, out);
}
