// Whether a convolution tree is built anew: `convolution_tree_needs_rebuild`.
ghost use Rattle.std.specs.Prelude.{◌≡◌, ◌+◌, ◌*◌, length};
ghost use Rattle.std.proofs.Math.Option.{some};
ghost use Rattle.definition.specs.Floats.{zeroᶠ};
ghost use Rattle.definition.specs.Vectors.{binary};
ghost use Rattle.definition.specs.Messages.{message_change, change_exceeds, needs_rebuild};
ghost use Rattle.messages.specs.Pairs.{pairs};
ghost use Rattle.messages.specs.Rebuild.{tree_row};

use crate::residuals::abs_log_ratio;
use crate::rows::message_at;
use array_utils::{LogTable, VariableMessage};

// By how much a grade's message moved.
fn message_change(table: &LogTable, m: VariableMessage, o: VariableMessage) -> f32
    ensures { result ≡ message_change (binary m.absent m.present) (binary o.absent o.present) }
{
    let absent = abs_log_ratio(table, m.absent, o.absent);
    let present = abs_log_ratio(table, m.present, o.present);
    array_utils::max(absent, present)
}

// Every outgoing message changes by at most twice the summed change of the incoming ones, in logarithms.
fn change_exceeds(table: &LogTable, tolerance: f32, rows: &[f32], old: &[f32]) -> bool
    requires rows_len { length rows.now ≡ length old.now }
    ensures { result ≡ change_exceeds tolerance zeroᶠ (pairs rows.now) (pairs old.now) }
{
    let mut change: f32 = 0.0;
    for i in 0..rows.len() / 2 {
        change += message_change(table, message_at(rows, i), message_at(old, i));
        if tolerance < 2.0 * change {
            return true;
        }
    }
    false
}

// Of a tree over n grades, by what it holds and what it was last built of: its factor's message of n + 1 floats, then the grades', two floats each.
pub fn needs_rebuild(
    table: &LogTable,
    tolerance: f32,
    now_in: &[f32],
    old_in: &[f32],
    n: usize,
) -> bool
    requires now_in_len { (length now_in.now ≡ 3 * n + 1) × (length old_in.now ≡ 3 * n + 1) }
    ensures { result ≡ needs_rebuild tolerance (tree_row n now_in.now) (some (tree_row n old_in.now)) }
{
    let m = n + 1;
    if now_in[..m] != old_in[..m] {
        return true;
    }
    change_exceeds(table, tolerance, &now_in[m..], &old_in[m..])
}
