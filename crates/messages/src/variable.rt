// What a variable sends: `compute_out_message_variable`. Its incoming messages lie in one row, two floats each.
ghost use Rattle.std.specs.Prelude.{◌≡◌, ◌/◌, ◌≤◌, ◌<◌, length};
ghost use Rattle.definition.specs.Vectors.{binary};
ghost use Rattle.definition.specs.Messages.{out_message_variable};
ghost use Rattle.messages.specs.Pairs.{pairs};
ghost use Rattle.messages.specs.Logarithms.{Wide};
ghost use Rattle.messages.specs.Variable.{out_from_sums};

use crate::rows::{logs, message_at};
use array_utils::{LogTable, VariableMessage};

// From the sums of the logarithms of all incoming messages: less those of the receiver's own, and those of the belief.
pub fn out_from_sums(
    table: &LogTable,
    sum: VariableMessage,
    prior: VariableMessage,
    message: VariableMessage,
) -> VariableMessage
    requires wide { Wide 10000 sum.absent × Wide 10000 sum.present × Wide 91 prior.absent × Wide 91 prior.present }
    ensures { binary result.absent result.present ≡ out_from_sums (binary sum.absent sum.present) (binary prior.absent prior.present) (binary message.absent message.present) }
{
    let own = logs(table, message);
    let log = VariableMessage {
        absent: sum.absent - own.absent + prior.absent,
        present: sum.present - own.present + prior.present,
    };
    log.log_normalize(table).avoid_underflow()
}

// To the neighbour at position i. A variable with one neighbour sends its belief.
pub fn out_message_variable(
    table: &LogTable,
    belief: VariableMessage,
    rows: &[f32],
    i: usize,
) -> VariableMessage
    requires i_in_bounds { (i < length rows.now / 2) × (length rows.now / 2 ≤ 1024) }
    ensures { binary result.absent result.present ≡ out_message_variable (binary belief.absent belief.present) (pairs rows.now) i }
{
    if rows.len() / 2 <= 1 {
        return belief;
    }
    let sum = array_utils::sum_logs_batched(table, rows);
    let prior = logs(table, belief);
    out_from_sums(table, sum, prior, message_at(rows, i))
}
