// What a grade sends first, in `initialize_messages`: all its messages from one sum.
ghost use Rattle.std.specs.Prelude.{◌≡◌, ◌/◌, ◌≤◌, length};
ghost use Rattle.definition.specs.Vectors.{binary};
ghost use Rattle.definition.specs.Sweeps.{log_total, leave_one_out};
ghost use Rattle.messages.specs.Pairs.{pairs};
ghost use Rattle.messages.specs.Logarithms.{Wide};

use crate::rows::{add_logs, logs};
use array_utils::{LogTable, VariableMessage};

// The belief and all incoming messages, of which each outgoing one of the opening leaves one out.
pub fn log_total(table: &LogTable, belief: VariableMessage, rows: &[f32]) -> VariableMessage
    requires rows_len_bound { length rows.now / 2 ≤ 1024 }
    ensures { (result.absent ≡ log_total 0 (binary belief.absent belief.present) (pairs rows.now)) × (result.present ≡ log_total 1 (binary belief.absent belief.present) (pairs rows.now)) × Wide 100000 result.absent × Wide 100000 result.present }
{
    add_logs(table, logs(table, belief), rows)
}

pub fn leave_one_out(
    table: &LogTable,
    total: VariableMessage,
    message: VariableMessage,
) -> VariableMessage
    requires wide { Wide 100000 total.absent × Wide 100000 total.present }
    ensures { binary result.absent result.present ≡ leave_one_out total.absent total.present (binary message.absent message.present) }
{
    let own = logs(table, message);
    let log = VariableMessage {
        absent: total.absent - own.absent,
        present: total.present - own.present,
    };
    log.log_normalize(table).avoid_underflow()
}
