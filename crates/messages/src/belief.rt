// The belief that a grade ends with.
ghost use Rattle.std.specs.Prelude.{◌≡◌, ◌/◌, ◌≤◌, length};
ghost use Rattle.definition.specs.Vectors.{binary};
ghost use Rattle.definition.specs.Answer.{marginal};
ghost use Rattle.messages.specs.Pairs.{pairs};

use crate::rows::{add_logs, logs};
use array_utils::{LogTable, VariableMessage};

// The rows are the grade's incoming messages, two floats each. No floor is set: a belief is sent to nobody.
pub fn marginal(table: &LogTable, belief: VariableMessage, rows: &[f32]) -> VariableMessage
    requires rows_len_bound { length rows.now / 2 ≤ 1024 }
    ensures { binary result.absent result.present ≡ marginal (binary belief.absent belief.present) (pairs rows.now) }
{
    let zero = VariableMessage {
        absent: 0.0,
        present: 0.0,
    };
    let sum = add_logs(table, zero, rows);
    let prior = logs(table, belief);
    let log = VariableMessage {
        absent: prior.absent + sum.absent,
        present: prior.present + sum.present,
    };
    log.log_normalize(table)
}
