// A row of messages, two floats each: absent, present, absent, present and so on. How they are read, and sums of their logarithms.
ghost use Rattle.std.specs.Prelude.{◌≡◌, ◌/◌, ◌≤◌, ◌<◌, length};
ghost use Rattle.definition.specs.Vectors.{binary};
ghost use Rattle.definition.specs.Directions.{message_at};
ghost use Rattle.messages.specs.Pairs.{pairs};
ghost use Rattle.messages.specs.Logarithms.{Logs, Wide, summed};

use array_utils::{LogTable, VariableMessage};

pub(crate) fn message_at(rows: &[f32], i: usize) -> VariableMessage
    requires { i < length rows.now / 2 }
    ensures { binary result.absent result.present ≡ message_at i (pairs rows.now) }
{
    VariableMessage::read(rows, 2 * i)
}

// The logarithm is within 91 of 0 whatever it is taken of: so sums of so few as a node has are finite.
pub fn logs(table: &LogTable, m: VariableMessage) -> VariableMessage
    ensures { Logs m.absent m.present result.absent result.present }
{
    VariableMessage {
        absent: table.ln(m.absent),
        present: table.ln(m.present),
    }
}

// The logarithms of the two columns added to two sums, from the first row to the last.
pub(crate) fn add_logs(table: &LogTable, from: VariableMessage, rows: &[f32]) -> VariableMessage
    requires rows_len_bound { (length rows.now / 2 ≤ 1024) × Wide 91 from.absent × Wide 91 from.present }
    ensures { (result.absent ≡ summed 0 from.absent (pairs rows.now)) × (result.present ≡ summed 1 from.present (pairs rows.now)) × Wide 100000 result.absent × Wide 100000 result.present }
{
    let mut absent = from.absent;
    let mut present = from.present;
    for i in 0..rows.len() / 2 {
        let l = logs(table, message_at(rows, i));
        absent += l.absent;
        present += l.present;
    }
    VariableMessage { absent, present }
}
