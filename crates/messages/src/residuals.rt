// By how much a message differs from an older one: `compute_infinity_norm_residual`.
ghost use Rattle.std.specs.Prelude.{◌≡◌, true, ◌<◌, length};
ghost use Rattle.std.specs.Float.{inf};
ghost use Rattle.definition.specs.Floats.{abs};
ghost use Rattle.definition.specs.Vectors.{binary};
ghost use Rattle.definition.specs.Messages.{abs_log_ratio, pair_residual, vector_residual};
ghost use Rattle.messages.specs.Residual.{residual_of};

use array_utils::{LogTable, VariableMessage};

// f32::abs: of -0 it is 0.
fn abs(x: f32) -> f32
    ensures { result ≡ abs x }
{
    if x == 0.0 {
        return 0.0;
    }
    if x < 0.0 { -x } else { x }
}

pub(crate) fn abs_log_ratio(table: &LogTable, x: f32, y: f32) -> f32
    ensures { result ≡ abs_log_ratio x y }
{
    abs(table.ln(x / y))
}

// Of a message of two: the larger ratio first, then its logarithm without its sign.
pub fn residual_binary(table: &LogTable, m: VariableMessage, o: VariableMessage) -> f32
    ensures { result ≡ pair_residual (binary m.absent m.present) (binary o.absent o.present) }
{
    let ratio = array_utils::max(m.absent / o.absent, m.present / o.present);
    abs(table.ln(ratio))
}

// Of a vector: the largest of the logarithms without sign.
pub fn residual_vector(table: &LogTable, m: &[f32], o: &[f32]) -> f32
    requires m_len { length m.now ≡ length o.now }
    ensures { result ≡ vector_residual (inf true) m.now o.now }
{
    // -inf, which no constant can hold.
    let mut largest: f32 = -1.0 / 0.0;
    for (i, x) in m.iter().enumerate() {
        largest = array_utils::max(largest, abs_log_ratio(table, *x, o[i]));
    }
    largest
}

// A message of over two entries goes between a factor and its tree.
pub fn residual(table: &LogTable, m: &[f32], o: &[f32]) -> f32
    requires in_bounds { (1 < length m.now) × (length m.now ≡ length o.now) }
    ensures { result ≡ residual_of m.now o.now }
{
    if 2 < m.len() {
        return residual_vector(table, m, o);
    }
    let now = VariableMessage::read(m, 0);
    let old = VariableMessage::read(o, 0);
    residual_binary(table, now, old)
}
