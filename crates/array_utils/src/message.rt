// A message for a variable, by value through normalising and logarithms.
ghost use Rattle.std.specs.Prelude.{◌≡◌, T};
ghost use Rattle.std.specs.Float.Ieee.Scale.{finite};
ghost use Rattle.definition.specs.Vectors.{binary, product_of, normalize, avoid_underflow_all, log_normalize, sum_logs_batched};
ghost use Rattle.array_utils.specs.Columns.{absents, presents};

use crate::exponential::exp;
use crate::table::LogTable;
use crate::vectors::{avoid_underflow_entry, max};

// How many rows are multiplied before one logarithm, and how many floats they take.
const BLOCK_SIZE: usize = 10;

const BLOCK_FLOATS: usize = 2 * BLOCK_SIZE;

#[derive(Clone, Copy)]
pub struct VariableMessage {
    pub absent: f32,
    pub present: f32,
}

impl VariableMessage {
    pub fn normalize(self) -> VariableMessage
        ensures { binary result.absent result.present ≡ normalize (binary self.absent self.present) }
    {
        let sum = 0.0 + self.absent + self.present;
        VariableMessage {
            absent: self.absent / sum,
            present: self.present / sum,
        }
    }

    pub fn avoid_underflow(self) -> VariableMessage
        ensures { binary result.absent result.present ≡ avoid_underflow_all (binary self.absent self.present) }
    {
        VariableMessage {
            absent: avoid_underflow_entry(self.absent),
            present: avoid_underflow_entry(self.present),
        }
    }

    // exp(x - log(sum of exp)). Both logarithms are finite, which the bounds on messages
    // give the caller: an infinity less itself is NaN, outside the domain of `exp`.
    pub fn log_normalize(self, table: &LogTable) -> VariableMessage
        requires t { T (finite self.absent) × T (finite self.present) }
        ensures { binary result.absent result.present ≡ log_normalize self.absent self.present }
    {
        let largest = max(self.absent, self.present);
        let a = self.absent - largest;
        let b = self.present - largest;
        let ea = exp(a);
        let eb = exp(b);
        let log_sum_exp = table.ln(ea + eb);
        VariableMessage {
            absent: exp(a - log_sum_exp),
            present: exp(b - log_sum_exp),
        }
    }
}

// The products of the two columns of a row of pairs.
fn column_products(rows: &[f32]) -> VariableMessage
    ensures { (result.absent ≡ product_of (absents rows.now)) × (result.present ≡ product_of (presents rows.now)) }
{
    let n = rows.len() / 2;
    let mut absent: f32 = 1.0;
    let mut present: f32 = 1.0;
    for i in 0..n {
        absent *= rows[2 * i];
        present *= rows[2 * i + 1];
    }
    VariableMessage { absent, present }
}

// A row is a pair of floats. The sums of the logarithms of the two columns, in blocks of ten rows and a shorter rest.
pub fn sum_logs_batched(table: &LogTable, rows: &[f32]) -> VariableMessage
    ensures { (result.absent ≡ sum_logs_batched (absents rows.now)) × (result.present ≡ sum_logs_batched (presents rows.now)) }
{
    let blocks = rows.len() / BLOCK_FLOATS;
    let mut absent: f32 = 0.0;
    let mut present: f32 = 0.0;
    for i in 0..blocks {
        let start = i * BLOCK_FLOATS;
        let end = start + BLOCK_FLOATS;
        let p = column_products(&rows[start..end]);
        absent += table.ln(p.absent);
        present += table.ln(p.present);
    }
    let rest = blocks * BLOCK_FLOATS;
    let p = column_products(&rows[rest..]);
    VariableMessage {
        absent: absent + table.ln(p.absent),
        present: present + table.ln(p.present),
    }
}
