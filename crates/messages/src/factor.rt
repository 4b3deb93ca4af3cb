// What a factor sends to its grade or its tree: `compute_out_message_factor`, `compute_out_message_factor_ctree`.
ghost use Rattle.std.specs.Prelude.{◌≡◌, map, ◌*◌, ◌≤◌, length};
ghost use Rattle.definition.specs.Vectors.{binary};
ghost use Rattle.definition.specs.NoisyOr.{cpd_table};
ghost use Rattle.definition.specs.Messages.{out_message_factor};
ghost use Rattle.array_utils.specs.Columns.{column};
ghost use Rattle.node.specs.Rows.{flat_rows, given};
ghost use Rattle.messages.specs.Factor.{weighted, lowered, from_table};

use array_utils::VariableMessage;

// Each row of the table, weighted by the message.
fn weigh_rows(out: &mut [f32], cpd: &[f32], message: VariableMessage)
    requires { length cpd.now ≡ 2 * length out.old }
    ensures { out.new ≡ column (weighted message.absent message.present) cpd.now }
{
    for (i, x) in out.iter_mut().enumerate() {
        *x = cpd[2 * i] * message.absent + cpd[2 * i + 1] * message.present;
    }
}

fn lower_entry(x: f32) -> f32
    ensures { result ≡ lowered x }
{
    if 1.0 < x { 1.0 } else { x }
}

// What is above 1 becomes 1.
fn lower_all(out: &mut [f32])
    ensures { out.new ≡ map lowered out.old }
{
    for x in out.iter_mut() {
        *x = lower_entry(*x);
    }
}

// From a table that was filled before: two floats a row, an entry of the message for each.
fn out_message_factor_from(out: &mut [f32], cpd: &[f32], message: VariableMessage)
    requires { length cpd.now ≡ 2 * length out.old }
    ensures { out.new ≡ from_table cpd.now (binary message.absent message.present) }
{
    weigh_rows(out, cpd, message);
    array_utils::normalize(out);
    lower_all(out);
    array_utils::avoid_underflow(out);
}

// The lent cpd ends with the table, two floats a row.
fn out_message_factor_with(
    out: &mut [f32],
    cpd: &mut [f32],
    alpha: f32,
    beta: f32,
    regularised: bool,
    message: VariableMessage,
)
    requires { (length out.old ≤ 129) × (length cpd.old ≡ 2 * length out.old) }
    ensures { (out.new ≡ out_message_factor (given alpha beta regularised) (length out.old) (binary message.absent message.present)) × (cpd.new ≡ flat_rows (cpd_table (given alpha beta regularised) (length out.old))) }
{
    node::fill_in_factor(cpd, out.len() as u32, alpha, beta, regularised);
    out_message_factor_from(out, cpd, message);
}

// As many entries as there is room for. The table is a local array, which is zeroed first: a short one where it serves.
pub fn out_message_factor(
    out: &mut [f32],
    alpha: f32,
    beta: f32,
    regularised: bool,
    message: VariableMessage,
)
    requires { length out.old ≤ 129 }
    ensures { out.new ≡ out_message_factor (given alpha beta regularised) (length out.old) (binary message.absent message.present) }
{
    let floats = 2 * out.len();
    if floats <= 32 {
        let mut cpd = [0.0; 32];
        out_message_factor_with(out, &mut cpd[..floats], alpha, beta, regularised, message);
    } else {
        let mut cpd = [0.0; 258];
        out_message_factor_with(out, &mut cpd[..floats], alpha, beta, regularised, message);
    }
}
