// `fill_in_factor` of src/node.rs: the noisy-OR table of a marker, in a row of floats that the caller lends.
#![tactic(auto)]

ghost use Rattle.std.specs.Prelude.{◌≡◌, ◌*◌, ◌≤◌, length};
ghost use Rattle.definition.specs.NoisyOr.{cpd_rows, cpd_table};
ghost use Rattle.node.specs.Rows.{flat_rows, given, regularised_of, absent_of, row_total};

// The Rust's cpd_regularized_0, of its cpd_0: cpd_0^i * (1 - beta) / max(i, 1), the divisors being its divide_array.
fn cpd_regularised_absent(cpd: f32, beta: f32, i: u32) -> f32
    requires { i ≤ 129 }
    ensures { result ≡ regularised_of cpd beta i }
{
    array_utils::powi(cpd, i) * (1.0 - beta) / (i.max(1) as f32)
}

// Of the power (1 - alpha)^i, which gives the Rust's cpd_0: (1 - alpha)^i * (1 - beta).
fn row_absent(power: f32, beta: f32, regularised: bool, i: u32) -> f32
    requires { i ≤ 129 }
    ensures { result ≡ absent_of power beta regularised i }
{
    let cpd = power * (1.0 - beta);
    if regularised {
        cpd_regularised_absent(cpd, beta, i)
    } else {
        cpd
    }
}

// The rows before they are divided, and the sum of the rows' own sums.
fn fill_rows(cpd: &mut [f32], degree: u32, alpha: f32, beta: f32, regularised: bool) -> f32
    requires { (degree ≤ 129) × (length cpd.old ≡ 2 * degree) }
    ensures { (cpd.new ≡ flat_rows (cpd_rows (given alpha beta regularised) degree)) × (result ≡ row_total (given alpha beta regularised) degree) }
{
    // The powers wait in the second half: row i is written no further than where its own stood.
    let powers = degree as usize;
    array_utils::powers(&mut cpd[powers..], 1.0 - alpha);
    let mut sum: f32 = 0.0;
    for i in 0..degree {
        let row = i as usize;
        let absent = row_absent(cpd[powers + row], beta, regularised, i);
        let present = 1.0 - absent;
        cpd[2 * row] = absent;
        cpd[2 * row + 1] = present;
        sum += absent + present;
    }
    sum
}

// The caller lends the part for this table alone: two floats for each of at most 129 rows, so that a row's number is a float too.
pub fn fill_in_factor(cpd: &mut [f32], degree: u32, alpha: f32, beta: f32, regularised: bool)
    requires { (degree ≤ 129) × (length cpd.old ≡ 2 * degree) }
    ensures { cpd.new ≡ flat_rows (cpd_table (given alpha beta regularised) degree) }
{
    let sum = fill_rows(cpd, degree, alpha, beta, regularised);
    array_utils::divide(cpd, sum);
    if regularised {
        array_utils::avoid_underflow(cpd);
    }
}
