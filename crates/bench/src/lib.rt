// What benchmark/ times and compares, in place in a slice: a leaf of array_utils at each entry, and a convolution tree. No other crate uses it.
#![tactic(auto)]

ghost use Rattle.std.specs.Prelude.{◌≡◌, map};
ghost use Rattle.bench.specs.Leaves.{exp_leaf, log_normalize_leaf, leaf_of};
ghost use Rattle.bench.specs.Tree.{tree_of};

pub mod graph;

use array_utils::{LogTable, VariableMessage};

// Above 0, and at NaN, nothing changes.
fn exp_leaf(y: f32) -> f32
    ensures { result ≡ exp_leaf y }
{
    if y <= 0.0 { array_utils::exp(y) } else { y }
}

// From the logarithms x and 0, what the absent share has over the present one. What is not finite is left as it is.
fn log_normalize_leaf(table: &LogTable, x: f32) -> f32
    ensures { result ≡ log_normalize_leaf x }
{
    if x <= 3.4028234e38 {
        if -3.4028234e38 <= x {
            let m = VariableMessage {
                absent: x,
                present: 0.0,
            };
            let r = m.log_normalize(table);
            return r.absent - r.present;
        }
    }
    x
}

fn leaf(table: &LogTable, which: u32, x: f32) -> f32
    ensures { result ≡ leaf_of which x }
{
    if which == 0 {
        return table.ln(x);
    }
    if which == 1 {
        return exp_leaf(x);
    }
    if which == 2 {
        return log_normalize_leaf(table, x);
    }
    array_utils::powi(x, which - 3)
}

// 0 is ln, 1 exp, 2 log_normalize, and 3 + n the power n.
#[unsafe(no_mangle)]
pub extern "C" fn leaf_all(which: u32, xs: &mut [f32])
    ensures { xs.new ≡ map (leaf_of which) xs.old }
{
    let table = LogTable::new();
    for x in xs.iter_mut() {
        *x = leaf(&table, which, *x);
    }
}

// `tree_messages` over n grades, where it is defined and w has room for it. Else nothing changes.
#[unsafe(no_mangle)]
pub extern "C" fn tree_messages(w: &mut [f32], n: usize)
    ensures { w.new ≡ tree_of n w.old }
{
    if 2 <= n {
        if n <= 128 {
            let needed = 3 * n + 1 + convolution_tree::scratch_len(n);
            if needed <= w.len() {
                convolution_tree::tree_messages(w, n);
            }
        }
    }
}
