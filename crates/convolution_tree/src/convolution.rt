// Sums of products over vectors of any length, accumulated row by row, so that entry for entry the terms come in the Rust's order.
ghost use Rattle.std.specs.Prelude.{◌≡◌, ◌+◌, ◌-◌, ◌≤◌, length, replicate};
ghost use Rattle.definition.specs.Floats.{zeroᶠ};
ghost use Rattle.definition.specs.ConvolutionTree.{convolve};
ghost use Rattle.graph_laws.specs.Convolution.{add_products};
ghost use Rattle.convolution_tree.specs.Correlation.{correlation};

// What stands in `from` goes to `to`, and `from` is zeros again.
pub(crate) fn hand_over(to: &mut [f32], from: &mut [f32])
    requires { length to.old ≡ length from.old }
    ensures { (to.new ≡ from.old) × (from.new ≡ replicate (length from.old) zeroᶠ) }
{
    // Most nodes are so short that `copy_from_slice` and `fill` take longer.
    for k in 0..to.len() {
        to[k] = from[k];
        from[k] = 0.0;
    }
}

// x times b, added to the start of out.
fn add_products(out: &mut [f32], x: f32, b: &[f32])
    requires { length b.now ≤ length out.old }
    ensures { out.new ≡ add_products 0 x b.now out.old }
{
    for (j, y) in b.iter().enumerate() {
        out[j] += x * *y;
    }
}

pub(crate) fn convolve(out: &mut [f32], a: &[f32], b: &[f32])
    requires { out.old ≡ replicate (length a.now + length b.now - 1) zeroᶠ }
    ensures { out.new ≡ convolve a.now b.now }
{
    for (i, x) in a.iter().enumerate() {
        add_products(&mut out[i..], *x, b);
    }
}

// Entry k is the sum of b[j] * l[j + k], as far as l goes: of the vectors' overlap, row by row.
pub(crate) fn correlate(out: &mut [f32], b: &[f32], l: &[f32])
    requires { (out.old ≡ replicate (length out.old) zeroᶠ) × (length b.now ≤ length l.now) }
    ensures { out.new ≡ correlation (length out.old) b.now l.now }
{
    for (j, x) in b.iter().enumerate() {
        let end = j + out.len().min(l.len() - j);
        add_products(out, *x, &l[j..end]);
    }
}
