// The leaves: the grades' messages, normalised in their place, and [1, 0] up to a power of two.
ghost use Rattle.std.specs.Prelude.{◌≡◌, map, ◌+◌, ◌*◌, ◌^◌, ◌≤◌, length};
ghost use Rattle.list_laws.specs.Put.{put};
ghost use Rattle.definition.specs.Vectors.{normalize};
ghost use Rattle.definition.specs.ConvolutionTree.{log_length, first_layer};
ghost use Rattle.graph_laws.specs.Flat.{flat};
ghost use Rattle.convolution_tree.specs.Nodes.{nodes};
ghost use Rattle.convolution_tree.specs.Leaves.{padding};

use array_utils::VariableMessage;

// A leaf that no grade has: absent for certain.
const DUMMY: [f32; 2] = [1.0, 0.0];

// The layers above the leaves, and the leaves: the least power of two that is at least the number of grades.
#[derive(Clone, Copy)]
pub(crate) struct Size {
    pub layers: usize,
    pub leaves: usize,
}

pub(crate) fn size_for(n: usize) -> Size
    requires { n ≤ 128 }
    ensures { (result.layers ≡ log_length n) × (result.leaves ≡ 2 ^ log_length n) }
{
    let mut layers = 0;
    let mut leaves = 1;
    while leaves < n {
        leaves = leaves + leaves;
        layers += 1;
    }
    Size { layers, leaves }
}

fn normalize_messages(w: &mut [f32], n: usize)
    requires { 2 * n ≤ length w.old }
    ensures { w.new ≡ put w.old 0 (flat (map normalize (nodes 2 n w.old))) }
{
    for i in 0..n {
        let a = 2 * i;
        let m = VariableMessage {
            absent: w[a],
            present: w[a + 1],
        };
        let r = m.normalize();
        w[a] = r.absent;
        w[a + 1] = r.present;
    }
}

// k dummy leaves.
fn pad(w: &mut [f32], at: usize, k: usize)
    requires { at + 2 * k ≤ length w.old }
    ensures { w.new ≡ put w.old at (padding k) }
{
    for i in 0..k {
        let a = at + 2 * i;
        w[a] = DUMMY[0];
        w[a + 1] = DUMMY[1];
    }
}

pub(crate) fn build_first_layer(w: &mut [f32], n: usize, leaves: usize)
    requires { (leaves ≡ 2 ^ log_length n) × (n ≤ leaves) × (2 * leaves ≤ length w.old) }
    ensures { w.new ≡ put w.old 0 (flat (first_layer (nodes 2 n w.old))) }
{
    normalize_messages(w, n);
    pad(w, 2 * n, leaves - n);
}
