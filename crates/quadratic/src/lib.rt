// What the public calls of the quadratic datafit do behind their tests, each on the first places of the lent buffers. The design is
// a tested one, and the caller has tested the room.
#![tactic(auto)]

ghost use Rattle.std.specs.Prelude.{◌≡◌, ℕ, ◌+◌, ◌<◌, ◌≤◌, length, get_or, take};
ghost use Rattle.doubles.specs.Num as num;
ghost use Rattle.doubles.specs.Buffer.{put};
ghost use Rattle.designs.specs.Design as def;

use designs::tested::Tested;
use designs::{Feature, Shape};

pub fn initialize(x: &Tested<'_>, y: &[f64], prepared: &mut [f64])
    requires { let p = x.now.matrix.shape.p in
        (x.now.matrix.shape.n ≤ 65536) × (p + p ≤ length prepared.old) × (x.now.matrix.shape.n ≤ length y.now) }
    ensures { prepared.new ≡ put prepared.old 0 (def.prepared (def.of_matrix x.now.matrix) y.now) }
{
    let p = x.matrix.shape.p;
    passes::prepare(x, y, &mut prepared[..p + p]);
}

// A feature's entry of X'y, which stands behind the p constants.
fn product_of(prepared: &[f64], p: usize, feature: Feature) -> f64
    requires { (feature.0 < p) × (p + p ≤ length prepared.now) }
    ensures { result ≡ num.at prepared.now (p + feature.0) }
{
    prepared[p + feature.0]
}

pub fn gradient_j(x: &Tested<'_>, prepared: &[f64], fit: &[f64], feature: Feature) -> f64
    requires { let p = x.now.matrix.shape.p in
        (feature.0 < p) × (x.now.matrix.shape.n ≤ 65536) × (p + p ≤ length prepared.now) × (x.now.matrix.shape.n ≤ length fit.now) }
    ensures { let X = def.of_matrix x.now.matrix in
        result ≡ def.gradient X feature.0 fit.now (num.at prepared.now (x.now.matrix.shape.p + feature.0)) }
{
    let Shape { n, p, .. } = x.matrix.shape;
    let s = columns::column_dot(x, feature, fit);
    let q = product_of(prepared, p, feature);
    passes::gradient_from(s, q, n)
}

pub fn full_grad(x: &Tested<'_>, prepared: &[f64], fit: &[f64], grad: &mut [f64])
    requires { let p = x.now.matrix.shape.p in
        (x.now.matrix.shape.n ≤ 65536) × (p + p ≤ length prepared.now) × (x.now.matrix.shape.n ≤ length fit.now) × (p ≤ length grad.old) }
    ensures { let X = def.of_matrix x.now.matrix in
        grad.new ≡ put grad.old 0 (def.full_gradient X fit.now (λ j. num.at prepared.now (x.now.matrix.shape.p + j))) }
{
    passes::all_gradients(x, prepared, fit, &mut grad[..x.matrix.shape.p]);
}

// The sum of the squares of what the fit leaves of the targets.
fn squared_error(y: &[f64], fit: &[f64]) -> f64
    requires { length y.now ≤ length fit.now }
    ensures { result ≡ def.squared_error y.now fit.now (length y.now) }
{
    let mut s = 0.0;
    for (i, target) in y.iter().enumerate() {
        let r = *target - fit[i];
        s += r * r;
    }
    s
}

pub fn value(y: &[f64], fit: &[f64]) -> f64
    requires { (length y.now ≤ 65536) × (length y.now ≤ length fit.now) }
    ensures { result ≡ def.datafit y.now fit.now (length y.now) }
{
    squared_error(y, fit) / ((2 * y.len()) as f64)
}

pub fn compute_extrapolated_fit(x: &Tested<'_>, ws: &[u32], w: &[f64], fit: &mut [f64])
    requires { let p = x.now.matrix.shape.p in
        ((k : ℕ) → k < length ws.now → get_or ws.now k 0 < p) × (p ≤ length w.now) × (x.now.matrix.shape.n ≤ length fit.old) }
    ensures { let X = def.of_matrix x.now.matrix in
        fit.new ≡ put fit.old 0 (def.extrapolated X ws.now (take x.now.matrix.shape.p w.now)) }
{
    let Shape { n, p, .. } = x.matrix.shape;
    columns::extrapolated_fit(x, ws, &w[..p], &mut fit[..n]);
}

// X'y into the first p places, and the largest of it over n.
pub fn largest_of(x: &Tested<'_>, y: &[f64], xty: &mut [f64]) -> f64
    requires { (x.now.matrix.shape.n ≤ 65536) × (x.now.matrix.shape.p ≤ length xty.old) × (x.now.matrix.shape.n ≤ length y.now) }
    ensures { let X = def.of_matrix x.now.matrix in
        (result ≡ def.alpha_max X y.now) × (xty.new ≡ put xty.old 0 (def.dots X y.now)) }
{
    passes::alpha_max(x, y, &mut xty[..x.matrix.shape.p])
}
