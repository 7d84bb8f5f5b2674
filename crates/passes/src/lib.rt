// Inner functions that pass over all columns of a design. The design is a tested one. A dense design is passed row by row, with a
// running sum for each feature: each column still adds its samples upward, so the bits are those of the column by itself.
#![tactic(auto)]

ghost use Rattle.std.specs.Prelude.{◌≡◌, ◌+◌, ◌*◌, ◌<◌, ◌≤◌, length};
ghost use Rattle.doubles.specs.Num as num;
ghost use Rattle.doubles.specs.Steps.{tab, largest_from};
ghost use Rattle.designs.specs.Design as def;
ghost use Rattle.designs.specs.declared.Layout.TheVariants.{Csc};

use columns::{Stored, clear, column_dot, stored_of};
use designs::tested::Tested;
use designs::{Feature, Layout, Shape};
use doubles::{abs, larger};

// ---- v times every column

// A row of a dense design, which starts at base, times x, is added to the running sums.
fn add_row(values: &[f64], base: usize, x: f64, buf: &mut [f64])
    requires { base + length buf.old ≤ length values.now }
    ensures { buf.new
        ≡ tab (λ j. num.◌⊕◌ (num.at buf.old j) (num.◌⊗◌ (num.at values.now (base + j)) x)) (length buf.old) }
{
    for (j, sum) in buf.iter_mut().enumerate() {
        *sum += values[base + j] * x;
    }
}

fn dense_dots(n: usize, values: &[f64], v: &[f64], buf: &mut [f64])
    requires { (n * length buf.old ≤ length values.now) × (n ≤ length v.now) }
    ensures { buf.new ≡ def.dots (def.dense n (length buf.old) values.now) v.now }
{
    clear(buf);
    for i in 0..n {
        add_row(values, i * buf.len(), v[i], buf);
    }
}

// Column by column, which suits a layout that stores columns.
fn dots_by_column(x: &Tested<'_>, v: &[f64], buf: &mut [f64])
    requires { (length buf.old ≡ x.now.matrix.shape.p) × (x.now.matrix.shape.n ≤ length v.now) }
    ensures { buf.new ≡ tab (λ j. def.dot (def.of_matrix x.now.matrix) j v.now) (length buf.old) }
{
    for (j, product) in buf.iter_mut().enumerate() {
        *product = column_dot(x, Feature(j), v);
    }
}

// The products of v and all columns into p places; of the targets, X'y.
fn all_dots(x: &Tested<'_>, v: &[f64], buf: &mut [f64])
    requires { (length buf.old ≡ x.now.matrix.shape.p) × (x.now.matrix.shape.n ≤ length v.now) }
    ensures { buf.new ≡ def.dots (def.of_matrix x.now.matrix) v.now }
{
    match x.matrix.shape.layout {
        Layout::Dense => dense_dots(x.matrix.shape.n, x.matrix.values, v, buf),
        Layout::Csc => dots_by_column(x, v, buf),
    }
}

// ---- gradients

// The gradient of a feature from the product of its column and the fit, and its entry of X'y.
pub fn gradient_from(product: f64, xty: f64, n: usize) -> f64
    requires { n ≤ 65536 }
    ensures { result ≡ def.gradient_from product xty n }
{
    (product - xty) / (n as f64)
}

// Each product becomes its gradient: X'y stands at place `from` of the prepared numbers and behind it.
fn finish(n: usize, prepared: &[f64], from: usize, buf: &mut [f64])
    requires { (n ≤ 65536) × (from + length buf.old ≤ length prepared.now) }
    ensures { buf.new
        ≡ tab (λ j. def.gradient_from (num.at buf.old j) (num.at prepared.now (from + j)) n) (length buf.old) }
{
    for (j, x) in buf.iter_mut().enumerate() {
        *x = gradient_from(*x, prepared[from + j], n);
    }
}

// The gradients of all features at a fit into p places.
pub fn all_gradients(x: &Tested<'_>, prepared: &[f64], fit: &[f64], grad: &mut [f64])
    requires { let p = x.now.matrix.shape.p in
        (x.now.matrix.shape.n ≤ 65536) × (length grad.old ≡ p) × (x.now.matrix.shape.n ≤ length fit.now) × (p + p ≤ length prepared.now) }
    ensures { let X = def.of_matrix x.now.matrix in
        grad.new ≡ def.full_gradient X fit.now (λ j. num.at prepared.now (x.now.matrix.shape.p + j)) }
{
    let Shape { n, p, .. } = x.matrix.shape;
    all_dots(x, fit, grad);
    finish(n, prepared, p, grad);
}

// ---- constants

// The squares of a row of a dense design, which starts at base, are added to the running sums.
fn add_squares(values: &[f64], base: usize, buf: &mut [f64])
    requires { base + length buf.old ≤ length values.now }
    ensures { let values = values.entry.now in
        buf.new
        ≡ tab (λ j. num.◌⊕◌ (num.at buf.old j) (num.◌⊗◌ (num.at values (base + j)) (num.at values (base + j)))) (length buf.old) }
{
    for (j, sum) in buf.iter_mut().enumerate() {
        *sum += values[base + j] * values[base + j];
    }
}

fn dense_squares(n: usize, values: &[f64], buf: &mut [f64])
    requires { n * length buf.old ≤ length values.now }
    ensures { buf.new ≡ tab (def.squares (def.dense n (length buf.old) values.now)) (length buf.old) }
{
    clear(buf);
    for i in 0..n {
        add_squares(values, i * buf.len(), buf);
    }
}

// The sum of the squares of a sparse column.
fn csc_square(x: &Tested<'_>, feature: Feature) -> f64
    requires { (x.now.matrix.shape.layout ≡ Csc) × (feature.0 < x.now.matrix.shape.p) }
    ensures { result ≡ def.squares (def.of_matrix x.now.matrix) feature.0 }
{
    let Stored { start, many } = stored_of(x.matrix.starts, feature);
    let mut s = 0.0;
    for value in &x.matrix.values[start..start + many] {
        s += *value * *value;
    }
    s
}

fn csc_squares(x: &Tested<'_>, buf: &mut [f64])
    requires { (x.now.matrix.shape.layout ≡ Csc) × (length buf.old ≡ x.now.matrix.shape.p) }
    ensures { buf.new ≡ tab (def.squares (def.of_matrix x.now.matrix)) (length buf.old) }
{
    for (j, square) in buf.iter_mut().enumerate() {
        *square = csc_square(x, Feature(j));
    }
}

fn all_squares(x: &Tested<'_>, buf: &mut [f64])
    requires { length buf.old ≡ x.now.matrix.shape.p }
    ensures { buf.new ≡ tab (def.squares (def.of_matrix x.now.matrix)) x.now.matrix.shape.p }
{
    match x.matrix.shape.layout {
        Layout::Dense => dense_squares(x.matrix.shape.n, x.matrix.values, buf),
        Layout::Csc => csc_squares(x, buf),
    }
}

// Every place is divided by n.
fn divide(n: usize, buf: &mut [f64])
    requires { n ≤ 65536 }
    ensures { buf.new ≡ tab (λ j. num.◌⊘◌ (num.at buf.old j) (num.count n)) (length buf.old) }
{
    let m = n as f64;
    for x in buf {
        *x /= m;
    }
}

// The Lipschitz constants of all columns into p places.
fn constants(x: &Tested<'_>, buf: &mut [f64])
    requires { (x.now.matrix.shape.n ≤ 65536) × (length buf.old ≡ x.now.matrix.shape.p) }
    ensures { buf.new ≡ tab (def.lipschitz (def.of_matrix x.now.matrix)) x.now.matrix.shape.p }
{
    all_squares(x, buf);
    divide(x.matrix.shape.n, buf);
}

// The constants of all columns, then X'y, into 2p places.
pub fn prepare(x: &Tested<'_>, y: &[f64], buf: &mut [f64])
    requires { let p = x.now.matrix.shape.p in
        (x.now.matrix.shape.n ≤ 65536) × (length buf.old ≡ p + p) × (x.now.matrix.shape.n ≤ length y.now) }
    ensures { buf.new ≡ def.prepared (def.of_matrix x.now.matrix) y.now }
{
    let p = x.matrix.shape.p;
    constants(x, &mut buf[..p]);
    all_dots(x, y, &mut buf[p..]);
}

// The largest |x|, from 0; a NaN stays.
fn largest_abs(xs: &[f64]) -> f64
    ensures { result ≡ largest_from num.#0 (λ j. num.abs (num.at xs.now j)) (length xs.now) }
{
    let mut v = 0.0;
    for x in xs {
        v = larger(v, abs(*x));
    }
    v
}

// X'y into p places, and the largest of it over n.
pub fn alpha_max(x: &Tested<'_>, y: &[f64], xty: &mut [f64]) -> f64
    requires { (x.now.matrix.shape.n ≤ 65536) × (length xty.old ≡ x.now.matrix.shape.p) × (x.now.matrix.shape.n ≤ length y.now) }
    ensures { let X = def.of_matrix x.now.matrix in
        (result ≡ def.alpha_max X y.now) × (xty.new ≡ def.dots X y.now) }
{
    all_dots(x, y, xty);
    largest_abs(xty) / (x.matrix.shape.n as f64)
}
