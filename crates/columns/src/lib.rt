// Inner functions over single columns of a design in either layout. The design is a tested one, so nothing is tested here and nothing
// is exported. A column operation touches the column's stored entries and nothing of size n or p besides.
#![tactic(auto)]

ghost use Rattle.std.specs.Prelude.{◌≡◌, ℕ, ◌+◌, ◌-◌, ◌*◌, ◌<◌, ◌≤◌, length, get_or, set};
ghost use Rattle.doubles.specs.Num.{#0, at, finite};
ghost use Rattle.doubles.specs.Steps.{all, tab};
ghost use Rattle.designs.specs.Design as def;
ghost use Rattle.designs.specs.declared.Layout.TheVariants.{Csc};
ghost use Rattle.columns.specs.Inner.RowFit.{row_fit};

use designs::tested::Tested;
use designs::{Feature, Layout, Matrix, Sample, Shape};
use doubles::is_finite;

// The sample of a stored entry.
pub fn sample_of(rows: &[u32], e: usize) -> Sample
    requires { e < length rows.now }
    ensures { result.0 ≡ get_or rows.now e 0 }
{
    Sample(rows[e] as usize)
}

// The feature of an entry of a working set.
pub fn feature_of(ws: &[u32], k: usize) -> Feature
    requires { k < length ws.now }
    ensures { result.0 ≡ get_or ws.now k 0 }
{
    Feature(ws[k] as usize)
}

// What v, which has a place for each sample, holds for one.
pub fn reading(v: &[f64], sample: Sample) -> f64
    requires { sample.0 < length v.now }
    ensures { result ≡ at v.now sample.0 }
{
    v[sample.0]
}

// The weight of a feature.
pub fn weight(w: &[f64], feature: Feature) -> f64
    requires { feature.0 < length w.now }
    ensures { result ≡ at w.now feature.0 }
{
    w[feature.0]
}

// The Lipschitz constant of a feature: the prepared numbers begin with these.
pub fn constant(prepared: &[f64], feature: Feature) -> f64
    requires { feature.0 < length prepared.now }
    ensures { result ≡ at prepared.now feature.0 }
{
    prepared[feature.0]
}

// What v holds for a sample becomes x.
pub fn set_reading(v: &mut [f64], sample: Sample, x: f64)
    requires { sample.0 < length v.old }
    ensures { v.new ≡ set v.old sample.0 x }
{
    v[sample.0] = x;
}

// The weight of a feature becomes x.
pub fn set_weight(w: &mut [f64], feature: Feature, x: f64)
    requires { feature.0 < length w.old }
    ensures { w.new ≡ set w.old feature.0 x }
{
    w[feature.0] = x;
}

// Whether every place is finite.
pub fn all_finite(xs: &[f64]) -> bool
    ensures { result ≡ all (λ i. finite (at xs.now i)) (length xs.now) }
{
    xs.iter().all(|x| is_finite(*x))
}

// Where a sparse column lies among the stored entries: its first, and how many.
#[derive(Clone, Copy, Drop)]
pub struct Stored {
    pub start: usize,
    pub many: usize,
}

pub fn stored_of(starts: &[u32], feature: Feature) -> Stored
    requires { (feature.0 + 1 < length starts.now) × (get_or starts.now feature.0 0 ≤ get_or starts.now (feature.0 + 1) 0) }
    ensures { (result.start ≡ get_or starts.now feature.0 0)
        × (result.many ≡ get_or starts.now (feature.0 + 1) 0 - get_or starts.now feature.0 0) }
{
    let j = feature.0;
    let start = starts[j] as usize;
    let end = starts[j + 1] as usize;
    Stored {
        start,
        many: end - start,
    }
}

// ---- column · v

fn dense_dot(shape: Shape, values: &[f64], feature: Feature, v: &[f64]) -> f64
    requires { (feature.0 < shape.p) × (shape.n * shape.p ≤ length values.now) × (shape.n ≤ length v.now) }
    ensures { result ≡ def.dot (def.dense shape.n shape.p values.now) feature.0 v.now }
{
    let mut s = 0.0;
    for i in 0..shape.n {
        s += values[i * shape.p + feature.0] * v[i];
    }
    s
}

fn csc_dot(x: &Tested<'_>, feature: Feature, v: &[f64]) -> f64
    requires { (x.now.matrix.shape.layout ≡ Csc) × (feature.0 < x.now.matrix.shape.p) × (x.now.matrix.shape.n ≤ length v.now) }
    ensures { result ≡ def.dot (def.of_matrix x.now.matrix) feature.0 v.now }
{
    let Matrix { rows, values, .. } = x.matrix;
    let Stored { start, many } = stored_of(x.matrix.starts, feature);
    let mut s = 0.0;
    for e in start..start + many {
        s += values[e] * reading(v, sample_of(rows, e));
    }
    s
}

// The product of a column and v, in either layout.
pub fn column_dot(x: &Tested<'_>, feature: Feature, v: &[f64]) -> f64
    requires { (feature.0 < x.now.matrix.shape.p) × (x.now.matrix.shape.n ≤ length v.now) }
    ensures { result ≡ def.dot (def.of_matrix x.now.matrix) feature.0 v.now }
{
    match x.matrix.shape.layout {
        Layout::Dense => dense_dot(x.matrix.shape, x.matrix.values, feature, v),
        Layout::Csc => csc_dot(x, feature, v),
    }
}

// ---- the fit gains d · column

fn dense_update(shape: Shape, values: &[f64], feature: Feature, d: f64, fit: &mut [f64])
    requires { (feature.0 < shape.p) × (shape.n * shape.p ≤ length values.now) × (shape.n ≤ length fit.old) }
    ensures { fit.new ≡ def.moved (def.dense shape.n shape.p values.now) feature.0 d fit.old }
{
    for i in 0..shape.n {
        fit[i] += d * values[i * shape.p + feature.0];
    }
}

fn csc_update(x: &Tested<'_>, feature: Feature, d: f64, fit: &mut [f64])
    requires { (x.now.matrix.shape.layout ≡ Csc) × (feature.0 < x.now.matrix.shape.p) × (x.now.matrix.shape.n ≤ length fit.old) }
    ensures { fit.new ≡ def.moved (def.of_matrix x.now.matrix) feature.0 d fit.old }
{
    let Matrix { rows, values, .. } = x.matrix;
    let Stored { start, many } = stored_of(x.matrix.starts, feature);
    for e in start..start + many {
        let sample = sample_of(rows, e);
        set_reading(fit, sample, reading(fit, sample) + d * values[e]);
    }
}

// The fit gains d times a column, in either layout.
pub fn column_update(x: &Tested<'_>, feature: Feature, d: f64, fit: &mut [f64])
    requires { (feature.0 < x.now.matrix.shape.p) × (x.now.matrix.shape.n ≤ length fit.old) }
    ensures { fit.new ≡ def.moved (def.of_matrix x.now.matrix) feature.0 d fit.old }
{
    match x.matrix.shape.layout {
        Layout::Dense => dense_update(x.matrix.shape, x.matrix.values, feature, d, fit),
        Layout::Csc => csc_update(x, feature, d, fit),
    }
}

// ---- whether the fit is finite where a column moved it

fn csc_finite(x: &Tested<'_>, feature: Feature, fit: &[f64]) -> bool
    requires { (x.now.matrix.shape.layout ≡ Csc) × (feature.0 < x.now.matrix.shape.p) × (x.now.matrix.shape.n ≤ length fit.now) }
    ensures { result ≡ def.finite_at (def.of_matrix x.now.matrix) feature.0 fit.now }
{
    let Stored { start, many } = stored_of(x.matrix.starts, feature);
    for e in start..start + many {
        if !is_finite(reading(fit, sample_of(x.matrix.rows, e))) {
            return false;
        }
    }
    true
}

// Whether every fit entry that a column changed is finite, in either layout.
pub fn column_finite(x: &Tested<'_>, feature: Feature, fit: &[f64]) -> bool
    requires { (feature.0 < x.now.matrix.shape.p) × (length fit.now ≡ x.now.matrix.shape.n) }
    ensures { result ≡ def.finite_at (def.of_matrix x.now.matrix) feature.0 fit.now }
{
    match x.matrix.shape.layout {
        Layout::Dense => all_finite(fit),
        Layout::Csc => csc_finite(x, feature, fit),
    }
}

// ---- the fit of a list of features

// Every place becomes +0.0.
pub fn clear(buf: &mut [f64])
    ensures { buf.new ≡ tab (λ j. #0) (length buf.old) }
{
    buf.fill(0.0);
}

// What a sample of a dense design, whose row starts at base, gets of the weights w at the features ws.
fn row_fit(values: &[f64], base: usize, ws: &[u32], w: &[f64]) -> f64
    requires { ((k : ℕ) → k < length ws.now → get_or ws.now k 0 < length w.now) × (base + length w.now ≤ length values.now) }
    ensures { result ≡ row_fit values.now ws.now w.now base }
{
    let mut s = 0.0;
    for j in ws {
        let feature = Feature(*j as usize);
        s += weight(w, feature) * values[base + feature.0];
    }
    s
}

// Row by row: the same bits as column by column, since each sample adds the features in their order, and memory is streamed once.
fn dense_extrapolated_fit(values: &[f64], ws: &[u32], w: &[f64], fit: &mut [f64])
    requires { ((k : ℕ) → k < length ws.now → get_or ws.now k 0 < length w.now) × (length fit.old * length w.now ≤ length values.now) }
    ensures { fit.new
        ≡ def.extrapolated (def.dense (length fit.old) (length w.now) values.now) ws.now w.now }
{
    for (i, x) in fit.iter_mut().enumerate() {
        *x = row_fit(values, i * w.len(), ws, w);
    }
}

// The fit gains the columns of ws in their order, each times its weight.
fn csc_update_all(x: &Tested<'_>, ws: &[u32], w: &[f64], fit: &mut [f64])
    requires { (x.now.matrix.shape.layout ≡ Csc) × ((k : ℕ) → k < length ws.now → get_or ws.now k 0 < x.now.matrix.shape.p)
        × (length w.now ≡ x.now.matrix.shape.p) × (length fit.old ≡ x.now.matrix.shape.n) }
    ensures { fit.new ≡ def.moved_all (def.of_matrix x.now.matrix) ws.now w.now fit.old }
{
    for j in ws {
        let feature = Feature(*j as usize);
        csc_update(x, feature, weight(w, feature), fit);
    }
}

fn csc_extrapolated_fit(x: &Tested<'_>, ws: &[u32], w: &[f64], fit: &mut [f64])
    requires { (x.now.matrix.shape.layout ≡ Csc) × ((k : ℕ) → k < length ws.now → get_or ws.now k 0 < x.now.matrix.shape.p)
        × (length w.now ≡ x.now.matrix.shape.p) × (length fit.old ≡ x.now.matrix.shape.n) }
    ensures { fit.new ≡ def.extrapolated (def.of_matrix x.now.matrix) ws.now w.now }
{
    clear(fit);
    csc_update_all(x, ws, w, fit);
}

// The fit of the p weights w at the features ws, all others counting as zero, into n places.
pub fn extrapolated_fit(x: &Tested<'_>, ws: &[u32], w: &[f64], fit: &mut [f64])
    requires { ((k : ℕ) → k < length ws.now → get_or ws.now k 0 < x.now.matrix.shape.p) × (length w.now ≡ x.now.matrix.shape.p)
        × (length fit.old ≡ x.now.matrix.shape.n) }
    ensures { fit.new ≡ def.extrapolated (def.of_matrix x.now.matrix) ws.now w.now }
{
    match x.matrix.shape.layout {
        Layout::Dense => dense_extrapolated_fit(x.matrix.values, ws, w, fit),
        Layout::Csc => csc_extrapolated_fit(x, ws, w, fit),
    }
}
