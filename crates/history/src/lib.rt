// What is kept of K+1 epochs: a row of it written, the steps from row to row, the system that pairs them, and rows combined. Row r holds, from place r·p
// on, the working set's weights in its order.
#![tactic(auto)]

ghost use Rattle.std.specs.Prelude.{◌≡◌, ℕ, suc, ◌+◌, ◌*◌, ◌<◌, ◌≤◌, length, get_or};
ghost use Rattle.doubles.specs.Num as num;
ghost use Rattle.doubles.specs.Buffer.{put};
ghost use Rattle.definition.specs.Extrapolation as ext;
ghost use Rattle.history.specs.Inner.Filling as filling;

use columns::{feature_of, weight};

// The depth K, and the length of a row of what is kept.
#[derive(Clone, Copy, Drop)]
pub struct Kept {
    pub depth: usize,
    pub p: usize,
}

// ---- rows

// The working set's weights become the row of what is kept that begins at base.
pub fn keep(ws: &[u32], w: &[f64], base: usize, kept: &mut [f64])
    requires { ((k : ℕ) → k < length ws.now → get_or ws.now k 0 < length w.now) × (base + length ws.now ≤ length kept.old) }
    ensures { kept.new ≡ put kept.old base (ext.gathered ws.now w.now) }
{
    for i in 0..ws.len() {
        kept[base + i] = weight(w, feature_of(ws, i));
    }
}

// Place i of row r.
fn kept_weight(kept: &[f64], shape: Kept, r: usize, i: usize) -> f64
    requires { (r ≤ shape.depth) × (i < shape.p) × (suc shape.depth * shape.p ≤ length kept.now) }
    ensures { result ≡ num.at kept.now (r * shape.p + i) }
{
    kept[r * shape.p + i]
}

// ---- the system

// Step k at place i of the working set: from row k to the next.
fn difference(kept: &[f64], shape: Kept, k: usize, i: usize) -> f64
    requires { (k < shape.depth) × (i < shape.p) × (suc shape.depth * shape.p ≤ length kept.now) }
    ensures { result ≡ ext.U shape.p kept.now k i }
{
    kept_weight(kept, shape, k + 1, i) - kept_weight(kept, shape, k, i)
}

// Steps k and l paired: the sum of U[k,j]·U[l,j] over the places of a working set of that size, in their order. A row's places lie side by side, so
// that the sum streams.
fn entry(kept: &[f64], shape: Kept, size: usize, k: usize, l: usize) -> f64
    requires { (k < shape.depth) × (l < shape.depth) × (size ≤ shape.p) × (suc shape.depth * shape.p ≤ length kept.now) }
    ensures { result ≡ ext.entry shape.p size kept.now k l }
{
    let mut s = 0.0;
    for place in 0..size {
        s += difference(kept, shape, k, place) * difference(kept, shape, l, place);
    }
    s
}

// Entry (k,l), where the rows above row k stand in the system: a pair is the same both ways, and is summed once.
fn paired(kept: &[f64], shape: Kept, size: usize, above: [[f64; 11]; 10], k: usize, l: usize) -> f64
    requires { (k < shape.depth) × (l < shape.depth) × (shape.depth ≤ 10) × (size ≤ shape.p)
        × (suc shape.depth * shape.p ≤ length kept.now)
        × filling.RowsAbove shape size kept.now k above }
    ensures { result ≡ ext.entry shape.p size kept.now k l }
{
    if l < k {
        return above[l][k];
    }
    entry(kept, shape, size, k, l)
}

// Row k of the system: step k paired with each, and 1 on the right-hand side.
fn system_row(kept: &[f64], shape: Kept, size: usize, above: [[f64; 11]; 10], k: usize) -> [f64; 11]
    requires { (k < shape.depth) × (shape.depth ≤ 10) × (size ≤ shape.p) × (suc shape.depth * shape.p ≤ length kept.now)
        × filling.RowsAbove shape size kept.now k above }
    ensures { result ≡ ext.system_row shape.depth shape.p size kept.now k }
{
    let mut row = [0.0; 11];
    for l in 0..shape.depth {
        row[l] = paired(kept, shape, size, above, k, l);
    }
    row[shape.depth] = 1.0;
    row
}

// The system of the K steps, row by row.
pub fn system(kept: &[f64], shape: Kept, size: usize) -> [[f64; 11]; 10]
    requires { (shape.depth ≤ 10) × (size ≤ shape.p) × (suc shape.depth * shape.p ≤ length kept.now) }
    ensures { result ≡ ext.system shape.depth shape.p size kept.now }
{
    let mut m = [[0.0; 11]; 10];
    for k in 0..shape.depth {
        m[k] = system_row(kept, shape, size, m, k);
    }
    m
}

// ---- rows combined

// Place i of the candidate: the sum of c_k·row_k over the first K rows.
pub fn combined(kept: &[f64], shape: Kept, c: [f64; 10], i: usize) -> f64
    requires { (i < shape.p) × (shape.depth ≤ 10) × (suc shape.depth * shape.p ≤ length kept.now) }
    ensures { result ≡ ext.combined shape.depth shape.p kept.now c i }
{
    let mut s = 0.0;
    for k in 0..shape.depth {
        s += c[k] * kept_weight(kept, shape, k, i);
    }
    s
}
