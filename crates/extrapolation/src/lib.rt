// Inner functions of the extrapolation: the candidate, and whether it is taken.
#![tactic(auto)]

ghost use Rattle.std.specs.Prelude.{◌≡◌, List, ℕ, suc, ◌*◌, ◌<◌, ◌≤◌, length, get_or};
ghost use Rattle.std.specs.Float.Ieee.{lt};
ghost use Rattle.doubles.specs.Num as num;
ghost use Rattle.doubles.specs.Steps.{sum};
ghost use Rattle.doubles.specs.Buffer.{put};
ghost use Rattle.designs.specs.Design as def;
ghost use Rattle.definition.specs.Extrapolation as ext;
ghost use Rattle.extrapolation.specs.Inner.Places as places;

use crate::step::Step;
use columns::{all_finite, clear, extrapolated_fit, set_weight};
use designs::{Feature, Shape};
use elimination::inner::System;
use history::{Kept, combined, keep, system};
use penalties::inner::value as penalty_value;
use quadratic::value as datafit_value;

pub mod step;

// ---- the candidate

fn total(z: [f64; 10], depth: usize) -> f64
    requires { depth ≤ 10 }
    ensures { result ≡ sum (num.at z) depth }
{
    let mut s = 0.0;
    for k in 0..depth {
        s += z[k];
    }
    s
}

// c = z/Σz
fn coefficients(z: [f64; 10], depth: usize) -> [f64; 10]
    requires { depth ≤ 10 }
    ensures { result ≡ ext.coefficients depth z }
{
    let s = total(z, depth);
    let mut c = [0.0; 10];
    for k in 0..depth {
        c[k] = z[k] / s;
    }
    c
}

// The candidate takes the place of the weights, zero outside the working set.
fn write_candidate(kept: &[f64], shape: Kept, c: [f64; 10], ws: &[u32], w: &mut [f64])
    requires { ((k : ℕ) → k < length ws.now → get_or ws.now k 0 < shape.p) × (length w.old ≡ shape.p) × (length ws.now ≤ shape.p)
        × (shape.depth ≤ 10) × (suc shape.depth * shape.p ≤ length kept.now) }
    ensures { w.new ≡ ext.candidate shape.depth shape.p ws.now kept.now c }
{
    clear(w);
    for (i, j) in ws.iter().enumerate() {
        set_weight(w, Feature(*j as usize), combined(kept, shape, c, i));
    }
}

// ---- which point is better

fn objective(step: &Step<'_>, w: &[f64], fit: &[f64]) -> f64
    requires { length fit.now ≡ step.now.x.matrix.shape.n }
    ensures { result ≡ ext.objective_of step.now.penalty step.now.y.now w.now fit.now }
{
    datafit_value(step.y, fit) + penalty_value(step.penalty, w)
}

// Strictly smaller objective, and finite.
fn is_better(step: &Step<'_>, w: &[f64], fit: &[f64], before: f64) -> bool
    requires { length fit.now ≡ step.now.x.matrix.shape.n }
    ensures { let smaller = lt (ext.objective_of step.now.penalty step.now.y.now w.now fit.now) before in
        result ≡ num.◌and◌ smaller (num.◌and◌ (ext.all_finite w.now) (ext.all_finite fit.now)) }
{
    objective(step, w, fit) < before && all_finite(w) && all_finite(fit)
}

// The places of one slice become those of another. The library's own copy would have the compiled library ask its linker for `memmove`.
fn copy(from: &[f64], to: &mut [f64])
    requires { length to.old ≡ length from.now }
    ensures { to.new ≡ from.now }
{
    for (i, x) in to.iter_mut().enumerate() {
        *x = from[i];
    }
}

// ---- the step

// Where the parts of the scratch begin that the extrapolation uses: behind the violations come K+1 rows of p places, K rows that stay
// zero (the differences are taken where they are used), the weights as they were, and the candidate's fit.
#[derive(Drop)]
pub struct Parts {
    pub kept: usize,
    pub until: usize,
    pub old: usize,
    pub fit: usize,
    pub end: usize,
}

fn lay_out(step: &Step<'_>) -> Parts
    ensures { places.Laid step.now result.kept result.until result.old result.fit result.end }
{
    let Shape { n, p, .. } = step.x.matrix.shape;
    let depth = step.depth;
    let kept = p;
    let old = (2 * depth + 2) * p;
    let fit = old + p;
    Parts {
        kept,
        until: kept + (depth + 1) * p,
        old,
        fit,
        end: fit + n,
    }
}

// The weights are put by, the candidate takes their place, and its fit is computed.
fn make_candidate(step: &Step<'_>, c: [f64; 10], ws: &[u32], w: &mut [f64], scratch: &mut [f64])
    requires { places.Sized step.now ws.now w.old scratch.old }
    ensures { let x = step.now.x.matrix in
        let depth = step.now.depth in
        let new = def.extrapolated (def.of_matrix x) ws.now w.new in
        (w.new ≡ ext.candidate depth x.shape.p ws.now (places.kept_in x.shape depth scratch.old) c)
        × (scratch.new ≡ put (put scratch.old (places.old_at x.shape depth) w.old) (places.fit_at x.shape depth) new)
        × (length new ≡ x.shape.n) }
{
    let kept = Kept {
        depth: step.depth,
        p: step.x.matrix.shape.p,
    };
    let at = lay_out(step);
    copy(w, &mut scratch[at.old..at.fit]);
    write_candidate(&scratch[at.kept..at.until], kept, c, ws, w);
    extrapolated_fit(&step.x, ws, w, &mut scratch[at.fit..at.end]);
}

// The candidate keeps its place and its fit replaces the fit if it is better, else the weights come back; the number accepted, 0 or 1.
fn choose(
    step: &Step<'_>,
    before: f64,
    old: &[f64],
    new: &[f64],
    w: &mut [f64],
    fit: &mut [f64],
) -> usize
    requires { (length new.now ≡ step.now.x.matrix.shape.n) × (length fit.old ≡ length new.now)
        × (length w.old ≡ length old.now) }
    ensures { let candidate = places.point_with w.old new.now in
        places.tried_of result w.new fit.new
        ≡ places.chosen_by step.now.penalty step.now.y.now before candidate (places.point_with old.now fit.old) }
{
    if is_better(step, w, new, before) {
        copy(new, fit);
        1
    } else {
        copy(old, w);
        0
    }
}

// The candidate of a solution z of the system is tried; the number accepted.
fn try_candidate(
    step: &Step<'_>,
    z: [f64; 10],
    ws: &[u32],
    w: &mut [f64],
    fit: &mut [f64],
    scratch: &mut [f64],
) -> usize
    requires { places.StepReady step.now ws.now w.old fit.old scratch.old }
    ensures { let depth = step.now.depth in
        let kept = places.kept_in step.now.x.matrix.shape depth scratch.old in
        let before = places.point_with w.old fit.old in
        ((q : List _) → places.tried_of result w.new fit.new ≡ places.tried_from (places.task_with step.now q) step.now.y.now depth ws.now kept z before)
        × (places.kept_in step.now.x.matrix.shape depth scratch.new ≡ kept) }
{
    let at = lay_out(step);
    let c = coefficients(z, step.depth);
    let before = objective(step, w, fit);
    make_candidate(step, c, ws, w, scratch);
    choose(
        step,
        before,
        &scratch[at.old..at.fit],
        &scratch[at.fit..at.end],
        w,
        fit,
    )
}

// The extrapolation from K+1 kept rows; the number accepted.
fn extrapolate(
    step: &Step<'_>,
    ws: &[u32],
    w: &mut [f64],
    fit: &mut [f64],
    scratch: &mut [f64],
) -> usize
    requires { places.StepReady step.now ws.now w.old fit.old scratch.old }
    ensures { let depth = step.now.depth in
        let kept = places.kept_in step.now.x.matrix.shape depth scratch.old in
        let before = places.point_with w.old fit.old in
        ((q : List _) → places.tried_of result w.new fit.new ≡ ext.extrapolate (places.task_with step.now q) step.now.y.now depth ws.now kept before)
        × (places.kept_in step.now.x.matrix.shape depth scratch.new ≡ kept) }
{
    let depth = step.depth;
    let kept = Kept {
        depth,
        p: step.x.matrix.shape.p,
    };
    let at = lay_out(step);
    let mut m = System {
        rows: system(&scratch[at.kept..at.until], kept, ws.len()),
        size: depth,
    };
    m.eliminate();
    if !m.is_regular() {
        return 0;
    }
    try_candidate(step, m.solution(), ws, w, fit, scratch)
}

// After the visits of epoch e: the weights are kept as row e mod (K+1), and where that is the last row, the extrapolation is tried; the number
// accepted.
pub fn anderson_accel(
    step: &Step<'_>,
    e: usize,
    ws: &[u32],
    w: &mut [f64],
    fit: &mut [f64],
    scratch: &mut [f64],
) -> usize
    requires { places.StepReady step.now ws.now w.old fit.old scratch.old }
    ensures { let depth = step.now.depth in
        let kept = places.kept_then step.now.x.matrix.shape depth e ws.now w.old scratch.old in
        let before = places.point_with w.old fit.old in
        ((q : List _) → places.tried_of result w.new fit.new ≡ ext.tried (places.task_with step.now q) step.now.y.now depth e ws.now kept before)
        × (places.kept_in step.now.x.matrix.shape depth scratch.new ≡ kept) }
{
    let depth = step.depth;
    let row = e % (depth + 1);
    let at = lay_out(step);
    keep(
        ws,
        w,
        row * step.x.matrix.shape.p,
        &mut scratch[at.kept..at.until],
    );
    if row != depth {
        return 0;
    }
    extrapolate(step, ws, w, fit, scratch)
}
