// Inner functions of the solver over a task behind its tests: violations, and the visits of one epoch.
#![tactic(auto)]

ghost use Rattle.std.specs.Prelude.{◌≡◌, ℕ, ◌<◌, ◌≤◌, length, get_or};
ghost use Rattle.designs.specs.Design as design;
ghost use Rattle.definition.specs.Epoch as def;
ghost use Rattle.definition.specs.Inner.Problem.{as_task};
ghost use Rattle.visits.specs.Inner.Reading as reading';

use columns::{column_finite, column_update, constant, set_weight, weight};
use definition::problem::Task;
use designs::Feature;
use designs::tested::Tested;
use doubles::{NotFinite, is_finite, larger};
use passes::all_gradients;
use penalties::inner::violation;
use penalties::separable::{Penalty, prox};
use quadratic::gradient_j;

// ---- violations

// A gradient's violation, where both are finite.
fn violation_at(penalty: Penalty, w: f64, g: f64) -> Result<f64, NotFinite>
    ensures { reading'.worst_of result ≡ reading'.violation_at penalty w g }
{
    if !is_finite(g) {
        return Err(NotFinite);
    }
    let v = violation(penalty, w, g);
    if !is_finite(v) {
        return Err(NotFinite);
    }
    Ok(v)
}

// Each gradient becomes that feature's violation; the largest.
fn finish_violations(penalty: Penalty, w: &[f64], gradients: &mut [f64]) -> Result<f64, NotFinite>
    requires { length gradients.old ≤ length w.now }
    ensures { reading'.measured_of result gradients.new ≡ reading'.finished penalty w.now gradients.old }
{
    let mut largest = f64::NEG_INFINITY;
    for (j, g) in gradients.iter_mut().enumerate() {
        let v = violation_at(penalty, weight(w, Feature(j)), *g)?;
        *g = v;
        largest = larger(largest, v);
    }
    Ok(largest)
}

// The violations of all features into p places; the largest.
pub fn opt_cond_violation(
    task: &Task<'_>,
    w: &[f64],
    fit: &[f64],
    violations: &mut [f64],
) -> Result<f64, NotFinite>
    requires { let shape = task.now.x.matrix.shape in
        (length w.now ≡ shape.p) × (length fit.now ≡ shape.n) × (length violations.old ≡ shape.p) }
    ensures { reading'.measured_of result violations.new ≡ reading'.measured (as_task task.now) w.now fit.now }
{
    all_gradients(&task.x, task.prepared, fit, violations);
    finish_violations(task.penalty, w, violations)
}

// The largest violation of a working set.
pub fn ws_violation(task: &Task<'_>, ws: &[u32], w: &[f64], fit: &[f64]) -> Result<f64, NotFinite>
    requires { let shape = task.now.x.matrix.shape in
        ((k : ℕ) → k < length ws.now → get_or ws.now k 0 < shape.p) × (length w.now ≡ shape.p) × (length fit.now ≡ shape.n) }
    ensures { reading'.worst_of result ≡ reading'.measured_in (as_task task.now) ws.now w.now fit.now }
{
    let mut largest = f64::NEG_INFINITY;
    for j in ws {
        let feature = Feature(*j as usize);
        let g = gradient_j(&task.x, task.prepared, fit, feature);
        let v = violation_at(task.penalty, weight(w, feature), g)?;
        largest = larger(largest, v);
    }
    Ok(largest)
}

// ---- visits

// If the difference is nonzero the fit gains difference·x; what changed is to be finite.
fn move_fit(x: &Tested<'_>, feature: Feature, d: f64, fit: &mut [f64]) -> Result<(), NotFinite>
    requires { (feature.0 < x.now.matrix.shape.p) × (length fit.old ≡ x.now.matrix.shape.n) }
    ensures { let X = design.of_matrix x.now.matrix in
        (reading'.went_well result ≡ def.moved_finite X feature.0 d fit.old) × (fit.new ≡ def.moved_by X feature.0 d fit.old) }
{
    if d == 0.0 {
        return Ok(());
    }
    column_update(x, feature, d, fit);
    if !column_finite(x, feature, fit) {
        return Err(NotFinite);
    }
    Ok(())
}

// One feature's step: its gradient, new weight and changed fit entries are to be finite. A column with constant 0 is skipped.
fn visit(task: &Task<'_>, feature: Feature, w: &mut [f64], fit: &mut [f64]) -> Result<(), NotFinite>
    requires { let shape = task.now.x.matrix.shape in
        (feature.0 < shape.p) × (length w.old ≡ shape.p) × (length fit.old ≡ shape.n) }
    ensures { let T = as_task task.now in
        reading'.visit_of result w.new fit.new ≡ def.visit T feature.0 (record { weights = w.old; fit = fit.old }) }
{
    let lipschitz = constant(task.prepared, feature);
    if lipschitz == 0.0 {
        return Ok(());
    }
    let gradient = gradient_j(&task.x, task.prepared, fit, feature);
    if !is_finite(gradient) {
        return Err(NotFinite);
    }
    let old = weight(w, feature);
    let new = prox(task.penalty, old - gradient / lipschitz, 1.0 / lipschitz);
    if !is_finite(new) {
        return Err(NotFinite);
    }
    set_weight(w, feature, new);
    move_fit(&task.x, feature, new - old, fit)
}

// The visits of one epoch, in the working set's order.
pub fn cd_epoch(
    task: &Task<'_>,
    ws: &[u32],
    w: &mut [f64],
    fit: &mut [f64],
) -> Result<(), NotFinite>
    requires { let shape = task.now.x.matrix.shape in
        ((k : ℕ) → k < length ws.now → get_or ws.now k 0 < shape.p) × (length w.old ≡ shape.p) × (length fit.old ≡ shape.n) }
    ensures { let T = as_task task.now in
        reading'.visit_of result w.new fit.new ≡ def.visits T ws.now (record { weights = w.old; fit = fit.old }) }
{
    for j in ws {
        visit(task, Feature(*j as usize), w, fit)?;
    }
    Ok(())
}
