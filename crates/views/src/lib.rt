// A sparse design as one view: its three slices travel together. Each call over a view is the public call of the crate below over its matrix.
#![tactic(auto)]

ghost use Rattle.std.specs.Prelude.{[], ◌≡◌};
ghost use Rattle.doubles.specs.Answer.{outcome_of};
ghost use Rattle.designs.specs.Design.{csc_shape};
ghost use Rattle.designs.specs.Given.{given};
ghost use Rattle.designs.specs.Checks as checks';
ghost use Rattle.datafits.specs.Calls as calls;
ghost use Rattle.definition.specs.Preparation as prep;
ghost use Rattle.definition.specs.Call as call;
ghost use Rattle.definition.specs.Walk as walk;
ghost use Rattle.views.specs.Check.{design_fault};

use definition::{Report, Settings, Usable};
use designs::inner::admit;
use designs::{Feature, Matrix};
use doubles::Refusal;

// Column starts, the row of each stored value, and the stored values.
#[derive(Clone, Copy, Drop)]
pub struct CSCArray<'a> {
    pub starts: &'a [u32],
    pub rows: &'a [u32],
    pub values: &'a [f64],
}

pub fn new<'a>(starts: &'a [u32], rows: &'a [u32], values: &'a [f64]) -> CSCArray<'a>
    ensures { (result.starts ≡ starts.entry) × (result.rows ≡ rows.entry) × (result.values ≡ values.entry) }
{
    CSCArray {
        starts,
        rows,
        values,
    }
}

impl<'a> CSCArray<'a> {
    fn matrix(self, n: usize, p: usize) -> Matrix<'a>
        ensures { (result.shape ≡ csc_shape n p) × (result.starts ≡ self.entry.starts) × (result.rows ≡ self.entry.rows)
            × (result.values ≡ self.entry.values) }
    {
        Matrix::csc(n, p, self.starts, self.rows, self.values)
    }
}

// The check of a design alone: refusals 1, 4, 5 and 6.
pub fn check(x: CSCArray<'_>, n: usize, p: usize) -> Result<(), Refusal>
    ensures { outcome_of result ≡ design_fault (given (csc_shape n p) x.entry.starts.now x.entry.rows.now x.entry.values.now []) }
{
    admit(&x.matrix(n, p), &[], true, true)?;
    Ok(())
}

// The preparation: the constants, then X'y, into the first 2p places of a lent buffer, where all of them can be used.
pub fn prepare_sparse(
    x: CSCArray<'_>,
    n: usize,
    p: usize,
    y: &[f64],
    prepared: &mut [f64],
) -> Result<(), Refusal>
    ensures { let g = given (csc_shape n p) x.entry.starts.now x.entry.rows.now x.entry.values.now y.now in
        (outcome_of result ≡ prep.prepare_call g prepared.old)
        × (prepared.new ≡ prep.prepare_left g prepared.old) }
{
    preparation::prepare(&x.matrix(n, p), y, prepared)
}

// The solve with prepared numbers.
pub fn solve_sparse(
    x: CSCArray<'_>,
    n: usize,
    p: usize,
    y: &[f64],
    prepared: &[f64],
    settings: Settings,
    w: &mut [f64],
    fit: &mut [f64],
    indices: &mut [u32],
    scratch: &mut [f64],
) -> Result<Report, Refusal>
    ensures { let g = given (csc_shape n p) x.entry.starts.now x.entry.rows.now x.entry.values.now y.now in
        let b = call.lent w.old fit.old indices.old scratch.old in
        (outcome_of result ≡ call.solve_call g settings prepared.now b)
        × (call.lent w.new fit.new indices.new scratch.new
        ≡ call.solve_left g settings prepared.now b) }
{
    solvers::solve(
        &x.matrix(n, p),
        y,
        prepared,
        settings,
        w,
        fit,
        indices,
        scratch,
    )
}

// The walk over a list of falling alphas.
pub fn walk_sparse(
    x: CSCArray<'_>,
    n: usize,
    p: usize,
    y: &[f64],
    alphas: &[f64],
    prepared: &mut [f64],
    settings: Settings,
    most: usize,
    w: &mut [f64],
    fit: &mut [f64],
    indices: &mut [u32],
    scratch: &mut [f64],
) -> Result<Usable, Refusal>
    ensures { let g = given (csc_shape n p) x.entry.starts.now x.entry.rows.now x.entry.values.now y.now in
        let b = call.lent w.old fit.old indices.old scratch.old in
        (outcome_of result ≡ walk.walk_call g settings alphas.now most prepared.old b)
        × (call.lent w.new fit.new indices.new scratch.new
        ≡ walk.walk_left g settings alphas.now most prepared.old b)
        × (prepared.new ≡ walk.walk_numbers g settings alphas.now prepared.old b) }
{
    walks::walk(
        &x.matrix(n, p),
        y,
        alphas,
        prepared,
        settings,
        most,
        w,
        fit,
        indices,
        scratch,
    )
}

// The smallest alpha for which no weight leaves zero; X'y is left in the first p places of a lent buffer.
pub fn compute_alpha_max_sparse(
    x: CSCArray<'_>,
    n: usize,
    p: usize,
    y: &[f64],
    xty: &mut [f64],
) -> Result<f64, Refusal>
    ensures { let g = given (csc_shape n p) x.entry.starts.now x.entry.rows.now x.entry.values.now y.now in
        (outcome_of result ≡ calls.alpha_max_call g xty.old)
        × (xty.new ≡ calls.alpha_max_left g xty.old) }
{
    datafits::compute_alpha_max_sparse(n, p, x.starts, x.rows, x.values, y, xty)
}

// The constants and X'y into the first 2p places of a lent buffer.
pub fn initialize_sparse(
    x: CSCArray<'_>,
    n: usize,
    p: usize,
    y: &[f64],
    prepared: &mut [f64],
) -> Result<(), Refusal>
    ensures { let g = given (csc_shape n p) x.entry.starts.now x.entry.rows.now x.entry.values.now y.now in
        (outcome_of result ≡ checks'.preparation_fault g prepared.old)
        × (prepared.new ≡ calls.initialized g prepared.old) }
{
    datafits::initialize(&x.matrix(n, p), y, prepared)
}

// The gradient of a feature at a fit.
pub fn gradient_j_sparse(
    x: CSCArray<'_>,
    n: usize,
    p: usize,
    prepared: &[f64],
    fit: &[f64],
    feature: Feature,
) -> Result<f64, Refusal>
    ensures { let g = given (csc_shape n p) x.entry.starts.now x.entry.rows.now x.entry.values.now [] in
        outcome_of result ≡ calls.gradient_call g prepared.now fit.now feature.0 }
{
    datafits::gradient_j(&x.matrix(n, p), prepared, fit, feature)
}

// The gradients of all features at a fit, into the first p places of a lent buffer.
pub fn full_grad_sparse(
    x: CSCArray<'_>,
    n: usize,
    p: usize,
    prepared: &[f64],
    fit: &[f64],
    grad: &mut [f64],
) -> Result<(), Refusal>
    ensures { let g = given (csc_shape n p) x.entry.starts.now x.entry.rows.now x.entry.values.now [] in
        (outcome_of result ≡ calls.full_grad_fault g prepared.now fit.now grad.old)
        × (grad.new ≡ calls.full_grad g prepared.now fit.now grad.old) }
{
    datafits::full_grad(&x.matrix(n, p), prepared, fit, grad)
}

// The fit gains `diff` times a column.
pub fn update_model_fit_sparse(
    x: CSCArray<'_>,
    n: usize,
    p: usize,
    fit: &mut [f64],
    diff: f64,
    feature: Feature,
) -> Result<(), Refusal>
    ensures { let g = given (csc_shape n p) x.entry.starts.now x.entry.rows.now x.entry.values.now [] in
        (outcome_of result ≡ calls.update_fault g fit.old feature.0)
        × (fit.new ≡ calls.updated g fit.old diff feature.0) }
{
    datafits::update_model_fit(&x.matrix(n, p), fit, diff, feature)
}

// The fit of the weights at a list of features, all others counting as zero, into the first n places of a lent buffer.
pub fn compute_extrapolated_fit_sparse(
    x: CSCArray<'_>,
    n: usize,
    p: usize,
    ws: &[u32],
    w: &[f64],
    fit: &mut [f64],
) -> Result<(), Refusal>
    ensures { let g = given (csc_shape n p) x.entry.starts.now x.entry.rows.now x.entry.values.now [] in
        (outcome_of result ≡ calls.extrapolated_fault g ws.now w.now fit.old)
        × (fit.new ≡ calls.extrapolated_fit g ws.now w.now fit.old) }
{
    datafits::compute_extrapolated_fit(&x.matrix(n, p), ws, w, fit)
}
