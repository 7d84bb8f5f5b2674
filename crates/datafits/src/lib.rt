// The quadratic datafit over a design in either layout: the public calls. Each tests its input first and refuses with document 01's number
// and place; refused, it changes no lent buffer. `prepared` is what the Rust's Quadratic holds: p Lipschitz constants, then the p entries of X'y.
#![tactic(auto)]

ghost use Rattle.std.specs.Prelude.{[], ◌≡◌};
ghost use Rattle.doubles.specs.Answer.{outcome_of};
ghost use Rattle.designs.specs.Design as def;
ghost use Rattle.designs.specs.Given.{given, handed};
ghost use Rattle.designs.specs.Checks as checks';
ghost use Rattle.datafits.specs.Calls as calls;

use designs::inner::{admit, check_numbers};
use designs::{Feature, Matrix, Shape};
use doubles::{Reason, Refusal};

pub mod inner;

// The constants and X'y into the first 2p places of a lent buffer.
pub fn initialize(x: &Matrix<'_>, y: &[f64], prepared: &mut [f64]) -> Result<(), Refusal>
    ensures { let g = handed x.now y.now in
        (outcome_of result ≡ checks'.preparation_fault g prepared.old)
        × (prepared.new ≡ calls.initialized g prepared.old) }
{
    let fits = y.len() == x.shape.n;
    let room = inner::room_twice(x.shape.p, prepared);
    let x = admit(x, y, fits, room)?;
    quadratic::initialize(&x, y, prepared);
    Ok(())
}

// The gradient of a feature at a fit.
pub fn gradient_j(
    x: &Matrix<'_>,
    prepared: &[f64],
    fit: &[f64],
    feature: Feature,
) -> Result<f64, Refusal>
    ensures { let g = handed x.now [] in
        outcome_of result ≡ calls.gradient_call g prepared.now fit.now feature.0 }
{
    let Shape { n, p, .. } = x.shape;
    let room = inner::room_twice(p, prepared) && n <= fit.len();
    let x = admit(x, &[], feature.0 < p, room)?;
    Ok(quadratic::gradient_j(&x, prepared, fit, feature))
}

// The gradients of all features at a fit, into the first p places of a lent buffer.
pub fn full_grad(
    x: &Matrix<'_>,
    prepared: &[f64],
    fit: &[f64],
    grad: &mut [f64],
) -> Result<(), Refusal>
    ensures { let g = handed x.now [] in
        (outcome_of result ≡ calls.full_grad_fault g prepared.now fit.now grad.old)
        × (grad.new ≡ calls.full_grad g prepared.now fit.now grad.old) }
{
    let Shape { n, p, .. } = x.shape;
    let buffers = n <= fit.len() && p <= grad.len();
    let room = inner::room_twice(p, prepared) && buffers;
    let x = admit(x, &[], true, room)?;
    quadratic::full_grad(&x, prepared, fit, grad);
    Ok(())
}

// The value of the datafit at a fit of the targets.
pub fn value(y: &[f64], fit: &[f64]) -> Result<f64, Refusal>
    ensures { outcome_of result ≡ calls.value_call y.now fit.now }
{
    let n = y.len();
    if n < 1 || 65536 < n {
        return Err(Reason::Sizes.at(0));
    }
    if fit.len() < n {
        return Err(Reason::Room.at(0));
    }
    check_numbers(n, &[], y)?;
    Ok(quadratic::value(y, fit))
}

// The fit gains `diff` times a column.
pub fn update_model_fit(
    x: &Matrix<'_>,
    fit: &mut [f64],
    diff: f64,
    feature: Feature,
) -> Result<(), Refusal>
    ensures { let g = handed x.now [] in
        (outcome_of result ≡ calls.update_fault g fit.old feature.0)
        × (fit.new ≡ calls.updated g fit.old diff feature.0) }
{
    let Shape { n, p, .. } = x.shape;
    let x = admit(x, &[], feature.0 < p, n <= fit.len())?;
    columns::column_update(&x, feature, diff, fit);
    Ok(())
}

// The fit of the weights at a list of features, all others counting as zero, into the first n places of a lent buffer.
pub fn compute_extrapolated_fit(
    x: &Matrix<'_>,
    ws: &[u32],
    w: &[f64],
    fit: &mut [f64],
) -> Result<(), Refusal>
    ensures { let g = handed x.now [] in
        (outcome_of result ≡ calls.extrapolated_fault g ws.now w.now fit.old)
        × (fit.new ≡ calls.extrapolated_fit g ws.now w.now fit.old) }
{
    let Shape { n, p, .. } = x.shape;
    let fits = ws.len() <= p && inner::all_below(ws, p);
    let room = p <= w.len() && n <= fit.len();
    let x = admit(x, &[], fits, room)?;
    quadratic::compute_extrapolated_fit(&x, ws, w, fit);
    Ok(())
}

// The smallest alpha for which no weight of a dense design leaves zero; X'y is left in the first p places of a lent buffer.
pub fn compute_alpha_max(
    n: usize,
    p: usize,
    values: &[f64],
    y: &[f64],
    xty: &mut [f64],
) -> Result<f64, Refusal>
    ensures { let g = given (def.dense_shape n p) def.nothing def.nothing values.now y.now in
        (outcome_of result ≡ calls.alpha_max_call g xty.old)
        × (xty.new ≡ calls.alpha_max_left g xty.old) }
{
    inner::alpha_max(&Matrix::dense(n, p, values), y, xty)
}

// The same of a CSC design.
pub fn compute_alpha_max_sparse(
    n: usize,
    p: usize,
    starts: &[u32],
    rows: &[u32],
    values: &[f64],
    y: &[f64],
    xty: &mut [f64],
) -> Result<f64, Refusal>
    ensures { let g = given (def.csc_shape n p) starts.now rows.now values.now y.now in
        (outcome_of result ≡ calls.alpha_max_call g xty.old)
        × (xty.new ≡ calls.alpha_max_left g xty.old) }
{
    inner::alpha_max(&Matrix::csc(n, p, starts, rows, values), y, xty)
}
