// Calls for programs in other languages: numbers, slices and references to numbers. A slice passes as a pointer and then a length. Soft
// threshold and prox answer a double; each other call answers the refusal's number, 0 where there is none, and leaves the refusal's place in `place`.
#![tactic(auto)]

ghost use Rattle.std.specs.Prelude.{[], ◌≡◌};
ghost use Rattle.doubles.specs.Num.{#0};
ghost use Rattle.penalties.specs.Penalty as pen;
ghost use Rattle.penalties.specs.Soft.{soft};
ghost use Rattle.designs.specs.Design.{dense_shape, csc_shape, nothing};
ghost use Rattle.designs.specs.Given.{given};
ghost use Rattle.datafits.specs.Calls as calls;
ghost use Rattle.definition.specs.Preparation as prep;
ghost use Rattle.definition.specs.Call as call;
ghost use Rattle.worksets.specs.Call as sets;
ghost use Rattle.plain_numbers.specs.Codes as codes;
ghost use Rattle.plain_numbers.specs.Codes.{number_in, place_in, answer_in};

use designs::Matrix;
use penalties::prox_funcs::soft_thresholding;
use penalties::separable;
use plain_numbers::{
    penalty_of, prox_of, settings_of, tell, tell_number, tell_size, tell_verdict, tell_walk,
};
use preparation::prepare;
use solvers::solve;
use walks::walk;
use worksets::construct_ws_from_kkt;

// ---- prepare once, solve often

// preparation::prepare of a dense design.
#[unsafe(no_mangle)]
pub extern "C" fn koyramutey_prepare_dense(
    n: usize,
    p: usize,
    values: &[f64],
    y: &[f64],
    prepared: &mut [f64],
    place: &mut usize,
) -> u32
    ensures { let g = given (dense_shape n p) nothing nothing values.now y.now in
        let answer = prep.prepare_call g prepared.old in
        (result ≡ number_in answer) × (place.new ≡ place_in answer) × (prepared.new ≡ prep.prepare_left g prepared.old) }
{
    let verdict = prepare(&Matrix::dense(n, p, values), y, prepared);
    tell_verdict(verdict, place)
}

// The same of a CSC design.
#[unsafe(no_mangle)]
pub extern "C" fn koyramutey_prepare_csc(
    n: usize,
    p: usize,
    starts: &[u32],
    rows: &[u32],
    values: &[f64],
    y: &[f64],
    prepared: &mut [f64],
    place: &mut usize,
) -> u32
    ensures { let g = given (csc_shape n p) starts.now rows.now values.now y.now in
        let answer = prep.prepare_call g prepared.old in
        (result ≡ number_in answer) × (place.new ≡ place_in answer) × (prepared.new ≡ prep.prepare_left g prepared.old) }
{
    let verdict = prepare(&Matrix::csc(n, p, starts, rows, values), y, prepared);
    tell_verdict(verdict, place)
}

// solvers::solve of a dense design. `penalty` is 0 for L1, 1 for L1PlusL2 (`second` is its ratio), 2 for MCP (`second` is its gamma); `extrapolate`
// is 0 for off. The report is left in `status`, `violation`, `sets` (its iterations: working sets built), `passes` (its epochs) and `accepted` (its
// extrapolations).
#[unsafe(no_mangle)]
pub extern "C" fn koyramutey_solve_dense(
    n: usize,
    p: usize,
    values: &[f64],
    y: &[f64],
    prepared: &[f64],
    penalty: u32,
    alpha: f64,
    second: f64,
    tolerance: f64,
    start: usize,
    iterations: usize,
    epochs: usize,
    extrapolate: u32,
    depth: usize,
    w: &mut [f64],
    fit: &mut [f64],
    indices: &mut [u32],
    scratch: &mut [f64],
    status: &mut u32,
    violation: &mut f64,
    sets: &mut usize,
    passes: &mut usize,
    accepted: &mut usize,
    place: &mut usize,
) -> u32
    ensures { let settings = codes.coded_settings penalty alpha second tolerance start iterations epochs extrapolate depth in
        let g = given (dense_shape n p) nothing nothing values.now y.now in
        let b = call.lent w.old fit.old indices.old scratch.old in
        let old = codes.report status.old violation.old sets.old passes.old accepted.old in
        let new = codes.report status.new violation.new sets.new passes.new accepted.new in
        codes.reply result place.new new (call.lent w.new fit.new indices.new scratch.new)
        ≡ codes.solve_reply g settings prepared.now b old }
{
    let settings = settings_of(
        penalty,
        alpha,
        second,
        tolerance,
        start,
        iterations,
        epochs,
        extrapolate,
        depth,
    );
    let done = solve(
        &Matrix::dense(n, p, values),
        y,
        prepared,
        settings,
        w,
        fit,
        indices,
        scratch,
    );
    tell(done, status, violation, sets, passes, accepted, place)
}

// The same of a CSC design.
#[unsafe(no_mangle)]
pub extern "C" fn koyramutey_solve_csc(
    n: usize,
    p: usize,
    starts: &[u32],
    rows: &[u32],
    values: &[f64],
    y: &[f64],
    prepared: &[f64],
    penalty: u32,
    alpha: f64,
    second: f64,
    tolerance: f64,
    start: usize,
    iterations: usize,
    epochs: usize,
    extrapolate: u32,
    depth: usize,
    w: &mut [f64],
    fit: &mut [f64],
    indices: &mut [u32],
    scratch: &mut [f64],
    status: &mut u32,
    violation: &mut f64,
    sets: &mut usize,
    passes: &mut usize,
    accepted: &mut usize,
    place: &mut usize,
) -> u32
    ensures { let settings = codes.coded_settings penalty alpha second tolerance start iterations epochs extrapolate depth in
        let g = given (csc_shape n p) starts.now rows.now values.now y.now in
        let b = call.lent w.old fit.old indices.old scratch.old in
        let old = codes.report status.old violation.old sets.old passes.old accepted.old in
        let new = codes.report status.new violation.new sets.new passes.new accepted.new in
        codes.reply result place.new new (call.lent w.new fit.new indices.new scratch.new)
        ≡ codes.solve_reply g settings prepared.now b old }
{
    let settings = settings_of(
        penalty,
        alpha,
        second,
        tolerance,
        start,
        iterations,
        epochs,
        extrapolate,
        depth,
    );
    let done = solve(
        &Matrix::csc(n, p, starts, rows, values),
        y,
        prepared,
        settings,
        w,
        fit,
        indices,
        scratch,
    );
    tell(done, status, violation, sets, passes, accepted, place)
}

// ---- walk a list of alphas

// walks::walk of a dense design: the first of the falling `alphas` whose fit has status 1 and at most `most` nonzero weights. Settings are a solve's,
// but for alpha. Its position is left in `position`, and the report where a solve leaves it.
#[unsafe(no_mangle)]
pub extern "C" fn koyramutey_walk_dense(
    n: usize,
    p: usize,
    values: &[f64],
    y: &[f64],
    alphas: &[f64],
    prepared: &mut [f64],
    penalty: u32,
    second: f64,
    tolerance: f64,
    start: usize,
    iterations: usize,
    epochs: usize,
    extrapolate: u32,
    depth: usize,
    most: usize,
    w: &mut [f64],
    fit: &mut [f64],
    indices: &mut [u32],
    scratch: &mut [f64],
    status: &mut u32,
    violation: &mut f64,
    sets: &mut usize,
    passes: &mut usize,
    accepted: &mut usize,
    position: &mut usize,
    place: &mut usize,
) -> u32
    ensures { let settings = codes.coded_settings penalty #0 second tolerance start iterations epochs extrapolate depth in
        let g = given (dense_shape n p) nothing nothing values.now y.now in
        let b = call.lent w.old fit.old indices.old scratch.old in
        let old = codes.report status.old violation.old sets.old passes.old accepted.old in
        let new = codes.report status.new violation.new sets.new passes.new accepted.new in
        let left = call.lent w.new fit.new indices.new scratch.new in
        codes.told result place.new (codes.usable position.new new) left prepared.new
        ≡ codes.walk_reply g settings alphas.now most prepared.old b (codes.usable position.old old) }
{
    let settings = settings_of(
        penalty,
        0.0,
        second,
        tolerance,
        start,
        iterations,
        epochs,
        extrapolate,
        depth,
    );
    let walked = walk(
        &Matrix::dense(n, p, values),
        y,
        alphas,
        prepared,
        settings,
        most,
        w,
        fit,
        indices,
        scratch,
    );
    tell_walk(
        walked, status, violation, sets, passes, accepted, position, place,
    )
}

// The same of a CSC design.
#[unsafe(no_mangle)]
pub extern "C" fn koyramutey_walk_csc(
    n: usize,
    p: usize,
    starts: &[u32],
    rows: &[u32],
    values: &[f64],
    y: &[f64],
    alphas: &[f64],
    prepared: &mut [f64],
    penalty: u32,
    second: f64,
    tolerance: f64,
    start: usize,
    iterations: usize,
    epochs: usize,
    extrapolate: u32,
    depth: usize,
    most: usize,
    w: &mut [f64],
    fit: &mut [f64],
    indices: &mut [u32],
    scratch: &mut [f64],
    status: &mut u32,
    violation: &mut f64,
    sets: &mut usize,
    passes: &mut usize,
    accepted: &mut usize,
    position: &mut usize,
    place: &mut usize,
) -> u32
    ensures { let settings = codes.coded_settings penalty #0 second tolerance start iterations epochs extrapolate depth in
        let g = given (csc_shape n p) starts.now rows.now values.now y.now in
        let b = call.lent w.old fit.old indices.old scratch.old in
        let old = codes.report status.old violation.old sets.old passes.old accepted.old in
        let new = codes.report status.new violation.new sets.new passes.new accepted.new in
        let left = call.lent w.new fit.new indices.new scratch.new in
        codes.told result place.new (codes.usable position.new new) left prepared.new
        ≡ codes.walk_reply g settings alphas.now most prepared.old b (codes.usable position.old old) }
{
    let settings = settings_of(
        penalty,
        0.0,
        second,
        tolerance,
        start,
        iterations,
        epochs,
        extrapolate,
        depth,
    );
    let walked = walk(
        &Matrix::csc(n, p, starts, rows, values),
        y,
        alphas,
        prepared,
        settings,
        most,
        w,
        fit,
        indices,
        scratch,
    );
    tell_walk(
        walked, status, violation, sets, passes, accepted, position, place,
    )
}

// ---- all columns

// datafits::full_grad of a dense design.
#[unsafe(no_mangle)]
pub extern "C" fn koyramutey_full_grad_dense(
    n: usize,
    p: usize,
    values: &[f64],
    prepared: &[f64],
    fit: &[f64],
    grad: &mut [f64],
    place: &mut usize,
) -> u32
    ensures { let g = given (dense_shape n p) nothing nothing values.now [] in
        let fault = calls.full_grad_fault g prepared.now fit.now grad.old in
        (result ≡ number_in fault)
        × (place.new ≡ place_in fault)
        × (grad.new ≡ calls.full_grad g prepared.now fit.now grad.old) }
{
    let verdict = datafits::full_grad(&Matrix::dense(n, p, values), prepared, fit, grad);
    tell_verdict(verdict, place)
}

// ---- the working set

// worksets::construct_ws_from_kkt. The size of the set is left in `size`.
#[unsafe(no_mangle)]
pub extern "C" fn koyramutey_working_set(
    violations: &[f64],
    w: &[f64],
    start: usize,
    indices: &mut [u32],
    size: &mut usize,
    place: &mut usize,
) -> u32
    ensures { let answer = sets.ws_call violations.now w.now start indices.old in
        (result ≡ number_in answer) × (place.new ≡ place_in answer) × (size.new ≡ answer_in answer size.old)
        × (indices.new ≡ sets.ws_left violations.now w.now start indices.old) }
{
    let answer = construct_ws_from_kkt(violations, w, start, indices);
    tell_size(answer, size, place)
}

// ---- the leaves

// penalties::separable::value. The value is left in `value`.
#[unsafe(no_mangle)]
pub extern "C" fn koyramutey_penalty_value(
    penalty: u32,
    alpha: f64,
    second: f64,
    w: &[f64],
    value: &mut f64,
    place: &mut usize,
) -> u32
    ensures { let answer = pen.penalty_value_call (codes.coded_penalty penalty alpha second) w.now in
        (result ≡ number_in answer) × (place.new ≡ place_in answer) × (value.new ≡ answer_in answer value.old) }
{
    let answer = separable::value(penalty_of(penalty, alpha, second), w);
    tell_number(answer, value, place)
}

// penalties::separable::subdiff_distance. The violation is left in `violation`.
#[unsafe(no_mangle)]
pub extern "C" fn koyramutey_penalty_violation(
    penalty: u32,
    alpha: f64,
    second: f64,
    w: f64,
    gradient: f64,
    violation: &mut f64,
    place: &mut usize,
) -> u32
    ensures { let answer = pen.penalty_violation_call (codes.coded_penalty penalty alpha second) w gradient in
        (result ≡ number_in answer) × (place.new ≡ place_in answer) × (violation.new ≡ answer_in answer violation.old) }
{
    let answer = separable::subdiff_distance(penalty_of(penalty, alpha, second), w, gradient);
    tell_number(answer, violation, place)
}

// penalties::prox_funcs::soft_thresholding.
#[unsafe(no_mangle)]
pub extern "C" fn koyramutey_soft_threshold(x: f64, t: f64) -> f64
    ensures { result ≡ soft x t }
{
    soft_thresholding(x, t)
}

// penalties::separable::prox. A code that is no penalty's is answered with NaN.
#[unsafe(no_mangle)]
pub extern "C" fn koyramutey_prox(penalty: u32, alpha: f64, second: f64, v: f64, step: f64) -> f64
    ensures { result ≡ codes.coded_prox penalty alpha second v step }
{
    prox_of(penalty, alpha, second, v, step)
}
