// The walk over a list of falling alphas: the first whose fit has status 1 and at most so many nonzero weights. It tests its input once and refuses with
// the documents' number and place; refused with 1 to 6, it changes no lent buffer. It prepares once, and each fit begins from zero weights. At its end the
// prepared numbers are zero, and so is all that is lent besides where no alpha is usable, which is refused with 11.
#![tactic(auto)]

ghost use Rattle.std.specs.Prelude.{◌≡◌, true, ◌+◌, ◌≤◌, length, IfOk};
ghost use Rattle.doubles.specs.Num as num;
ghost use Rattle.doubles.specs.Steps.{zeros};
ghost use Rattle.doubles.specs.Answer.{none, outcome_of};
ghost use Rattle.designs.specs.Given.{handed, fault_of};
ghost use Rattle.definition.specs.Preparation as prep;
ghost use Rattle.definition.specs.Call as call;
ghost use Rattle.definition.specs.Walk as walk';
ghost use Rattle.definition.specs.Inner.Problem.{given_in};
ghost use Rattle.epochs.specs.Inner.Reading.{Ready};
ghost use Rattle.walks.specs.Inner.Fits as fits';

use columns::clear;
use decisions::{at_alpha, check_early, check_list, is_usable, is_wanted, scratch_room};
use definition::problem::Problem;
use definition::{Report, Settings, Usable};
use designs::Matrix;
use designs::inner::check_sized;
use designs::tested::Tested;
use doubles::{Reason, Refusal};
use passes::prepare;
use solvers::inner::{has_room, solve_inside};
use worksets::inner::{clear_indices, nonzeros};

// ---- the tests

// 1, the settings' 2, the list's, then 3 to 6. The settings are tested with a good alpha in place of theirs.
fn check_walk<'a>(
    x: &Matrix<'a>,
    y: &[f64],
    alphas: &[f64],
    prepared: &[f64],
    settings: Settings,
    w: &[f64],
    fit: &[f64],
    indices: &[u32],
    scratch: &[f64],
) -> Result<Tested<'a>, Refusal>
    ensures fault { let b = call.lent w.now fit.now indices.now scratch.now in
        fault_of result ≡ walk'.walk_tests (handed x.now y.now) settings alphas.now prepared.now b }
    ensures design { IfOk result (λ t. t.matrix ≡ x.now) }
{
    let good = at_alpha(settings, 0.0);
    check_early(x, y, good)?;
    check_list(alphas)?;
    let room = has_room(x.shape, good, prepared, w, fit, indices, scratch);
    check_sized(x, y, room)
}

// ---- the fits

// A fit with so many nonzero weights, if it is usable.
fn judge(
    fitted: Result<Report, Refusal>,
    nonzero: usize,
    most: usize,
    position: usize,
) -> Option<Usable>
    ensures { fits'.usable_of result ≡ fits'.judged (outcome_of fitted) nonzero most position }
{
    let report = fitted.ok()?;
    if !is_wanted(report, nonzero, most) {
        return None;
    }
    Some(Usable { position, report })
}

// One fit, from zero weights, if it is usable.
fn try_fit(
    problem: &Problem<'_>,
    most: usize,
    position: usize,
    w: &mut [f64],
    fit: &mut [f64],
    indices: &mut [u32],
    scratch: &mut [f64],
) -> Option<Usable>
    requires { Ready problem.now w.old fit.old scratch.old × (length indices.old ≡ problem.now.x.matrix.shape.p) }
    ensures { let settings = problem.now.settings in
        let end = fits'.fit_on (given_in problem.now) problem.now.prepared.now settings in
        (fits'.usable_of result ≡ fits'.said settings most position end)
        × fits'.Holds problem.now.x.matrix.shape settings end w.new fit.new indices.new scratch.new }
{
    let fitted = solve_inside(problem, w, fit, indices, scratch);
    judge(fitted, nonzeros(w), most, position)
}

// The first usable fit: of each, the settings are the problem's with its alpha. Where there is none, the buffers hold what the last fit left.
fn first_usable(
    problem: &Problem<'_>,
    alphas: &[f64],
    most: usize,
    w: &mut [f64],
    fit: &mut [f64],
    indices: &mut [u32],
    scratch: &mut [f64],
) -> Option<Usable>
    requires { Ready problem.now w.old fit.old scratch.old × (length indices.old ≡ problem.now.x.matrix.shape.p)
        × (walk'.list_legal alphas.now ≡ true) }
    ensures { let settings = problem.now.settings in
        let fits = fits'.fit_with (given_in problem.now) settings alphas.now problem.now.prepared.now in
        let many = length alphas.now in
        (fits'.usable_of result ≡ fits'.answer_of settings most fits many)
        × fits'.HoldsAt problem.now.x.matrix.shape settings fits (walk'.first_usable settings most fits many) w.new fit.new
        indices.new scratch.new }
{
    for (k, alpha) in alphas.iter().enumerate() {
        let with_alpha = Problem {
            x: problem.x,
            y: problem.y,
            prepared: problem.prepared,
            settings: at_alpha(problem.settings, *alpha),
        };
        if let Some(usable) = try_fit(&with_alpha, most, k, w, fit, indices, scratch) {
            return Some(usable);
        }
    }
    None
}

// The same on the tile's own numbers, where all of them can be used; else no alpha is usable.
fn try_prepared(
    problem: &Problem<'_>,
    alphas: &[f64],
    most: usize,
    w: &mut [f64],
    fit: &mut [f64],
    indices: &mut [u32],
    scratch: &mut [f64],
) -> Option<Usable>
    requires { Ready problem.now w.old fit.old scratch.old × (length indices.old ≡ problem.now.x.matrix.shape.p)
        × (walk'.list_legal alphas.now ≡ true) × (problem.now.prepared.now ≡ prep.prepared_of (given_in problem.now)) }
    ensures { let settings = problem.now.settings in
        let fits = fits'.fit_passed (given_in problem.now) settings alphas.now in
        let many = length alphas.now in
        (fits'.usable_of result ≡ fits'.answer_of settings most fits many)
        × fits'.HoldsAt problem.now.x.matrix.shape settings fits (walk'.first_usable settings most fits many) w.new fit.new
        indices.new scratch.new }
{
    if !is_usable(problem.prepared, problem.x.matrix.shape.p) {
        return None;
    }
    first_usable(problem, alphas, most, w, fit, indices, scratch)
}

// ---- the walk behind its tests

// Over buffers of exactly their room: the numbers are prepared, used and cleared, and where no alpha is usable, all else is cleared too. The settings
// have a good alpha.
fn walk_inside(
    x: &Tested<'_>,
    y: &[f64],
    alphas: &[f64],
    prepared: &mut [f64],
    settings: Settings,
    most: usize,
    w: &mut [f64],
    fit: &mut [f64],
    indices: &mut [u32],
    scratch: &mut [f64],
) -> Result<Usable, Refusal>
    requires { let s = x.now.matrix.shape in
        (s.n ≤ 65536) × (s.p ≤ 8192) × (length y.now ≡ s.n) × (length prepared.old ≡ s.p + s.p) × (call.settings_fault settings ≡ none)
        × (length w.old ≡ s.p) × (length fit.old ≡ s.n) × (length indices.old ≡ s.p)
        × (length scratch.old ≡ call.scratch_room s settings) × (walk'.list_legal alphas.now ≡ true) }
    ensures { let s = x.now.matrix.shape in
        let fits = fits'.fit_passed (handed x.now.matrix y.now) settings alphas.now in
        let many = length alphas.now in
        (outcome_of result ≡ fits'.answer_of settings most fits many)
        × fits'.Holds s settings (fits'.end_of settings most fits many) w.new fit.new indices.new scratch.new
        × (prepared.new ≡ zeros (s.p + s.p)) }
{
    prepare(x, y, prepared);
    let problem = Problem {
        x: *x,
        y,
        prepared,
        settings,
    };
    let tried = try_prepared(&problem, alphas, most, w, fit, indices, scratch);
    clear(prepared);
    match tried {
        Some(usable) => Ok(usable),
        None => {
            clear(w);
            clear(fit);
            clear_indices(indices);
            clear(scratch);
            Err(Reason::NoAlpha.at(0))
        }
    }
}

// The whole call. `most` is the largest number of nonzero weights that is wanted.
pub fn walk(
    x: &Matrix<'_>,
    y: &[f64],
    alphas: &[f64],
    prepared: &mut [f64],
    settings: Settings,
    most: usize,
    w: &mut [f64],
    fit: &mut [f64],
    indices: &mut [u32],
    scratch: &mut [f64],
) -> Result<Usable, Refusal>
    ensures { let g = handed x.now y.now in
        let b = call.lent w.old fit.old indices.old scratch.old in
        (outcome_of result ≡ walk'.walk_call g settings alphas.now most prepared.old b)
        × (call.lent w.new fit.new indices.new scratch.new ≡ walk'.walk_left g settings alphas.now most prepared.old b)
        × (prepared.new ≡ walk'.walk_numbers g settings alphas.now prepared.old b) }
{
    let tested = check_walk(x, y, alphas, prepared, settings, w, fit, indices, scratch)?;
    let shape = x.shape;
    let good = at_alpha(settings, 0.0);
    let room = scratch_room(shape, good);
    walk_inside(
        &tested,
        y,
        alphas,
        &mut prepared[..shape.p + shape.p],
        good,
        most,
        &mut w[..shape.p],
        &mut fit[..shape.n],
        &mut indices[..shape.p],
        &mut scratch[..room],
    )
}
