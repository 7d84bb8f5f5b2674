// The outer iterations of a run, over a problem behind its tests. The scratch is laid out as the inner loops have it.
#![tactic(auto)]

ghost use Rattle.std.specs.Prelude.{◌≡◌, true, List, ℕ, ◌<◌, length};
ghost use Rattle.doubles.specs.Steps.{zeros};
ghost use Rattle.definition.specs.Epoch as ep;
ghost use Rattle.definition.specs.Run as def;
ghost use Rattle.definition.specs.Call as call;
ghost use Rattle.definition.specs.Inner.Problem.{task_in};
ghost use Rattle.epochs.specs.Inner.Reading as inner;
ghost use Rattle.iterations.specs.Inner.Reading as here;

use columns::clear;
use decisions::start_size;
use definition::problem::Problem;
use doubles::{NotFinite, Refusal};
use epochs::{Counts, Pace, run_epochs};
use visits::opt_cond_violation;
use worksets::inner::construct_ws;

// What is counted over a run, and the violation last found.
#[derive(Clone, Copy, Drop)]
pub struct Totals {
    pub violation: f64,
    pub iterations: usize,
    pub counts: Counts,
}

// Before the first turn.
const NOTHING_COUNTED: Totals = Totals {
    violation: 0.0,
    iterations: 0,
    counts: Counts {
        epochs: 0,
        extrapolations: 0,
    },
};

// ---- the outer loop

// One iteration at the largest violation v: the working set of the violations in the scratch is built, and its epochs are run.
fn iterate(
    problem: &Problem<'_>,
    v: f64,
    w: &mut [f64],
    fit: &mut [f64],
    indices: &mut [u32],
    scratch: &mut [f64],
    totals: Totals,
) -> Result<Pace<Totals>, NotFinite>
    requires { let P = problem.now in
        inner.Ready P w.old fit.old scratch.old × (length indices.old ≡ P.x.matrix.shape.p) × here.Totalled 999 totals
        × (here.violations_in P scratch.old ≡ ep.violations (task_in P) w.old fit.old) × (ep.all_known (task_in P) w.old fit.old ≡ true) }
    ensures { let P = problem.now in
        let before = here.state_of totals w.old fit.old (inner.kept_here P scratch.old) in
        ((sets : List (List ℕ)) → here.shows P result w.new fit.new scratch.new (def.iteration (task_in P) P.y.now P.settings v (before sets)))
        × here.Grown totals (here.totals_of result totals) }
{
    let p = problem.x.matrix.shape.p;
    let start = start_size(problem.settings.start, p);
    let many = construct_ws(&scratch[..p], w, start, indices);
    let ws = &indices[..many];
    let counts = match run_epochs(problem, v, ws, w, fit, scratch, totals.counts)? {
        Pace::Going(counts) | Pace::Stopped(counts) => counts,
    };
    Ok(Pace::Going(Totals {
        violation: v,
        iterations: totals.iterations + 1,
        counts,
    }))
}

// A turn of the outer loop before the last: the check, which may end the run, then an iteration.
fn turn(
    problem: &Problem<'_>,
    w: &mut [f64],
    fit: &mut [f64],
    indices: &mut [u32],
    scratch: &mut [f64],
    totals: Totals,
) -> Result<Pace<Totals>, NotFinite>
    requires { inner.Ready problem.now w.old fit.old scratch.old × (length indices.old ≡ problem.now.x.matrix.shape.p)
        × here.Totalled 999 totals }
    ensures { let P = problem.now in
        let before = here.state_of totals w.old fit.old (inner.kept_here P scratch.old) in
        ((t : ℕ) → t < P.settings.iterations → (sets : List (List ℕ)) → here.shows P result w.new fit.new scratch.new
        (def.turn (task_in P) P.y.now P.settings t (before sets)))
        × here.Grown totals (here.totals_of result totals) }
{
    let p = problem.x.matrix.shape.p;
    let v = opt_cond_violation(&problem.task(), w, fit, &mut scratch[..p])?;
    if v <= problem.settings.tolerance {
        return Ok(Pace::Stopped(Totals {
            violation: v,
            ..totals
        }));
    }
    iterate(problem, v, w, fit, indices, scratch, totals)
}

// The last turn is the check alone.
fn last_turn(
    problem: &Problem<'_>,
    w: &[f64],
    fit: &[f64],
    scratch: &mut [f64],
    totals: Totals,
) -> Result<Totals, NotFinite>
    requires { inner.Ready problem.now w.now fit.now scratch.old }
    ensures { let P = problem.now in
        let before = here.state_of totals w.now fit.now (inner.kept_here P scratch.old) in
        (sets : List (List ℕ)) → here.shows_end P (here.refusing result) w.now fit.now scratch.new
        (call.concluded (def.turn (task_in P) P.y.now P.settings P.settings.iterations (before sets))) }
{
    let p = problem.x.matrix.shape.p;
    let v = opt_cond_violation(&problem.task(), w, fit, &mut scratch[..p])?;
    Ok(Totals {
        violation: v,
        ..totals
    })
}

// The run, from zero weights and zero fit.
fn run(
    problem: &Problem<'_>,
    w: &mut [f64],
    fit: &mut [f64],
    indices: &mut [u32],
    scratch: &mut [f64],
) -> Result<Totals, NotFinite>
    requires { let P = problem.now in
        inner.Ready P w.old fit.old scratch.old × (length indices.old ≡ P.x.matrix.shape.p) × (w.old ≡ zeros P.x.matrix.shape.p)
        × (fit.old ≡ zeros P.x.matrix.shape.n) × (inner.kept_here P scratch.old ≡ here.nothing_kept P) }
    ensures { let P = problem.now in
        here.shows_end P (here.refusing result) w.new fit.new scratch.new (call.concluded (def.run (task_in P) P.y.now P.settings)) }
{
    let mut totals = NOTHING_COUNTED;
    for _t in 0..problem.settings.iterations {
        match turn(problem, w, fit, indices, scratch, totals)? {
            Pace::Going(now) => totals = now,
            Pace::Stopped(now) => return Ok(now),
        }
    }
    last_turn(problem, w, fit, scratch, totals)
}

// The run, whatever the buffers hold. A number that is not finite is refusal 7.
pub fn start_run(
    problem: &Problem<'_>,
    w: &mut [f64],
    fit: &mut [f64],
    indices: &mut [u32],
    scratch: &mut [f64],
) -> Result<Totals, Refusal>
    requires { inner.Ready problem.now w.old fit.old scratch.old × (length indices.old ≡ problem.now.x.matrix.shape.p) }
    ensures { let P = problem.now in
        here.shows_end P result w.new fit.new scratch.new (call.solved (task_in P) P.y.now P.settings) }
{
    clear(w);
    clear(fit);
    clear(scratch);
    let totals = run(problem, w, fit, indices, scratch)?;
    Ok(totals)
}
