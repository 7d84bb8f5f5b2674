// The epochs of one working set, over a problem behind its tests. Of the scratch, the first p places hold the violations of all features, and the
// rest is the extrapolation's.
#![tactic(auto)]

ghost use Rattle.std.specs.Prelude.{◌≡◌, true, List, ◌+◌, ◌≤◌, length};
ghost use Rattle.definition.specs.Inner.Problem.{task_in};
ghost use Rattle.definition.specs.Run as def;
ghost use Rattle.extrapolation.specs.Inner.Places.{point_with};
ghost use Rattle.epochs.specs.Inner.Reading as here;

use decisions::{is_check_due, is_enough};
use definition::problem::Problem;
use doubles::NotFinite;
use extrapolation::anderson_accel;
use extrapolation::step::Step;
use visits::{cd_epoch, ws_violation};

// What is counted within the working sets.
#[derive(Clone, Copy, Drop)]
pub struct Counts {
    pub epochs: usize,
    pub extrapolations: usize,
}

// How an epoch ends, or a turn of the outer loop, whose numbers are finite: the next one may begin, or this one was the last.
#[derive(Clone, Copy, Drop)]
pub enum Pace<T> {
    Going(T),
    Stopped(T),
}

// The check of a working set's largest violation.
fn check(
    problem: &Problem<'_>,
    outer: f64,
    ws: &[u32],
    w: &[f64],
    fit: &[f64],
    counts: Counts,
) -> Result<Pace<Counts>, NotFinite>
    requires { here.Features problem.now ws.now × (length w.now ≡ problem.now.x.matrix.shape.p)
        × (length fit.now ≡ problem.now.x.matrix.shape.n) }
    ensures { let P = problem.now in
        ((kept : List _) → here.inner_stage result w.now fit.now kept
        ≡ def.checked (task_in P) P.settings ws.now outer (here.inner_of counts w.now fit.now kept))
        × (here.counts_of result counts ≡ counts) }
{
    let everything = ws.len() == problem.x.matrix.shape.p;
    let v = ws_violation(&problem.task(), ws, w, fit)?;
    if is_enough(everything, problem.settings.tolerance, outer, v) {
        Ok(Pace::Stopped(counts))
    } else {
        Ok(Pace::Going(counts))
    }
}

// What the extrapolation looks at, where it is on.
fn step_of<'a>(problem: &Problem<'a>) -> Step<'a>
    requires { problem.now.settings.extrapolate ≡ true }
    ensures { here.IsStepOf problem.now result }
{
    Step {
        x: problem.x,
        y: problem.y,
        penalty: problem.settings.penalty,
        depth: problem.settings.depth,
    }
}

// The epoch is counted; with extrapolation on, the weights are kept and the step is tried.
fn accelerate(
    problem: &Problem<'_>,
    e: usize,
    ws: &[u32],
    w: &mut [f64],
    fit: &mut [f64],
    scratch: &mut [f64],
    counts: Counts,
) -> Counts
    requires { here.Ready problem.now w.old fit.old scratch.old × here.Features problem.now ws.now × here.Bounded 1000000000 counts }
    ensures { let P = problem.now in
        let before = here.inner_of counts w.old fit.old (here.kept_here P scratch.old) in
        let after = here.inner_of result w.new fit.new (here.kept_here P scratch.new) in
        (after ≡ def.accelerated (task_in P) P.y.now P.settings ws.now e before (point_with w.old fit.old))
        × (result.epochs ≤ counts.epochs + 1)
        × (result.extrapolations ≤ counts.extrapolations + 1) }
{
    let counted = Counts {
        epochs: counts.epochs + 1,
        ..counts
    };
    if !problem.settings.extrapolate {
        return counted;
    }
    let taken = anderson_accel(&step_of(problem), e, ws, w, fit, scratch);
    Counts {
        extrapolations: counts.extrapolations + taken,
        ..counted
    }
}

// Epoch e: the visits, the extrapolation, the check.
fn run_epoch(
    problem: &Problem<'_>,
    outer: f64,
    e: usize,
    ws: &[u32],
    w: &mut [f64],
    fit: &mut [f64],
    scratch: &mut [f64],
    counts: Counts,
) -> Result<Pace<Counts>, NotFinite>
    requires { here.Ready problem.now w.old fit.old scratch.old × here.Features problem.now ws.now × here.Bounded 1000000000 counts }
    ensures { let P = problem.now in
        let before = here.inner_of counts w.old fit.old (here.kept_here P scratch.old) in
        let after = here.inner_stage result w.new fit.new (here.kept_here P scratch.new) in
        (after ≡ def.epoch (task_in P) P.y.now P.settings ws.now outer e before)
        × ((here.counts_of result counts).epochs ≤ counts.epochs + 1)
        × ((here.counts_of result counts).extrapolations ≤ counts.extrapolations + 1) }
{
    cd_epoch(&problem.task(), ws, w, fit)?;
    let after = accelerate(problem, e, ws, w, fit, scratch, counts);
    if is_check_due(e) {
        check(problem, outer, ws, w, fit, after)
    } else {
        Ok(Pace::Going(after))
    }
}

// The epochs of one working set.
pub fn run_epochs(
    problem: &Problem<'_>,
    outer: f64,
    ws: &[u32],
    w: &mut [f64],
    fit: &mut [f64],
    scratch: &mut [f64],
    from: Counts,
) -> Result<Pace<Counts>, NotFinite>
    requires { here.Ready problem.now w.old fit.old scratch.old × here.Features problem.now ws.now × here.Bounded 100000000 from }
    ensures { let P = problem.now in
        let before = here.inner_of from w.old fit.old (here.kept_here P scratch.old) in
        let after = here.inner_stage result w.new fit.new (here.kept_here P scratch.new) in
        (after ≡ def.epochs (task_in P) P.y.now P.settings ws.now outer before)
        × ((here.counts_of result from).epochs ≤ from.epochs + 100000)
        × ((here.counts_of result from).extrapolations ≤ from.extrapolations + 100000) }
{
    let mut counts = from;
    for e in 0..problem.settings.epochs {
        match run_epoch(problem, outer, e, ws, w, fit, scratch, counts)? {
            Pace::Going(now) => counts = now,
            Pace::Stopped(now) => return Ok(Pace::Stopped(now)),
        }
    }
    Ok(Pace::Going(counts))
}
