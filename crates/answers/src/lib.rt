// What the program prints for a problem file: the file is read, its problem is prepared and solved, and the listing is written.
#![tactic(auto)]

ghost use Rattle.std.specs.Prelude.{◌≡◌, length};
ghost use Rattle.doubles.specs.Answer.{outcome_of};
ghost use Rattle.designs.specs.Given.{handed};
ghost use Rattle.definition.specs.Call as call;
ghost use Rattle.definition.specs.Pair.{ordered_end};
ghost use Rattle.listings.specs.Call.{Short};
ghost use Rattle.answers.specs.Printed as def;
ghost use Rattle.answers.specs.Inner.InPlaces as here;

use decisions::check_early;
use definition::{Report, Settings};
use designs::Matrix;
use doubles::Refusal;
use files::{Sizes, read};
use listings::write_listing;
use preparation::prepare;
use solvers::solve;

// The fit of a problem of the program's sizes: 64 places hold its prepared numbers. Document 01 tests sizes and settings before all else, and the
// preparation has no settings, so they are tested here before it; the solve tests them again.
fn fit_problem(
    x: &Matrix<'_>,
    y: &[f64],
    settings: Settings,
    w: &mut [f64],
    fit: &mut [f64],
    indices: &mut [u32],
    scratch: &mut [f64],
) -> Result<Report, Refusal>
    ensures { let g = handed x.now y.now in
        let b = call.lent w.old fit.old indices.old scratch.old in
        (outcome_of result ≡ call.answer settings (ordered_end g settings def.prepared_places b))
        × (call.lent w.new fit.new indices.new scratch.new
        ≡ call.buffers x.now.shape settings b (ordered_end g settings def.prepared_places b)) }
{
    let mut prepared = [0.0; 64];
    check_early(x, y, settings)?;
    prepare(x, y, &mut prepared)?;
    solve(x, y, &prepared, settings, w, fit, indices, scratch)
}

// The listing of a problem whose arrays lie in the first places of these. 992 places are the largest scratch of the program's sizes.
fn fit_listing(
    problem: Sizes,
    targets: &[f64],
    values: &[f64],
    starts: &[u32],
    rows: &[u32],
    out: &mut [u8],
) -> Result<usize, Refusal>
    requires { here.ProblemInside problem (length targets.now) (length values.now) (length starts.now) (length rows.now) }
    ensures { let text = here.printed_in problem targets.now values.now starts.now rows.now in
        (outcome_of result ≡ def.text_call text out.old) × (out.new ≡ def.text_left text out.old)
        × Short (outcome_of result) (length out.old) }
{
    let mut w = [0.0; 32];
    let mut entries = [0.0; 256];
    let mut indices = [0u32; 32];
    let mut scratch = [0.0; 992];
    let Sizes {
        shape,
        settings,
        counts,
    } = problem;
    let x = Matrix {
        shape,
        starts: &starts[..counts.starts],
        rows: &rows[..counts.rows],
        values: &values[..counts.values],
    };
    let answer = fit_problem(
        &x,
        &targets[..counts.targets],
        settings,
        &mut w,
        &mut entries,
        &mut indices,
        &mut scratch,
    );
    write_listing(answer, &w[..shape.p], &entries[..shape.n], out)
}

// What the program prints for a file, into the first bytes of `out`; how many.
pub fn answer(file: &[u8], out: &mut [u8]) -> Result<usize, Refusal>
    ensures { (outcome_of result ≡ def.answer_call file.now out.old)
        × (out.new ≡ def.answer_left file.now out.old)
        × Short (outcome_of result) (length out.old) }
{
    let mut targets = [0.0; 6144];
    let mut values = [0.0; 4096];
    let mut starts = [0u32; 12288];
    let mut rows = [0u32; 12288];
    match read(file, &mut targets, &mut values, &mut starts, &mut rows) {
        Err(refusal) => write_listing(Err(refusal), &[], &[], out),
        Ok(problem) => fit_listing(problem, &targets, &values, &starts, &rows, out),
    }
}
