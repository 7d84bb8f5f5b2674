// Kernels for the benchmark: the product and the update of one column of a dense design, each with the tests that cost no more than the column.
// They look at sizes and at no number, so they are for callers that have checked their design; the exports have no such call.
#![tactic(auto)]

ghost use Rattle.std.specs.Prelude.{◌≡◌, ◌<◌, ◌≤◌, length, IfOk};
ghost use Rattle.doubles.specs.Answer.{outcome_of, after};
ghost use Rattle.designs.specs.Design as def;
ghost use Rattle.designs.specs.Given.{fault_of};
ghost use Rattle.plain_numbers.specs.Codes.{number_in, place_in};
ghost use Rattle.kernels.specs.Kernels as kernels;

use columns::{column_dot, column_update};
use designs::inner::sizes_agree;
use designs::tested::Tested;
use designs::{Feature, Matrix};
use doubles::{Reason, Refusal};
use plain_numbers::{tell_number, tell_verdict};

// 1 and 3, where the list that the column meets has so many places. What a tested design's type says of a dense one are its sizes.
fn admit_column<'a>(
    n: usize,
    p: usize,
    values: &'a [f64],
    column: usize,
    places: usize,
) -> Result<Tested<'a>, Refusal>
    ensures fault { fault_of result ≡ kernels.kernel_fault n p values.now column places }
    ensures design { IfOk result (λ x. (def.of_matrix x.matrix ≡ def.dense n p values.now) × (column < x.matrix.shape.p) × (x.matrix.shape.n ≤ places)) }
{
    let matrix = Matrix::dense(n, p, values);
    if !sizes_agree(&matrix) || p <= column {
        return Err(Reason::Sizes.at(0));
    }
    if places < n {
        return Err(Reason::Room.at(0));
    }
    Ok(Tested { matrix })
}

fn column_product(
    n: usize,
    p: usize,
    values: &[f64],
    column: usize,
    v: &[f64],
) -> Result<f64, Refusal>
    ensures { outcome_of result ≡ after (kernels.kernel_fault n p values.now column (length v.now)) (def.dot (def.dense n p values.now) column v.now) }
{
    let x = admit_column(n, p, values, column, v.len())?;
    Ok(column_dot(&x, Feature(column), v))
}

fn update_fit(
    n: usize,
    p: usize,
    values: &[f64],
    column: usize,
    difference: f64,
    fit: &mut [f64],
) -> Result<(), Refusal>
    ensures { (outcome_of result ≡ kernels.kernel_fault n p values.now column (length fit.old))
        × (fit.new ≡ kernels.update_left n p values.now column difference fit.old) }
{
    let x = admit_column(n, p, values, column, fit.len())?;
    column_update(&x, Feature(column), difference, fit);
    Ok(())
}

// The product of a column and v.
#[unsafe(no_mangle)]
pub extern "C" fn kernel_column_product_dense(
    n: usize,
    p: usize,
    values: &[f64],
    column: usize,
    v: &[f64],
    product: &mut f64,
    place: &mut usize,
) -> u32
    ensures { let fault = kernels.kernel_fault n p values.now column (length v.now) in
        (result ≡ number_in fault)
        × (place.new ≡ place_in fault)
        × (product.new ≡ kernels.product_left n p values.now column v.now product.old) }
{
    let answer = column_product(n, p, values, column, v);
    tell_number(answer, product, place)
}

// The fit gains `difference` times a column.
#[unsafe(no_mangle)]
pub extern "C" fn kernel_column_update_dense(
    n: usize,
    p: usize,
    values: &[f64],
    column: usize,
    difference: f64,
    fit: &mut [f64],
    place: &mut usize,
) -> u32
    ensures { let fault = kernels.kernel_fault n p values.now column (length fit.old) in
        (result ≡ number_in fault)
        × (place.new ≡ place_in fault)
        × (fit.new ≡ kernels.update_left n p values.now column difference fit.old) }
{
    let answer = update_fit(n, p, values, column, difference, fit);
    tell_verdict(answer, place)
}
