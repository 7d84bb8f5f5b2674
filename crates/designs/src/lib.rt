// Designs in both layouts, and what is tested of them before a call does its work.
#![tactic(auto)]

ghost use Rattle.std.specs.Prelude.{◌≡◌};
ghost use Rattle.doubles.specs.Answer.{outcome_of};
ghost use Rattle.designs.specs.Design as def;
ghost use Rattle.designs.specs.Given.{handed};
ghost use Rattle.designs.specs.Checks as checks';

use doubles::Refusal;

pub mod inner;
pub mod tested;

// How a design lies in memory.
#[derive(Clone, Copy, PartialEq, Eq, Debug, Drop)]
pub enum Layout {
    Dense,
    Csc,
}

// What is known of a design beside its slices: n samples, p features.
#[derive(Clone, Copy, PartialEq, Eq, Debug, Drop)]
pub struct Shape {
    pub layout: Layout,
    pub n: usize,
    pub p: usize,
}

// A design as a caller hands it, which nobody has tested: the stored values, and for CSC the column starts and the row of each stored value;
// a dense design has no starts and no rows, and lies row by row.
#[derive(Clone, Copy, Drop)]
pub struct Matrix<'a> {
    pub shape: Shape,
    pub starts: &'a [u32],
    pub rows: &'a [u32],
    pub values: &'a [f64],
}

impl<'a> Matrix<'a> {
    pub fn dense(n: usize, p: usize, values: &'a [f64]) -> Self
        ensures { (result.shape ≡ def.dense_shape n p) × (result.starts.now ≡ def.nothing) × (result.rows.now ≡ def.nothing)
            × (result.values ≡ values.entry) }
    {
        Matrix {
            shape: Shape {
                layout: Layout::Dense,
                n,
                p,
            },
            starts: &[],
            rows: &[],
            values,
        }
    }

    pub fn csc(n: usize, p: usize, starts: &'a [u32], rows: &'a [u32], values: &'a [f64]) -> Self
        ensures { (result.shape ≡ def.csc_shape n p) × (result.starts ≡ starts.entry) × (result.rows ≡ rows.entry)
            × (result.values ≡ values.entry) }
    {
        Matrix {
            shape: Shape {
                layout: Layout::Csc,
                n,
                p,
            },
            starts,
            rows,
            values,
        }
    }
}

// The number of a sample, a row of the design. It indexes targets and fits.
#[derive(Clone, Copy, PartialEq, Eq, PartialOrd, Ord, Debug, Drop)]
pub struct Sample(pub usize);

// The number of a feature, a column of the design. It indexes weights, gradients and prepared numbers.
#[derive(Clone, Copy, PartialEq, Eq, PartialOrd, Ord, Debug, Drop)]
pub struct Feature(pub usize);

// The check of a design and its targets: refusals 1, 4, 5 and 6.
pub fn check(x: &Matrix<'_>, y: &[f64]) -> Result<(), Refusal>
    ensures { outcome_of result ≡ checks'.check_call (handed x.now y.now) }
{
    inner::admit(x, y, y.len() == x.shape.n, true)?;
    Ok(())
}
