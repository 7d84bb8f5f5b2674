// A design that passed its tests, as the inner functions take it: whoever makes one proves that it did.
ghost use Rattle.std.specs.Prelude.{◌≡◌, ◌*◌, ◌≤◌, length};
ghost use Rattle.std.proofs.Props.{props};
ghost use Rattle.designs.specs.Inner.Sound.{Sound};
ghost use Rattle.designs.specs.declared.Layout.TheVariants.{Dense, Csc};

use crate::Matrix;

#[derive(Clone, Copy, Drop)]
pub struct Tested<'a> {
    pub matrix: Matrix<'a>,
    // The slices are those of the layout.
    pub ghost dense: { matrix.shape.layout ≡ Dense → matrix.shape.n * matrix.shape.p ≤ length matrix.values.now },
    pub ghost csc: { let s = matrix.shape in s.layout ≡ Csc → Sound s.n s.p matrix.starts.now matrix.rows.now matrix.values.now } by { Prim.hlevel props },
}
