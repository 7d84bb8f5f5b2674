// What a step of the extrapolation looks at, behind the tests: whoever makes one proves that its parts fit together.
ghost use Rattle.std.specs.Prelude.{◌≡◌, ◌<◌, ◌≤◌, length};

use designs::tested::Tested;
use penalties::separable::Penalty;

#[derive(Clone, Copy, Drop)]
pub struct Step<'a> {
    pub x: Tested<'a>,
    pub y: &'a [f64],
    pub penalty: Penalty,
    pub depth: usize,
    pub ghost samples: { x.matrix.shape.n ≤ 65536 },
    pub ghost features: { x.matrix.shape.p ≤ 8192 },
    pub ghost targets: { length y.now ≡ x.matrix.shape.n },
    pub ghost deep: { 0 < depth },
    pub ghost shallow: { depth ≤ 10 },
}
