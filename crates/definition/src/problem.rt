// What passed the tests of a call, as the inner functions of a run take it: whoever makes a value of these types proves that it did.
ghost use Rattle.std.specs.Prelude.{◌≡◌, ◌+◌, ◌≤◌, length};
ghost use Rattle.std.proofs.Props.{props};
ghost use Rattle.doubles.specs.Answer.{none};
ghost use Rattle.definition.specs.Call.{settings_fault};

use crate::Settings;
use designs::tested::Tested;
use penalties::separable::Penalty;

// What violations and visits look at: a design, the penalty, and the prepared numbers, the p constants and then the p entries of X'y.
#[derive(Clone, Copy, Drop)]
pub struct Task<'a> {
    pub x: Tested<'a>,
    pub penalty: Penalty,
    pub prepared: &'a [f64],
    pub ghost few: { x.matrix.shape.n ≤ 65536 },
    pub ghost numbers: { length prepared.now ≡ x.matrix.shape.p + x.matrix.shape.p },
}

// What a run looks at besides: the targets and the settings.
#[derive(Clone, Copy, Drop)]
pub struct Problem<'a> {
    pub x: Tested<'a>,
    pub y: &'a [f64],
    pub prepared: &'a [f64],
    pub settings: Settings,
    pub ghost few: { x.matrix.shape.n ≤ 65536 },
    pub ghost narrow: { x.matrix.shape.p ≤ 8192 },
    pub ghost targets: { length y.now ≡ x.matrix.shape.n },
    pub ghost numbers: { length prepared.now ≡ x.matrix.shape.p + x.matrix.shape.p },
    pub ghost legal: { settings_fault settings ≡ none } by { Prim.hlevel props },
}

impl<'a> Problem<'a> {
    pub fn task(&self) -> Task<'a>
        ensures { (result.x ≡ self.now.x) × (result.penalty ≡ self.now.settings.penalty) × (result.prepared ≡ self.now.prepared) }
    {
        Task {
            x: self.x,
            penalty: self.settings.penalty,
            prepared: self.prepared,
        }
    }
}
