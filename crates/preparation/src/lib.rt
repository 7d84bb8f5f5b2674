// The preparation: the Lipschitz constants and X'y of a tile, computed once for any number of solves. It tests its input first and refuses with
// document 01's number and place; refused with 1 to 6, it changes nothing, and with 7 it leaves the 2p numbers at zero.
#![tactic(auto)]

ghost use Rattle.std.specs.Prelude.{◌≡◌, ◌+◌, ◌≤◌, length, take};
ghost use Rattle.doubles.specs.Num.{pick};
ghost use Rattle.doubles.specs.Steps.{zeros};
ghost use Rattle.doubles.specs.Buffer.{put};
ghost use Rattle.doubles.specs.Answer.{none, unless, outcome_of};
ghost use Rattle.designs.specs.Given.{handed};
ghost use Rattle.definition.specs.Preparation as prep;

use columns::clear;
use datafits::initialize;
use decisions::is_usable;
use designs::Matrix;
use doubles::{Reason, Refusal};

// The first 2p places stay as they are where every column is usable; else 7, and they become zero.
fn settle(p: usize, prepared: &mut [f64]) -> Result<(), Refusal>
    requires { (p ≤ 8192) × (p + p ≤ length prepared.old) }
    ensures { let all = prep.all_usable p (take (p + p) prepared.old) in
        (outcome_of result ≡ unless all 7 none)
        × (prepared.new ≡ pick all prepared.old (put prepared.old 0 (zeros (p + p)))) }
{
    if !is_usable(&prepared[..p + p], p) {
        clear(&mut prepared[..p + p]);
        return Err(Reason::NotFinite.at(0));
    }
    Ok(())
}

// The constants, then X'y, into the first 2p places of a lent buffer.
pub fn prepare(x: &Matrix<'_>, y: &[f64], prepared: &mut [f64]) -> Result<(), Refusal>
    ensures { let g = handed x.now y.now in
        (outcome_of result ≡ prep.prepare_call g prepared.old)
        × (prepared.new ≡ prep.prepare_left g prepared.old) }
{
    initialize(x, y, prepared)?;
    settle(x.shape.p, prepared)
}
