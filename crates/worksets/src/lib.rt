// The working set: the features that the epochs of one iteration visit.
#![tactic(auto)]

ghost use Rattle.std.specs.Prelude.{◌≡◌};
ghost use Rattle.doubles.specs.Answer.{outcome_of};
ghost use Rattle.worksets.specs.Call as calls;

use doubles::{Reason, Refusal};

pub mod inner;

// The working set of p weights and their violations, from a start size: p index places get the set, then 0. The violations are only read.
// The answer is the size of the set.
pub fn construct_ws_from_kkt(
    kkt: &[f64],
    w: &[f64],
    start: usize,
    indices: &mut [u32],
) -> Result<usize, Refusal>
    ensures { (outcome_of result ≡ calls.ws_call kkt.now w.now start indices.old)
        × (indices.new ≡ calls.ws_left kkt.now w.now start indices.old) }
{
    let p = w.len();
    if !inner::lengths_agree(kkt, w) {
        return Err(Reason::Sizes.at(0));
    }
    if !inner::start_in_range(start, p) {
        return Err(Reason::Setting.at(2));
    }
    if indices.len() < p {
        return Err(Reason::Room.at(0));
    }
    if let Some(j) = inner::first_bad_violation(kkt, w) {
        return Err(Reason::Violation.at(j));
    }
    Ok(inner::construct_ws(kkt, w, start, &mut indices[..p]))
}
