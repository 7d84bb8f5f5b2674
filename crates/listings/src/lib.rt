// The listing of a fit, or the line of its refusal, as bytes in a lent buffer.
#![tactic(auto)]

ghost use Rattle.std.specs.Prelude.{◌≡◌, length};
ghost use Rattle.doubles.specs.Answer.{outcome_of};
ghost use Rattle.listings.specs.Call as calls;

use definition::Report;
use doubles::{Reason, Refusal};

pub mod inner;

// Writes what a fit answered, with these weights and fit entries, to the first bytes of `out`, and answers how many. 8,192 bytes hold the largest listing.
pub fn write_listing(
    answer: Result<Report, Refusal>,
    w: &[f64],
    entries: &[f64],
    out: &mut [u8],
) -> Result<usize, Refusal>
    ensures { (outcome_of result ≡ calls.write_call (outcome_of answer) w.now entries.now out.old)
        × (out.new ≡ calls.write_left (outcome_of answer) w.now entries.now out.old)
        × calls.Short (outcome_of result) (length out.old) }
{
    if !inner::sizes_fit(w, entries) {
        return Err(Reason::Sizes.at(0));
    }
    if out.len() < 8192 {
        return Err(Reason::Room.at(0));
    }
    match answer {
        Err(refusal) => Ok(inner::put_refusal(refusal, out)),
        Ok(report) => Ok(inner::put_listing(report, w, entries, out)),
    }
}
