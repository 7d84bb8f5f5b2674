// Settings, penalties, refusals, reports, positions, doubles and the size of a working set as plain numbers, for the calls from other languages.
#![tactic(auto)]

ghost use Rattle.std.specs.Prelude.{◌≡◌};
ghost use Rattle.doubles.specs.Answer.{outcome_of};
ghost use Rattle.plain_numbers.specs.Codes as codes;

use definition::{Report, Settings, Usable};
use doubles::Refusal;
use penalties::separable::{Penalty, prox};

// ---- what a caller hands

// A code that is no penalty's gives one whose second number is in no range: the settings' test refuses it with 2 at 6, where alpha is in its range.
pub fn penalty_of(code: u32, alpha: f64, second: f64) -> Penalty
    ensures { result ≡ codes.coded_penalty code alpha second }
{
    match code {
        0 => Penalty::L1 { alpha },
        1 => Penalty::L1PlusL2 {
            alpha,
            l1_ratio: second,
        },
        2 => Penalty::MCP {
            alpha,
            gamma: second,
        },
        _ => Penalty::L1PlusL2 {
            alpha,
            l1_ratio: f64::NAN,
        },
    }
}

// A code that is no penalty's is answered with NaN.
pub fn prox_of(code: u32, alpha: f64, second: f64, v: f64, step: f64) -> f64
    ensures { result ≡ codes.coded_prox code alpha second v step }
{
    prox(penalty_of(code, alpha, second), v, step)
}

pub fn settings_of(
    penalty: u32,
    alpha: f64,
    second: f64,
    tolerance: f64,
    start: usize,
    iterations: usize,
    epochs: usize,
    extrapolate: u32,
    depth: usize,
) -> Settings
    ensures { result ≡ codes.coded_settings penalty alpha second tolerance start iterations epochs extrapolate depth }
{
    Settings {
        penalty: penalty_of(penalty, alpha, second),
        tolerance,
        start,
        iterations,
        epochs,
        extrapolate: extrapolate != 0,
        depth,
    }
}

// ---- what a call answers

// Whether a call refused, whatever it answers: the refusal's number and place, both 0 where there is none.
pub fn tell_verdict<A: Copy>(answer: Result<A, Refusal>, place: &mut usize) -> u32
    ensures { (result ≡ codes.number_in (outcome_of answer)) × (place.new ≡ codes.place_in (outcome_of answer)) }
{
    match answer {
        Ok(_) => {
            *place = 0;
            0
        }
        Err(refusal) => {
            *place = refusal.place;
            refusal.number()
        }
    }
}

// A fit's answer in the caller's numbers. A refusal writes none of the report's.
pub fn tell(
    done: Result<Report, Refusal>,
    status: &mut u32,
    violation: &mut f64,
    sets: &mut usize,
    passes: &mut usize,
    accepted: &mut usize,
    place: &mut usize,
) -> u32
    ensures { let old = codes.report status.old violation.old sets.old passes.old accepted.old in
        let new = codes.report status.new violation.new sets.new passes.new accepted.new in
        (result ≡ codes.number_in (outcome_of done)) × (place.new ≡ codes.place_in (outcome_of done)) × (new ≡ codes.report_in (outcome_of done) old) }
{
    if let Ok(report) = done {
        *status = report.status.number();
        *violation = report.violation;
        *sets = report.iterations;
        *passes = report.epochs;
        *accepted = report.extrapolations;
    }
    tell_verdict(done, place)
}

// A walk's answer in the caller's numbers. A refusal writes neither the position nor any of the report's.
pub fn tell_walk(
    walked: Result<Usable, Refusal>,
    status: &mut u32,
    violation: &mut f64,
    sets: &mut usize,
    passes: &mut usize,
    accepted: &mut usize,
    position: &mut usize,
    place: &mut usize,
) -> u32
    ensures { let old = codes.report status.old violation.old sets.old passes.old accepted.old in
        let new = codes.report status.new violation.new sets.new passes.new accepted.new in
        (result ≡ codes.number_in (outcome_of walked)) × (place.new ≡ codes.place_in (outcome_of walked))
        × (codes.usable position.new new ≡ codes.usable_in (outcome_of walked) (codes.usable position.old old)) }
{
    if let Ok(usable) = walked {
        *position = usable.position;
    }
    let done = walked.map(|usable| usable.report);
    tell(done, status, violation, sets, passes, accepted, place)
}

// A working set's answer in the caller's numbers. A refusal does not write the size.
pub fn tell_size(answer: Result<usize, Refusal>, size: &mut usize, place: &mut usize) -> u32
    ensures { (result ≡ codes.number_in (outcome_of answer)) × (place.new ≡ codes.place_in (outcome_of answer))
        × (size.new ≡ codes.answer_in (outcome_of answer) size.old) }
{
    if let Ok(count) = answer {
        *size = count;
    }
    tell_verdict(answer, place)
}

// A double's answer in the caller's numbers. A refusal does not write the double.
pub fn tell_number(answer: Result<f64, Refusal>, value: &mut f64, place: &mut usize) -> u32
    ensures { (result ≡ codes.number_in (outcome_of answer)) × (place.new ≡ codes.place_in (outcome_of answer))
        × (value.new ≡ codes.answer_in (outcome_of answer) value.old) }
{
    if let Ok(x) = answer {
        *value = x;
    }
    tell_verdict(answer, place)
}
