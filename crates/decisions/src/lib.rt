// What a call and its run decide by: sizes, the settings' ranges and the room they ask for, whether the prepared numbers may be used, when epochs
// are checked and when they are enough, and the status; and what a walk decides by: its list of alphas, and whether a fit is usable.
#![tactic(auto)]

ghost use Rattle.std.specs.Prelude.{◌≡◌, ◌+◌, ◌≤◌, ◌<◌, length};
ghost use Rattle.std.specs.Float.Ieee.{le, lt};
ghost use Rattle.doubles.specs.Num as num;
ghost use Rattle.doubles.specs.Answer.{none, outcome_of};
ghost use Rattle.designs.specs.Given.{handed};
ghost use Rattle.definition.specs.WorkingSet as set';
ghost use Rattle.definition.specs.Run as def;
ghost use Rattle.definition.specs.Preparation as prep;
ghost use Rattle.definition.specs.Call as call;
ghost use Rattle.definition.specs.Walk as walk;
ghost use Rattle.definition.specs.declared.Status.TheVariants.{Met, Spent};

use definition::{Report, Settings, Status};
use designs::inner::sizes_agree;
use designs::{Matrix, Shape};
use doubles::{Reason, Refusal, is_finite};
use penalties::inner::{alpha_in_range, check_range, with_alpha};

// ---- settings

// Depth K counts only with extrapolation on.
fn depth_in_range(settings: Settings) -> bool
    ensures { result ≡ call.depth_legal settings }
{
    !settings.extrapolate || 1 <= settings.depth && settings.depth <= 10
}

#[tactic(auto, using(crate::proofs::Start::start_legal_above, crate::proofs::Start::start_legal_zero))]
fn start_in_range(settings: Settings) -> bool
    ensures { result ≡ call.start_legal settings }
{
    1 <= settings.start && settings.start <= 8192
}

// 2, for the first setting that is outside its range; its place is the setting's index, and the penalty's two come last.
pub fn check_settings(settings: Settings) -> Result<(), Refusal>
    ensures { outcome_of result ≡ call.settings_fault settings }
{
    if 1000 < settings.iterations {
        return Err(Reason::Setting.at(0));
    }
    if 100000 < settings.epochs {
        return Err(Reason::Setting.at(1));
    }
    if !start_in_range(settings) {
        return Err(Reason::Setting.at(2));
    }
    if !depth_in_range(settings) {
        return Err(Reason::Setting.at(3));
    }
    if !alpha_in_range(settings.tolerance) {
        return Err(Reason::Setting.at(4));
    }
    check_range(settings.penalty)
}

// 1, then the settings' 2: what a solve tests before it looks at any room.
pub fn check_early(x: &Matrix<'_>, y: &[f64], settings: Settings) -> Result<(), Refusal>
    ensures { outcome_of result ≡ call.early_fault (handed x.now y.now) settings }
{
    if !sizes_agree(x) || y.len() != x.shape.n {
        return Err(Reason::Sizes.at(0));
    }
    check_settings(settings)
}

// p, or (2K+3)·p + n with extrapolation.
pub fn scratch_room(shape: Shape, settings: Settings) -> usize
    requires { (shape.n ≤ 65536) × (shape.p ≤ 8192) × (call.settings_fault settings ≡ none) }
    ensures { result ≡ call.scratch_room shape settings }
{
    if settings.extrapolate {
        (2 * settings.depth + 3) * shape.p + shape.n
    } else {
        shape.p
    }
}

// ---- before the run: p constants, then the p entries of X'y

// Whether a constant, its inverse if it is not zero, and an entry of X'y are finite.
fn is_usable_at(constant: f64, xty: f64) -> bool
    ensures { result ≡ prep.usable constant xty }
{
    is_finite(constant) && (constant == 0.0 || is_finite(1.0 / constant)) && is_finite(xty)
}

// Whether all columns are usable.
pub fn is_usable(prepared: &[f64], p: usize) -> bool
    requires { (p ≤ 8192) × (length prepared.now ≡ p + p) }
    ensures { result ≡ prep.all_usable p prepared.now }
{
    for j in 0..p {
        if !is_usable_at(prepared[j], prepared[p + j]) {
            return false;
        }
    }
    true
}

// Whether a column's numbers may be used in a run: the constant is not negative besides.
fn is_acceptable(constant: f64, xty: f64) -> bool
    ensures { result ≡ call.acceptable constant xty }
{
    is_usable_at(constant, xty) && !(constant < 0.0)
}

// 10, at the first column whose numbers may not be used; places beyond 2p are not looked at.
pub fn check_handed(prepared: &[f64], p: usize) -> Result<(), Refusal>
    requires { (p ≤ 8192) × (p + p ≤ length prepared.now) }
    ensures { outcome_of result ≡ call.handed_fault p prepared.now }
{
    for j in 0..p {
        if !is_acceptable(prepared[j], prepared[p + j]) {
            return Err(Reason::Prepared.at(j));
        }
    }
    Ok(())
}

// The start size, capped at p.
pub fn start_size(start: usize, p: usize) -> usize
    ensures { result ≡ set'.smaller start p }
{
    start.min(p)
}

// ---- within one working set

// Epochs 10, 20, .. are checked.
pub fn is_check_due(e: usize) -> bool
    ensures { result ≡ def.checks e }
{
    e != 0 && e % 10 == 0
}

// Whether the epochs of a working set may stop at its violation v.
pub fn is_enough(everything: bool, tolerance: f64, outer: f64, v: f64) -> bool
    ensures { result ≡ num.pick everything (le v tolerance) (lt v (num.◌⊗◌ def.#0·3 outer)) }
{
    if everything {
        v <= tolerance
    } else {
        v < 0.3 * outer
    }
}

// ---- at the end

// The tolerance is met if the violation is at most that.
pub fn status(violation: f64, tolerance: f64) -> Status
    ensures { result ≡ num.pick (le violation tolerance) Met Spent }
{
    if violation <= tolerance {
        Status::Met
    } else {
        Status::Spent
    }
}

// ---- a walk over a list of alphas

// The settings with another alpha.
pub fn at_alpha(settings: Settings, alpha: f64) -> Settings
    ensures { result ≡ walk.at_alpha settings alpha }
{
    Settings {
        penalty: with_alpha(settings.penalty, alpha),
        ..settings
    }
}

// Whether an alpha of the list is in its range and, but for the first, below the one before it.
fn is_good_at(alphas: &[f64], k: usize) -> bool
    requires { k < length alphas.now }
    ensures { result ≡ walk.good_at alphas.now k }
{
    alpha_in_range(alphas[k]) && (k == 0 || alphas[k] < alphas[k - 1])
}

// Whether there are 1 to 64, and all are good.
fn list_in_range(alphas: &[f64]) -> bool
    ensures { result ≡ walk.list_legal alphas.now }
{
    if alphas.len() < 1 || 64 < alphas.len() {
        return false;
    }
    for k in 0..alphas.len() {
        if !is_good_at(alphas, k) {
            return false;
        }
    }
    true
}

// 2 at 7, behind the places of the settings.
pub fn check_list(alphas: &[f64]) -> Result<(), Refusal>
    ensures { outcome_of result ≡ walk.list_fault alphas.now }
{
    if !list_in_range(alphas) {
        return Err(Reason::Setting.at(7));
    }
    Ok(())
}

// Whether a fit with so many nonzero weights is what a walk looks for.
pub fn is_wanted(report: Report, nonzero: usize, most: usize) -> bool
    ensures { result ≡ walk.wanted most report nonzero }
{
    report.status == Status::Met && nonzero <= most
}
