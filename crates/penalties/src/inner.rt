// What the solver calls of a penalty: each answers on every double, and refuses nothing.
ghost use Rattle.std.specs.Prelude.{◌≡◌, Float, length};
ghost use Rattle.doubles.specs.Num.{at};
ghost use Rattle.doubles.specs.Steps.{sum};
ghost use Rattle.doubles.specs.Answer.{outcome_of};
ghost use Rattle.penalties.specs.Penalty as pen;

use crate::separable::Penalty;
use doubles::{Reason, Refusal, abs, is_finite, signum};

pub fn alpha_in_range(alpha: f64) -> bool
    ensures { result ≡ pen.alpha_legal alpha }
{
    is_finite(alpha) && 0.0 <= alpha
}

fn ratio_in_range(ratio: f64) -> bool
    ensures { result ≡ pen.ratio_legal ratio }
{
    0.0 <= ratio && ratio <= 1.0
}

fn gamma_in_range(gamma: f64) -> bool
    ensures { result ≡ pen.gamma_legal gamma }
{
    is_finite(gamma) && 0.0 < gamma
}

// The second number; L1 has none.
fn second_in_range(p: Penalty) -> bool
    ensures { result ≡ pen.second_legal p }
{
    match p {
        Penalty::L1 { .. } => true,
        Penalty::L1PlusL2 { l1_ratio, .. } => ratio_in_range(l1_ratio),
        Penalty::MCP { gamma, .. } => gamma_in_range(gamma),
    }
}

fn alpha_of(p: Penalty) -> f64
    ensures { result ≡ pen.alpha_of p }
{
    match p {
        Penalty::L1 { alpha } | Penalty::L1PlusL2 { alpha, .. } | Penalty::MCP { alpha, .. } =>
            alpha,
    }
}

// The same penalty with another alpha.
pub fn with_alpha(p: Penalty, alpha: f64) -> Penalty
    ensures { result ≡ pen.with_alpha p alpha }
{
    match p {
        Penalty::L1 { .. } => Penalty::L1 { alpha },
        Penalty::L1PlusL2 { l1_ratio, .. } => Penalty::L1PlusL2 { alpha, l1_ratio },
        Penalty::MCP { gamma, .. } => Penalty::MCP { alpha, gamma },
    }
}

// 2, where a number of the penalty is outside its range: alpha, setting 5, then the second number, setting 6.
pub fn check_range(p: Penalty) -> Result<(), Refusal>
    ensures { outcome_of result ≡ pen.penalty_fault p }
{
    if !alpha_in_range(alpha_of(p)) {
        return Err(Reason::Setting.at(5));
    }
    if !second_in_range(p) {
        return Err(Reason::Setting.at(6));
    }
    Ok(())
}

// ---- value

// The sum of a term of each weight, features upward.
fn sum_of<F: Fn(f64) -> f64>(w: &[f64], term: F) -> f64
    requires { F.IsAlwaysCallable term }
    ensures { (t : Float → Float) → ((x r : Float) → F.post term x r → r ≡ t x)
        → result ≡ sum (λ j. t (at w.now j)) (length w.now) }
{
    let mut sum = 0.0;
    for x in w {
        sum += term(*x);
    }
    sum
}

fn sum_abs(w: &[f64]) -> f64
    ensures { result ≡ pen.sum_abs w.now }
{
    sum_of(w, |x| abs(x))
}

fn sum_squares(w: &[f64]) -> f64
    ensures { result ≡ pen.sum_squares w.now }
{
    sum_of(w, |x| x * x)
}

fn mcp_of(alpha: f64, gamma: f64, w: f64) -> f64
    ensures { result ≡ pen.mcp_of alpha gamma w }
{
    let size = abs(w);
    if size < gamma * alpha {
        alpha * size - w * w / (2.0 * gamma)
    } else {
        gamma * (alpha * alpha) / 2.0
    }
}

fn sum_mcp(alpha: f64, gamma: f64, w: &[f64]) -> f64
    ensures { result ≡ pen.sum_mcp alpha gamma w.now }
{
    sum_of(w, |x| mcp_of(alpha, gamma, x))
}

pub fn value(p: Penalty, w: &[f64]) -> f64
    ensures { result ≡ pen.value p w.now }
{
    match p {
        Penalty::L1 { alpha } => alpha * sum_abs(w),
        Penalty::L1PlusL2 { alpha, l1_ratio } => {
            alpha * (l1_ratio * sum_abs(w) + 0.5 * (1.0 - l1_ratio) * sum_squares(w))
        }
        Penalty::MCP { alpha, gamma } => sum_mcp(alpha, gamma, w),
    }
}

// ---- violation

// What |g| has over the bound, and 0 where it has nothing over it.
fn excess(g: f64, bound: f64) -> f64
    ensures { result ≡ pen.excess g bound }
{
    let over = abs(g) - bound;
    if 0.0 < over { over } else { 0.0 }
}

fn violation_l1(alpha: f64, w: f64, g: f64) -> f64
    ensures { result ≡ pen.violation_l1 alpha w g }
{
    if w == 0.0 {
        excess(g, alpha)
    } else {
        abs(-g - signum(w) * alpha)
    }
}

fn violation_l1_plus_l2(alpha: f64, ratio: f64, w: f64, g: f64) -> f64
    ensures { result ≡ pen.violation_l1_plus_l2 alpha ratio w g }
{
    if w == 0.0 {
        excess(g, alpha * ratio)
    } else {
        abs(-g - alpha * (signum(w) * ratio + (1.0 - ratio) * w))
    }
}

fn violation_mcp(alpha: f64, gamma: f64, w: f64, g: f64) -> f64
    ensures { result ≡ pen.violation_mcp alpha gamma w g }
{
    if w == 0.0 {
        excess(g, alpha)
    } else if abs(w) < alpha * gamma {
        abs(g + alpha * signum(w) - w / gamma)
    } else {
        abs(g)
    }
}

pub fn violation(p: Penalty, w: f64, g: f64) -> f64
    ensures { result ≡ pen.violation p w g }
{
    match p {
        Penalty::L1 { alpha } => violation_l1(alpha, w, g),
        Penalty::L1PlusL2 { alpha, l1_ratio } => violation_l1_plus_l2(alpha, l1_ratio, w, g),
        Penalty::MCP { alpha, gamma } => violation_mcp(alpha, gamma, w, g),
    }
}
