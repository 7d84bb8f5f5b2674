// The penalties and their public calls. A penalty carries its own numbers; each call goes by its cases.
ghost use Rattle.std.specs.Prelude.{◌≡◌};
ghost use Rattle.penalties.specs.Penalty as pen;
ghost use Rattle.doubles.specs.Answer.{outcome_of};

use crate::inner;
use crate::prox_funcs::soft_thresholding;
use doubles::{Reason, Refusal, abs, signum};

#[derive(Clone, Copy, PartialEq, Debug, Drop)]
pub enum Penalty {
    L1 { alpha: f64 },
    L1PlusL2 { alpha: f64, l1_ratio: f64 },
    MCP { alpha: f64, gamma: f64 },
}

// The value over all weights: 1 for a length outside 1 to 8,192, 2 for a penalty number outside its range.
pub fn value(p: Penalty, w: &[f64]) -> Result<f64, Refusal>
    ensures { outcome_of result ≡ pen.penalty_value_call p w.now }
{
    let n = w.len();
    if n < 1 || 8192 < n {
        return Err(Reason::Sizes.at(0));
    }
    inner::check_range(p)?;
    Ok(inner::value(p, w))
}

fn prox_l1(alpha: f64, v: f64, step: f64) -> f64
    ensures { result ≡ pen.prox_l1 alpha v step }
{
    soft_thresholding(v, alpha * step)
}

fn prox_l1_plus_l2(alpha: f64, ratio: f64, v: f64, step: f64) -> f64
    ensures { result ≡ pen.prox_l1_plus_l2 alpha ratio v step }
{
    let soft = soft_thresholding(v, ratio * alpha * step);
    soft / (1.0 + step * (1.0 - ratio) * alpha)
}

fn prox_mcp(alpha: f64, gamma: f64, v: f64, step: f64) -> f64
    ensures { result ≡ pen.prox_mcp alpha gamma v step }
{
    let tau = alpha * step;
    let g = gamma / step;
    let size = abs(v);
    if size <= tau {
        0.0
    } else if size > g * tau {
        v
    } else {
        signum(v) * (size - tau) / (1.0 - 1.0 / g)
    }
}

// The weight that a step from v leads to: every double is answered.
pub fn prox(p: Penalty, v: f64, step: f64) -> f64
    ensures { result ≡ pen.prox p v step }
{
    match p {
        Penalty::L1 { alpha } => prox_l1(alpha, v, step),
        Penalty::L1PlusL2 { alpha, l1_ratio } => prox_l1_plus_l2(alpha, l1_ratio, v, step),
        Penalty::MCP { alpha, gamma } => prox_mcp(alpha, gamma, v, step),
    }
}

// The violation of one feature, with weight w and gradient grad: 2 for a penalty number outside its range.
pub fn subdiff_distance(p: Penalty, w: f64, grad: f64) -> Result<f64, Refusal>
    ensures { outcome_of result ≡ pen.penalty_violation_call p w grad }
{
    inner::check_range(p)?;
    Ok(inner::violation(p, w, grad))
}
