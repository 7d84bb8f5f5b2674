// What the public calls share: the tests of a room and of a list of features, and alpha_max over either layout.
ghost use Rattle.std.specs.Prelude.{◌≡◌};
ghost use Rattle.doubles.specs.Answer.{outcome_of};
ghost use Rattle.designs.specs.Given.{handed};
ghost use Rattle.designs.specs.Checks as checks';
ghost use Rattle.datafits.specs.Calls as calls;

use designs::Matrix;
use designs::inner::admit;
use doubles::Refusal;

// Whether a buffer has 2p places. (2p itself may be more than a usize holds.)
pub fn room_twice(p: usize, buf: &[f64]) -> bool
    ensures { result ≡ checks'.room_twice p buf.now }
{
    p <= buf.len() / 2
}

// Whether every feature of a list is below p.
pub fn all_below(ws: &[u32], p: usize) -> bool
    ensures { result ≡ calls.all_below ws.now p }
{
    ws.iter().all(|j| (*j as usize) < p)
}

pub fn alpha_max(x: &Matrix<'_>, y: &[f64], xty: &mut [f64]) -> Result<f64, Refusal>
    ensures { let g = handed x.now y.now in
        (outcome_of result ≡ calls.alpha_max_call g xty.old)
        × (xty.new ≡ calls.alpha_max_left g xty.old) }
{
    let fits = y.len() == x.shape.n;
    let room = x.shape.p <= xty.len();
    let x = admit(x, y, fits, room)?;
    Ok(quadratic::largest_of(&x, y, xty))
}
