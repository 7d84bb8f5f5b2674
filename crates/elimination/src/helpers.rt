// The solution of a linear system by elimination, of a size that is tested first.
ghost use Rattle.std.specs.Prelude.{◌≡◌, replicate};
ghost use Rattle.doubles.specs.Num.{#0};
ghost use Rattle.elimination.specs.Elimination as gauss;
ghost use Rattle.elimination.specs.Answer as answer;

use crate::inner::System;
use doubles::{Reason, Refusal};

// Why a system has no solution here.
#[derive(Clone, Copy, PartialEq, Eq, Debug, Drop)]
pub enum Unsolved {
    Refused(Refusal),
    Singular,
}

// What is answered where there is no solution: why, and its ten places, which are +0.
#[derive(Clone, Copy, Drop)]
pub struct NoSolution {
    pub why: Unsolved,
    pub z: [f64; 10],
}

impl Unsolved {
    fn over_zeros(self) -> NoSolution
        ensures { (result.why ≡ self) × (result.z ≡ replicate 10 #0) }
    {
        NoSolution {
            why: self,
            z: [0.0; 10],
        }
    }
}

// The solution of the first `size` rows: 1 for a size outside 1 to 10. Unused places, and all ten where singular or refused, are +0.
pub fn solve_lin_sys(system: [[f64; 11]; 10], size: usize) -> Result<[f64; 10], NoSolution>
    ensures { answer.solution_of result ≡ gauss.solve_call size system }
{
    if size < 1 || 10 < size {
        return Err(Unsolved::Refused(Reason::Sizes.at(0)).over_zeros());
    }
    let mut m = System { rows: system, size };
    m.eliminate();
    if !m.is_regular() {
        return Err(Unsolved::Singular.over_zeros());
    }
    Ok(m.solution())
}
