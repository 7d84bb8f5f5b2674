// The functions of doubles that definitions name: each equals its definition (specs/Num.antt) on every double. And what a call that may refuse answers.
#![tactic(auto)]

ghost use Rattle.std.specs.Prelude.{◌≡◌};
ghost use Rattle.std.specs.Float.{binary64};
ghost use Rattle.std.specs.Float.Ieee.{of_bits};
ghost use Rattle.doubles.specs.Answer as answer;
ghost use Rattle.doubles.specs.Num as num;
ghost use Rattle.doubles.specs.declared.Reason.TheVariants.{NotFinite};

// A call that may refuse answers Ok of its answer, or Err of a refusal. Why it refuses, in the order of document 01's numbers, and document 02's 10
// and 11 behind them.
#[derive(Clone, Copy, PartialEq, Eq, Debug, Drop)]
pub enum Reason {
    Sizes = 1,
    Setting = 2,
    Room = 3,
    Start = 4,
    Row = 5,
    Number = 6,
    NotFinite = 7,
    Violation = 8,
    File = 9,
    Prepared = 10,
    NoAlpha = 11,
}

// A refusal: its reason, which has a number, and its place.
#[derive(Clone, Copy, PartialEq, Eq, Debug, Drop)]
pub struct Refusal {
    pub reason: Reason,
    pub place: usize,
}

impl Reason {
    // The refusal for this reason at a place.
    pub fn at(self, place: usize) -> Refusal
        ensures { result ≡ answer.refusal self place }
    {
        Refusal {
            reason: self,
            place,
        }
    }
}

impl Refusal {
    // The number by which documents, listings and calls from other languages name the reason.
    pub fn number(self) -> u32
        ensures { result ≡ answer.number self.reason }
    {
        self.reason as u32
    }
}

// A number of a run came out infinite or NaN: what breaks the run off, and its refusal.
#[derive(Clone, Copy, PartialEq, Eq, Debug, Drop)]
pub struct NotFinite;

impl From<NotFinite> for Refusal {
    ghost from_gives = { λ _ r. r ≡ answer.refusal NotFinite 0 };

    fn from(_why: NotFinite) -> Refusal {
        Reason::NotFinite.at(0)
    }
}

// |x|.
#[tactic(auto, using(crate::proofs::Library::abs_same))]
pub fn abs(x: f64) -> f64
    ensures { result ≡ num.abs x }
{
    x.abs()
}

// Rust's f64::signum.
#[tactic(auto, using(crate::proofs::Library::signum_same))]
pub fn signum(x: f64) -> f64
    ensures { result ≡ num.signum x }
{
    x.signum()
}

// Neither NaN nor infinite.
#[tactic(auto, using(crate::proofs::Library::finite_same))]
pub fn is_finite(x: f64) -> bool
    ensures { result ≡ num.finite x }
{
    x.is_finite()
}

// The larger of two; a NaN stays. (f64::max drops it.)
pub fn larger(x: f64, y: f64) -> f64
    ensures { result ≡ num.larger x y }
{
    if x < y || y.is_nan() { y } else { x }
}

// The double with these bits. A NaN's pattern lies above infinity's, the sign aside, and `from_bits` is undefined there.
pub fn double(word: u64) -> f64
    ensures { result ≡ of_bits binary64 word }
{
    if 0x7ff0_0000_0000_0000 < word % 0x8000_0000_0000_0000 {
        f64::NAN
    } else {
        f64::from_bits(word)
    }
}
