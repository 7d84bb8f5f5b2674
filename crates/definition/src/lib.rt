// What a solve is given beside a design, and what it answers. The definition stands in specs/: the crates that run it, the table of values and the
// sign laws all cite it from here, so that an edit of the one does not open the others.
#![tactic(auto)]

ghost use Rattle.std.specs.Prelude.{◌≡◌};
ghost use Rattle.definition.specs.Status.{status_number};

use penalties::separable::Penalty;

pub mod problem;

// The settings carry the penalty together with its own numbers.
#[derive(Clone, Copy, PartialEq, Debug, Drop)]
pub struct Settings {
    pub penalty: Penalty,
    pub tolerance: f64,
    pub start: usize,
    pub iterations: usize,
    pub epochs: usize,
    pub extrapolate: bool,
    pub depth: usize,
}

// Whether the tolerance was met or the iterations are spent.
#[derive(Clone, Copy, PartialEq, Eq, Debug, Drop)]
pub enum Status {
    Met = 1,
    Spent = 2,
}

impl Status {
    // The number by which documents, listings and calls from other languages name the status.
    pub fn number(self) -> u32
        ensures { result ≡ status_number self }
    {
        self as u32
    }
}

// What a run reports.
#[derive(Clone, Copy, PartialEq, Debug, Drop)]
pub struct Report {
    pub status: Status,
    pub violation: f64,
    pub iterations: usize,
    pub epochs: usize,
    pub extrapolations: usize,
}

// The first usable alpha of a list: its position, counted from 0, and its fit's report.
#[derive(Clone, Copy, PartialEq, Debug, Drop)]
pub struct Usable {
    pub position: usize,
    pub report: Report,
}
