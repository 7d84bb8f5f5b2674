// Which public call a record asks for, and what such a record has beside its design.
ghost use Rattle.std.specs.Prelude.{◌≤◌};

// The calls, in the order of their codes.
#[derive(Clone, Copy, Drop)]
pub enum Asked {
    Initialize,
    GradientJ,
    FullGrad,
    Value,
    UpdateModelFit,
    ComputeExtrapolatedFit,
    // The alpha_max of the layout.
    AlphaMax,
    Check,
}

impl Asked {
    // The call of a code, or none where no call has it.
    pub fn of_code(code: u64) -> Option<Asked> {
        match code {
            0x10 => Some(Asked::Initialize),
            0x11 => Some(Asked::GradientJ),
            0x12 => Some(Asked::FullGrad),
            0x13 => Some(Asked::Value),
            0x14 => Some(Asked::UpdateModelFit),
            0x15 => Some(Asked::ComputeExtrapolatedFit),
            0x16 => Some(Asked::AlphaMax),
            0x17 => Some(Asked::Check),
            _ => None,
        }
    }

    pub fn has_design(self) -> bool {
        !matches!(self, Asked::Value)
    }

    pub fn has_first(self) -> bool {
        !matches!(self, Asked::UpdateModelFit)
    }

    pub fn has_second(self) -> bool {
        matches!(
            self,
            Asked::GradientJ | Asked::FullGrad | Asked::Value | Asked::ComputeExtrapolatedFit
        )
    }

    pub fn has_lent(self) -> bool {
        matches!(
            self,
            Asked::Initialize
                | Asked::FullGrad
                | Asked::UpdateModelFit
                | Asked::ComputeExtrapolatedFit
                | Asked::AlphaMax
        )
    }

    // Whether the first array is a list of features.
    pub fn has_features(self) -> bool {
        matches!(self, Asked::ComputeExtrapolatedFit)
    }

    // How many words between the arrays and the answers: the feature, and before it the difference.
    pub fn scalars(self) -> usize
        ensures { result ≤ 2 }
    {
        match self {
            Asked::GradientJ => 1,
            Asked::UpdateModelFit => 2,
            _ => 0,
        }
    }

    // How many doubles the call answers, beside number and place and what it leaves in the buffer.
    pub fn doubles_answered(self) -> usize
        ensures { result ≤ 1 }
    {
        match self {
            Asked::GradientJ | Asked::Value | Asked::AlphaMax => 1,
            _ => 0,
        }
    }
}
