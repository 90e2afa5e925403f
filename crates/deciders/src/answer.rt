//! What a decider answers.

ghost use Rattle.std.specs.Prelude.{◌≡◌};
ghost use Rattle.rules.specs.declared.layer.Layer.TheVariants.{Decider as OfDecider};
ghost use Rattle.rules.specs.Refusals.{layer_byte};
ghost use Rattle.deciders.specs.Answers.{report_values};

use rules::{Facts, Layer};

/// The answer to a query inside the decider's reach.
// Both are answers that are proved, in the subject's words, and beside them stands `Err` for no
// answer; `None` would read as that
#[derive(Clone, Copy, PartialEq, Eq, Debug)]
pub enum Verdict {
    /// There is a plan of this length, and the plan book holds it.
    Solvable(u16),
    /// There is no plan of any length.
    Blocked,
}

/// Why a decider has no answer.
#[derive(Clone, Copy, Debug, PartialEq, Eq)]
pub enum DeciderFault {
    /// The problem with this set struck out is outside the reach of the decider with this mark.
    BeyondReach { set: Facts, mark: u8 },
}

impl DeciderFault {
    /// The fault's number in report lines.
    pub fn number(self) -> u8
        ensures { result ≡ (report_values self).0 }
    {
        // The byte of a report line; a case that holds values has no discriminant to cast.
        match self {
            DeciderFault::BeyondReach { .. } => 21,
        }
    }

    /// The layer that the fault comes from.
    pub fn layer(self) -> Layer
        ensures is { result ≡ OfDecider }
        ensures byte { layer_byte result ≡ (report_values self).1 }
    {
        match self {
            DeciderFault::BeyondReach { .. } => Layer::Decider,
        }
    }
}
