//! Slips: a waiver on paper, which has to be signed or torn.

ghost use Rattle.std.specs.Prelude.{◌≡◌};

use rules::Facts;
use std::marker::Model;

/// What a slip says: the number of the case that it was drawn from, and the set that it waives once
/// it is signed.
#[derive(Clone, Copy, PartialEq, Eq, Debug)]
pub struct SlipData {
    pub number: u32,
    pub set: Facts,
}

/// A slip. It can't be let go, copied or made by hand: draw makes it, and it is signed or torn. In
/// contracts it stands for what it says.
pub struct Slip {
    pub(crate) content: SlipData,
}

impl Model for Slip {
    ghost use Rattle.cases.specs.declared.slip.SlipData.{SlipData};

    ghost Value = { SlipData };

    ghost view = { λ slip. slip.content };
}

impl Slip {
    /// What it says.
    pub fn content(&self) -> SlipData
        ensures { result ≡ self.now }
    {
        self.content
    }

    /// The number of the case that it was drawn from.
    pub fn number(&self) -> u32
        ensures { result ≡ self.now.number }
    {
        self.content.number
    }

    /// The set that it waives once it is signed.
    pub fn set(&self) -> Facts
        ensures { result ≡ self.now.«set» }
    {
        self.content.set
    }
}
