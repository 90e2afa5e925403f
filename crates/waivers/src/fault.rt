//! Why find ends without a set.

ghost use Rattle.std.specs.Prelude.{◌≡◌};
ghost use Rattle.waivers.specs.declared.fault.FinderFault.TheVariants.{Case as OfCase, Size as OfSize, Decider as OfDecider};
ghost use Rattle.waivers.specs.Faults.{finder_number, finder_layer};

use deciders::{DeciderFault, SizeFault};
use rules::{Facts, Layer, Refusal};

/// Why find ends without a set. A fault of a layer below is kept whole.
#[derive(Clone, Copy, PartialEq, Eq, Debug)]
pub enum FinderFault {
    /// The case refuses the call.
    Case(Refusal),
    /// The working sheet or the plan book has no size to work with.
    Size(SizeFault),
    /// No good set exists: nothing is picked.
    NoWaiver,
    /// The decider has no answer.
    Decider(DeciderFault),
    /// 64 groups are listed, and this picked set is blocked.
    ListFull(Facts),
}

impl FinderFault {
    /// The fault's number in report lines.
    pub fn number(self) -> u8
        ensures { result ≡ finder_number self }
    {
        // A variant that holds a value has no discriminant to cast.
        match self {
            FinderFault::Case(refusal) => refusal.number(),
            FinderFault::Size(fault) => fault.number(),
            FinderFault::NoWaiver => 20,
            FinderFault::Decider(fault) => fault.number(),
            FinderFault::ListFull(_) => 22,
        }
    }

    /// The layer that the fault comes from.
    pub fn layer(self) -> Layer
        ensures { result ≡ finder_layer self }
    {
        match self {
            FinderFault::Case(_) => Layer::Case,
            FinderFault::Size(fault) => fault.layer(),
            FinderFault::Decider(fault) => fault.layer(),
            _ => Layer::Finder,
        }
    }
}

// By hand, here and below, since the contracts say which fault a `?` makes, and a derive would not.
impl From<DeciderFault> for FinderFault {
    ghost from_gives = { λ e r. r ≡ OfDecider e };

    fn from(fault: DeciderFault) -> FinderFault {
        FinderFault::Decider(fault)
    }
}

impl From<Refusal> for FinderFault {
    ghost from_gives = { λ e r. r ≡ OfCase e };

    fn from(refusal: Refusal) -> FinderFault {
        FinderFault::Case(refusal)
    }
}

impl From<SizeFault> for FinderFault {
    ghost from_gives = { λ e r. r ≡ OfSize e };

    fn from(fault: SizeFault) -> FinderFault {
        FinderFault::Size(fault)
    }
}
