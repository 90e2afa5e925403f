//! Why a case refuses a call.

ghost use Rattle.std.specs.Prelude.{◌≡◌};
ghost use Rattle.rules.specs.Refusals.{refusal_number};

/// A refusal of a case. Where several apply, the one with the lowest number is given.
#[derive(Clone, Copy, PartialEq, Eq, Debug)]
pub enum Refusal {
    /// The case is not opened yet.
    Unopened,
    /// Open is called on an opened case.
    AlreadyOpen,
    /// A slip is out.
    SlipOut,
    /// The number of facts is 0 or above 32.
    FactCount,
    /// A set names a fact at or above the number of facts.
    UnknownFact,
    /// The step gives a fact that it takes.
    GivesAndTakes,
    /// The place is above 63.
    NoSuchPlace,
    /// The place to be filled holds a step.
    PlaceTaken,
    /// The place holds no step.
    PlaceEmpty,
    /// A need of the step, outside the waived facts, does not stand.
    NeedMissing,
    /// The order names a waived fact.
    WaivedFact,
    /// There is no finding to draw, or an empty one.
    NoFinding,
    /// No slip is out, or the slip says another number or set than the one that is out.
    WrongSlip,
}

impl Refusal {
    /// The refusal's number in report lines.
    pub fn number(self) -> u8
        ensures { result ≡ refusal_number self }
    {
        // Two refusals share a number, so it can't be a discriminant.
        match self {
            Refusal::Unopened => 4,
            Refusal::AlreadyOpen => 4,
            Refusal::SlipOut => 5,
            Refusal::FactCount => 6,
            Refusal::UnknownFact => 7,
            Refusal::GivesAndTakes => 8,
            Refusal::NoSuchPlace => 9,
            Refusal::PlaceTaken => 10,
            Refusal::PlaceEmpty => 11,
            Refusal::NeedMissing => 12,
            Refusal::WaivedFact => 13,
            Refusal::NoFinding => 14,
            Refusal::WrongSlip => 15,
        }
    }
}
