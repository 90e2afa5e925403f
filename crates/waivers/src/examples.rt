//! The worked examples of every layer.

ghost use Rattle.waivers.specs.Examples.{AllWorkedExamples};

/// The worked examples on plans, groups, going backward and picking, each a statement about the
/// definitions.
pub fn all_worked_examples_hold()
    ensures { AllWorkedExamples }
{}
