//! Licence steps.

ghost use Rattle.std.specs.Prelude.{◌≡◌, ℕ, Ok, Err, IfOk, IfErr};
ghost use Rattle.rules.specs.Sets.{inside};
ghost use Rattle.rules.specs.Steps.{step_of, step_refusal};
ghost use Rattle.rules.specs.Planning.{result_of, step_without};

use crate::facts::{Facts, difference, is_subset, meets};
use crate::refusal::Refusal;
use std::marker::Model;

/// A licence step: it can be done where all its needs stand; then its takes go, and its gives
/// stand.
///
/// There is no step that gives a fact that it takes.
#[derive(Clone, Copy, PartialEq, Eq, Default, Debug)]
pub struct Step {
    pub needs: Facts,
    pub gives: Facts,
    pub takes: Facts,
}

impl Model for Step {
    ghost use Rattle.std.specs.Prelude.{◌≡◌};
    ghost use Rattle.rules.specs.Sets.{◌∩◌};
    ghost use Rattle.rules.specs.Steps.{Step as TheStep};

    ghost Value = { TheStep };

    ghost view = { λ t. record { needs = t.needs; gives = t.gives; takes = t.takes } };

    ghost invariant = { λ t. t.gives ∩ t.takes ≡ 0 };

    ghost inverse = { λ t. record { needs = t.needs; gives = t.gives; takes = t.takes } };
}

impl Step {
    /// The step of these sets. Refused: `GivesAndTakes`, where gives and takes share a fact.
    // Put makes it once the facts of its sets are known and before it looks at the place: so its
    // refusal comes between theirs.
    pub fn new(needs: Facts, gives: Facts, takes: Facts) -> Result<Step, Refusal>
        ensures made { IfOk result (λ t. t ≡ step_of needs gives takes) }
        ensures clear { IfOk result (λ _. step_refusal gives takes ≡ Ok tt) }
        ensures refused { IfErr result (λ e. step_refusal gives takes ≡ Err e) }
    {
        if meets(gives, takes) {
            return Err(Refusal::GivesAndTakes);
        }
        Ok(Step {
            needs,
            gives,
            takes,
        })
    }

    /// Whether the step can be done in this standing.
    pub fn can_be_done(&self, standing: Facts) -> bool
        ensures { result ≡ inside self.now.needs standing }
    {
        is_subset(self.needs, standing)
    }

    /// The standing after the step is done.
    pub fn result(&self, standing: Facts) -> Facts
        ensures { result ≡ result_of self.now standing }
    {
        difference(standing, self.takes) | self.gives
    }

    /// The step with these facts struck out.
    pub fn without(&self, gone: Facts) -> Step
        ensures { result ≡ step_without gone self.now }
    {
        Step {
            needs: difference(self.needs, gone),
            gives: difference(self.gives, gone),
            takes: difference(self.takes, gone),
        }
    }
}
