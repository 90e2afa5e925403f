//! The part of a case that is planned over.

ghost use Rattle.std.specs.Prelude.{◌≡◌};
ghost use Rattle.rules.specs.Planning.{strike as strike_out};
ghost use Rattle.rules.specs.Checking.{Checks, ChecksOnce};

use crate::check::{PlanCheck, StandingGuard, do_step};
use crate::facts::{Facts, difference};
use crate::table::StepTable;
use std::marker::Model;

/// The facts that hold now.
#[derive(Clone, Copy, PartialEq, Eq, Debug)]
pub struct Standing {
    pub facts: Facts,
}

/// A planning problem: facts numbered from 0 to below `n`, what stands, what is ordered, what is
/// waived, and the steps.
#[derive(Drop)]
pub struct Problem {
    pub n: u8,
    pub standing: Standing,
    pub order: Facts,
    pub waived: Facts,
    pub table: StepTable,
}

impl Model for Problem {
    ghost use Rattle.rules.specs.Planning.{Task};

    ghost Value = { Task };

    ghost view = { λ p. record {
      n = p.n;
      standing = p.standing.facts;
      order = p.order;
      waived = p.waived;
      steps = p.table;
    } };
}

impl Problem {
    /// Whether the places are a plan with the facts of `strike` struck out, and if not, why.
    pub fn check_plan(&mut self, strike: Facts, places: &[u8]) -> PlanCheck
        ensures says { Checks (strike_out self.old strike) places.now result }
        ensures same { self.new ≡ self.old }
        ensures once { ChecksOnce }
    {
        let gone = strike | self.waived;
        let order = difference(self.order, gone);
        let table = &self.table;
        let walk = StandingGuard::hold(&mut self.standing);
        walk.standing.facts = difference(walk.saved.facts, gone);
        for (i, place) in places.iter().enumerate() {
            let Some(next) = do_step(table, *place, gone, *walk.standing) else {
                return PlanCheck::StopsAt(i);
            };
            *walk.standing = next;
        }
        let missing = difference(order, walk.standing.facts);
        if missing == 0 {
            PlanCheck::IsPlan
        } else {
            PlanCheck::Missing(missing)
        }
    }
}
