//! The decider that goes backward, from the order on.

ghost use Rattle.rules.specs.Sets.{◌⊆◌};
ghost use Rattle.deciders.specs.Reaches.{regression, BackwardReach};
ghost use Rattle.std.proofs.Common.{rules};

use crate::answer::{DeciderFault, Verdict};
use crate::decider::Decider;
use crate::row::Row;
use crate::search::{Direction, Search};
use crate::struck::StruckOut;
use rules::{Facts, Problem, Step, difference, is_subset, meets};

/// Lists the sets from which the order can be reached.
///
/// A copy takes its memory along, 32 KiB.
#[derive(Clone, Copy, Default)]
pub struct Backward {
    search: Search,
}

/// Regression: an entry is a subgoal, a step that gives a fact of it and takes none leads back to
/// what it needs, and an entry that stands is a goal.
impl Direction for Backward {
    ghost successor_of = { regression };

    ghost start_of = { λ a. a.order };

    ghost goal = { λ a w. w ⊆ a.standing };

    fn start(struck: &StruckOut) -> Facts {
        struck.order
    }

    fn successor(step: &Step, entry: Facts) -> Option<Facts> {
        if meets(step.gives, entry) && !meets(step.takes, entry) {
            Some(difference(entry, step.gives) | step.needs)
        } else {
            None
        }
    }

    fn is_goal(struck: &StruckOut, entry: Facts) -> bool {
        is_subset(entry, struck.standing)
    }
}

impl Decider for Backward {
    const MARK: u8 = b'B';

    ghost MARK = { 66 };

    ghost reach = { λ _ p x m b. BackwardReach p x m b };

    ghost within = { Prim.search rules };

    fn query(
        &mut self,
        problem: &Problem,
        strike: Facts,
        sheet: &mut [Row],
        book: &mut [u8],
    ) -> Result<Verdict, DeciderFault> {
        // the way is written from its end, a set that stands, and so it leads from there to the
        // order
        self.search
            .answer::<Backward>(problem, strike, Self::MARK, sheet, book)
    }
}
