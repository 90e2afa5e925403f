//! The decider that goes forward, from the standing on.

ghost use Rattle.rules.specs.Sets.{◌⊆◌};
ghost use Rattle.rules.specs.Listing.{progression};
ghost use Rattle.deciders.specs.Reaches.{ForwardReach};
ghost use Rattle.std.proofs.Common.{rules};

use crate::answer::{DeciderFault, Verdict};
use crate::decider::Decider;
use crate::row::Row;
use crate::search::{Direction, Search};
use crate::struck::StruckOut;
use rules::{Facts, Problem, Step, is_subset};

/// Lists the standings that can be reached.
///
/// A copy takes its memory along, 32 KiB.
#[derive(Clone, Copy, Default)]
pub struct Forward {
    search: Search,
}

/// Progression: an entry is a standing, a step that can be done leads on to its result, and a
/// standing with the order is a goal.
impl Direction for Forward {
    ghost successor_of = { progression };

    ghost start_of = { λ a. a.standing };

    ghost goal = { λ a s. a.order ⊆ s };

    fn start(struck: &StruckOut) -> Facts {
        struck.standing
    }

    fn successor(step: &Step, entry: Facts) -> Option<Facts> {
        if step.can_be_done(entry) {
            Some(step.result(entry))
        } else {
            None
        }
    }

    fn is_goal(struck: &StruckOut, entry: Facts) -> bool {
        is_subset(struck.order, entry)
    }
}

impl Decider for Forward {
    const MARK: u8 = b'F';

    ghost MARK = { 70 };

    ghost reach = { λ _ p x m b. ForwardReach p x m b };

    ghost within = { Prim.search rules };

    fn query(
        &mut self,
        problem: &Problem,
        strike: Facts,
        sheet: &mut [Row],
        book: &mut [u8],
    ) -> Result<Verdict, DeciderFault> {
        let verdict = self
            .search
            .answer::<Forward>(problem, strike, Self::MARK, sheet, book)?;
        match verdict {
            // the way is written from its end
            Verdict::Solvable(length) => book[..usize::from(length)].reverse(),
            Verdict::Blocked => {}
        }
        Ok(verdict)
    }
}
