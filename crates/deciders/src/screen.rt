//! The screen, over any decider.

ghost use Rattle.std.specs.Prelude.{◌≡◌, ◌↔◌, IsTrue};
ghost use Rattle.rules.specs.Planning.{strike as strike_out};
ghost use Rattle.deciders.specs.Reaches.{ScreenedOut, ScreenReach};
ghost use Rattle.std.proofs.Common.{rules};

use crate::answer::{DeciderFault, Verdict};
use crate::closure::closure_has;
use crate::decider::Decider;
use crate::limits::check_sizes;
use crate::row::Row;
use rules::{Facts, Problem};

/// Whether the order cannot stand even if no step takes anything, with the facts of `strike` struck
/// out.
///
/// No step is struck out for it: what is gone stands all along, so that no step waits for it.
fn is_screened_out(problem: &Problem, strike: Facts) -> bool
    ensures { IsTrue result ↔ ScreenedOut (strike_out problem.now strike) }
{
    let gone = strike | problem.waived;
    let all = problem.standing.facts | gone;
    !closure_has(problem.table.places(), all, problem.order)
}

/// Blocks what is blocked even if no step takes anything, and asks the decider below it for the
/// rest.
#[derive(Default, Drop)]
pub struct Screen<D> {
    pub below: D,
}

impl<D: Decider> Decider for Screen<D> {
    const MARK: u8 = D::MARK;

    ghost MARK = { D.MARK };

    ghost reach = { λ s p x m b. ScreenReach (D.Decider.reach s.below) p x m b };

    ghost within = { Prim.search rules };

    fn query(
        &mut self,
        problem: &Problem,
        strike: Facts,
        sheet: &mut [Row],
        book: &mut [u8],
    ) -> Result<Verdict, DeciderFault> {
        if check_sizes(sheet.len(), book.len()).is_ok() && is_screened_out(problem, strike) {
            return Ok(Verdict::Blocked);
        }
        self.below.query(problem, strike, sheet, book)
    }
}
