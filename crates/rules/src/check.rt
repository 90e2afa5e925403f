//! What the plan check says, and its parts: a guard over the problem's own standing, and a step
//! done on it.

ghost use Rattle.std.specs.Prelude.{◌≡◌, None, MatchOption, slice_index_or};
ghost use Rattle.rules.specs.Planning.{place_without};
ghost use Rattle.rules.specs.Checking.{Undoable, Does};

use crate::facts::Facts;
use crate::problem::Standing;
use crate::table::StepTable;

/// What the plan check says of a list of places.
// Three answers, and no error among them; as a Result it would stand inside the Result of the
// case's refusals.
#[derive(Clone, Copy, PartialEq, Eq, Debug)]
pub enum PlanCheck {
    /// The places are a plan.
    IsPlan,
    /// The index of the first place that is above 63, empty or holds a step that can't be done.
    StopsAt(usize),
    /// All can be done, and these ordered facts are missing at the end.
    Missing(Facts),
}

/// Lends the standing to a walk, and puts it back however the walk ends.
pub(crate) struct StandingGuard<'a> {
    pub standing: &'a mut Standing,
    pub saved: Standing,
}

impl<'a> StandingGuard<'a> {
    /// Lends this standing, as it is now.
    pub(crate) fn hold(standing: &'a mut Standing) -> StandingGuard<'a>
        ensures loan { result.standing.ghost_name ≡ standing.entry.ghost_name }
        ensures lent { result.standing.now ≡ standing.old }
        ensures saved { result.saved ≡ standing.old }
    {
        let saved = *standing;
        StandingGuard { standing, saved }
    }
}

impl Drop for StandingGuard<'_> {
    fn drop(self)
        ensures { self.exit.0.now ≡ self.entry.saved }
    {
        *self.standing = self.saved;
        let StandingGuard {
            standing: _,
            saved: _,
        } = self;
    }
}

/// The standing after the step at a place, with the facts of `gone` struck out; none where it can't
/// be done.
pub(crate) fn do_step(
    table: &StepTable,
    place: u8,
    gone: Facts,
    standing: Standing,
) -> Option<Standing>
    ensures { let o = place_without gone (slice_index_or table.now place None) in
        MatchOption result (Undoable o standing.facts) (λ s. Does o standing.facts s.facts) }
{
    let step = table.get(place)?.without(gone);
    if !step.can_be_done(standing.facts) {
        return None;
    }
    let facts = step.result(standing.facts);
    Some(Standing { facts })
}
