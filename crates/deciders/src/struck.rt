//! A problem once facts are struck out.

ghost use Rattle.std.specs.Prelude.{◌≡◌};
ghost use Rattle.rules.specs.Planning.{Consistent};
ghost use Rattle.deciders.specs.Search.Struck.{remainder};

use arrayvec::ArrayVec;
use rules::{Facts, Problem, Step, difference};

/// A step that is left once facts are struck out, with its place.
#[derive(Clone, Copy, Default)]
pub(crate) struct Action {
    pub step: Step,
    pub place: u8,
}

/// What is left of a problem once facts are struck out: what stands, what is ordered, and the
/// steps, by rising place.
#[derive(Default, Drop)]
pub(crate) struct StruckOut {
    pub standing: Facts,
    pub order: Facts,
    pub actions: ArrayVec<Action, 64>,
}

impl StruckOut {
    /// Becomes the problem without the facts of `strike` and the waived ones.
    // Filled in its place, in the memory of a search; making it anew and moving it took 14 ns a
    // query.
    pub(crate) fn fill(&mut self, problem: &Problem, strike: Facts)
        ensures struck { self.new ≡ remainder problem.now strike }
        ensures consistent { Consistent problem.now }
    {
        let gone = strike | problem.waived;
        self.standing = difference(problem.standing.facts, gone);
        self.order = difference(problem.order, gone);
        self.actions.clear();
        for (place, content) in problem.table.places().iter().enumerate() {
            if let Some(step) = content {
                self.actions.push(Action {
                    step: step.without(gone),
                    place: place as u8,
                });
            }
        }
    }
}
