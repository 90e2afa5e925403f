//! What a decider is asked.

use rules::{Facts, Problem, difference, is_subset};
use std::fmt;

/// A problem, what is struck out of it, and how many rows and places the sheet and the plan book
/// have.
#[derive(Clone, Copy)]
pub struct Query<'a> {
    pub problem: &'a Problem,
    pub strike: Facts,
    pub rows: usize,
    pub places: usize,
}

impl Query<'_> {
    /// A query with nothing struck out, on a sheet and a book of these sizes.
    pub(crate) fn whole(problem: &Problem, rows: usize, places: usize) -> Query<'_> {
        Query {
            problem,
            strike: 0,
            rows,
            places,
        }
    }

    /// Whether the first places of the book are a plan of this length, shorter than the sheet.
    pub(crate) fn is_plan(&self, length: u16, book: &[u8]) -> bool {
        let k = usize::from(length);
        let plan = book.get(..k).filter(|_| k < self.rows);
        plan.is_some_and(|plan| walks(self.problem, self.strike, plan))
    }
}

impl fmt::Display for Query<'_> {
    fn fmt<W: fmt::Write>(&self, f: &mut fmt::Formatter<W>) -> fmt::Result {
        let Query {
            problem: _,
            strike,
            rows,
            places,
        } = *self;
        write!(f, "without {strike}, {rows} rows, {places} places")
    }
}

/// Whether the places of `plan` can be done in turn and the order then stands, with the facts of
/// `strike` struck out.
fn walks(problem: &Problem, strike: Facts, plan: &[u8]) -> bool {
    let gone = strike | problem.waived;
    let mut facts = difference(problem.standing.facts, gone);
    for place in plan {
        let Some(step) = problem.table.get(*place) else {
            return false;
        };
        let step = step.without(gone);
        if !step.can_be_done(facts) {
            return false;
        }
        facts = step.result(facts);
    }
    is_subset(difference(problem.order, gone), facts)
}
