//! A second way to tell whether a small problem has a plan: mark standings until no more are
//! marked.

use rules::{Facts, Problem, difference, is_subset};

/// As many standings as six facts have.
pub const STANDINGS: usize = 64;

/// Marks the results of the steps that can be done in the standing `facts`.
fn mark_results(problem: &Problem, gone: Facts, facts: Facts, marked: &mut [bool; STANDINGS]) {
    for place in problem.table.places() {
        let step = place.map(|step| step.without(gone));
        let Some(step) = step.filter(|step| step.can_be_done(facts)) else {
            continue;
        };
        if let Some(mark) = marked.get_mut(step.result(facts) as usize) {
            *mark = true;
        }
    }
}

/// Goes once through the marked standings.
fn mark_once(problem: &Problem, gone: Facts, marked: &mut [bool; STANDINGS]) {
    let before = *marked;
    for (facts, is_marked) in before.iter().enumerate() {
        if *is_marked {
            mark_results(problem, gone, facts as Facts, marked);
        }
    }
}

/// How many standings of a problem of six facts can be reached, and whether the order stands in one
/// of them.
pub(crate) fn reachable(problem: &Problem, strike: Facts) -> (usize, bool) {
    let gone = strike | problem.waived;
    let order = difference(problem.order, gone);
    let start = difference(problem.standing.facts, gone) as usize;
    let mut marked = [false; STANDINGS];
    if let Some(mark) = marked.get_mut(start) {
        *mark = true;
    }
    for _ in 0..STANDINGS {
        let before = marked;
        mark_once(problem, gone, &mut marked);
        if marked == before {
            break;
        }
    }
    let reached = marked.iter().filter(|is_marked| **is_marked).count();
    let mut standings = (0..STANDINGS as Facts).zip(marked.iter());
    (
        reached,
        standings.any(|(facts, is_marked)| *is_marked && is_subset(order, facts)),
    )
}
