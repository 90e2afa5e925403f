//! The calls that only change what is planned over.

ghost use Rattle.std.specs.Prelude.{◌≡◌};
ghost use Rattle.rules.specs.Refusals.{unless_refused};
ghost use Rattle.waivers.specs.Changes.{names_refusal, refusal_of, task_after, fate_of};

use rules::{Facts, PLACES, Problem, Refusal, Step, difference, facts_below, is_subset, meets};

/// A change of what is planned over. Sets are sets of facts, and places are numbered from 0 to 63.
#[derive(Clone, Copy, PartialEq, Eq, Debug)]
pub enum Change {
    /// Adds a set to the standing.
    Grant(Facts),
    /// Removes a set from the standing.
    Lapse(Facts),
    /// Puts a step of these sets into an empty place.
    Put {
        place: u8,
        needs: Facts,
        gives: Facts,
        takes: Facts,
    },
    /// Empties a place that holds a step.
    Withdraw(u8),
    /// Does a step for good, if its needs outside the waived facts stand.
    Carry(u8),
    /// Adds a set to the order.
    Order(Facts),
    /// Removes a set from the order.
    Cancel(Facts),
}

/// What becomes of the listed groups.
#[derive(Clone, Copy, PartialEq, Eq, Debug)]
pub(crate) enum Fate {
    /// The list is emptied, since a listed set may be no group now.
    Emptied,
    /// All stay groups: what was blocked stays blocked.
    Kept,
    /// Each group loses these facts, which can't be waived now.
    Losing(Facts),
}

/// Refuses a set that names a fact at or above the number of facts.
pub(crate) fn check_names(problem: &Problem, set: Facts) -> Result<(), Refusal>
    ensures { result ≡ names_refusal problem.now «set» }
{
    if is_subset(set, facts_below(problem.n)) {
        Ok(())
    } else {
        Err(Refusal::UnknownFact)
    }
}

/// Adds facts to the standing.
fn grant(problem: &mut Problem, set: Facts) -> Result<(), Refusal>
    ensures answer { result ≡ refusal_of problem.old (Change.Grant «set») }
    ensures after { problem.new
        ≡ unless_refused result (task_after (Change.Grant «set»)) problem.old }
{
    check_names(problem, set)?;
    problem.standing.facts |= set;
    Ok(())
}

/// Removes facts from the standing.
fn lapse(problem: &mut Problem, set: Facts) -> Result<(), Refusal>
    ensures answer { result ≡ refusal_of problem.old (Change.Lapse «set») }
    ensures after { problem.new
        ≡ unless_refused result (task_after (Change.Lapse «set»)) problem.old }
{
    check_names(problem, set)?;
    problem.standing.facts = difference(problem.standing.facts, set);
    Ok(())
}

/// Puts a step into an empty place.
fn put(
    problem: &mut Problem,
    place: u8,
    needs: Facts,
    gives: Facts,
    takes: Facts,
) -> Result<(), Refusal>
    ensures answer { result ≡ refusal_of problem.old (Change.Put place needs gives takes) }
    ensures after { problem.new
        ≡ unless_refused result (task_after (Change.Put place needs gives takes)) problem.old }
{
    check_names(problem, needs | gives | takes)?;
    let step = Step::new(needs, gives, takes)?;
    problem.table.put(place, step)
}

/// Empties a place.
fn withdraw(problem: &mut Problem, place: u8) -> Result<(), Refusal>
    ensures answer { result ≡ refusal_of problem.old (Change.Withdraw place) }
    ensures after { problem.new
        ≡ unless_refused result (task_after (Change.Withdraw place)) problem.old }
{
    problem.table.clear(place)
}

/// Does a step for good.
fn carry(problem: &mut Problem, place: u8) -> Result<(), Refusal>
    ensures answer { result ≡ refusal_of problem.old (Change.Carry place) }
    ensures after { problem.new
        ≡ unless_refused result (task_after (Change.Carry place)) problem.old }
{
    if place >= PLACES {
        return Err(Refusal::NoSuchPlace);
    }
    let Some(step) = problem.table.get(place) else {
        return Err(Refusal::PlaceEmpty);
    };
    let standing = problem.standing.facts;
    if !is_subset(difference(step.needs, problem.waived), standing) {
        return Err(Refusal::NeedMissing);
    }
    problem.standing.facts = step.result(standing);
    Ok(())
}

/// Adds facts to the order.
fn order(problem: &mut Problem, set: Facts) -> Result<(), Refusal>
    ensures answer { result ≡ refusal_of problem.old (Change.Order «set») }
    ensures after { problem.new
        ≡ unless_refused result (task_after (Change.Order «set»)) problem.old }
{
    check_names(problem, set)?;
    if meets(set, problem.waived) {
        return Err(Refusal::WaivedFact);
    }
    problem.order |= set;
    Ok(())
}

/// Removes facts from the order.
fn cancel(problem: &mut Problem, set: Facts) -> Result<(), Refusal>
    ensures answer { result ≡ refusal_of problem.old (Change.Cancel «set») }
    ensures after { problem.new
        ≡ unless_refused result (task_after (Change.Cancel «set»)) problem.old }
{
    check_names(problem, set)?;
    problem.order = difference(problem.order, set);
    Ok(())
}

impl Change {
    /// Makes the change of a problem, or refuses it.
    pub(crate) fn make(self, problem: &mut Problem) -> Result<(), Refusal>
        ensures answer { result ≡ refusal_of problem.old self }
        ensures after { problem.new ≡ unless_refused result (task_after self) problem.old }
    {
        match self {
            Change::Grant(set) => grant(problem, set),
            Change::Lapse(set) => lapse(problem, set),
            Change::Put {
                place,
                needs,
                gives,
                takes,
            } => put(problem, place, needs, gives, takes),
            Change::Withdraw(place) => withdraw(problem, place),
            Change::Carry(place) => carry(problem, place),
            Change::Order(set) => order(problem, set),
            Change::Cancel(set) => cancel(problem, set),
        }
    }

    /// What becomes of the listed groups once the change is made.
    pub(crate) fn fate(self) -> Fate
        ensures { result ≡ fate_of self }
    {
        match self {
            Change::Grant(_) => Fate::Emptied,
            Change::Lapse(_) => Fate::Kept,
            Change::Put { .. } => Fate::Emptied,
            Change::Withdraw(_) => Fate::Kept,
            Change::Carry(_) => Fate::Kept,
            Change::Order(set) => Fate::Losing(set),
            Change::Cancel(_) => Fate::Emptied,
        }
    }
}
