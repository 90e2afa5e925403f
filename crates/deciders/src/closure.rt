//! The closure of a standing under steps, takes ignored.

ghost use Rattle.std.specs.Prelude.{ℕ, ◌≡◌, ◌≤◌, ◌↔◌, IsTrue, Some, map, length};
ghost use Rattle.rules.specs.Sets.{◌⊆◌};
ghost use Rattle.deciders.specs.Closures.{Closure, Round, filled};

use arrayvec::ArrayVec;
use rules::{Facts, Step, is_subset};

/// The steps at these places.
fn steps_at(places: &[Option<Step>]) -> ArrayVec<Step, 64>
    requires { length places.now ≤ 64 }
    ensures { map Some result.items ≡ filled places.now }
{
    let mut steps = ArrayVec::new();
    for place in places {
        if let Some(step) = place {
            steps.push(*step);
        }
    }
    steps
}

/// One round: each step in turn whose needs are there adds its gives.
fn round(steps: &[Step], facts: Facts) -> Facts
    ensures { Round (map Some steps.now) (length steps.now) facts result }
{
    let mut all = facts;
    for step in steps {
        if step.can_be_done(all) {
            all |= step.gives;
        }
    }
    all
}

/// Whether the facts are in the closure of the standing under these steps: round after round, until
/// they are there or nothing is added.
fn rounds_reach(steps: &[Step], standing: Facts, facts: Facts) -> bool
    ensures { IsTrue result ↔ ((c : ℕ) × Closure (map Some steps.now) standing c × (facts ⊆ c)) }
{
    let mut all = standing;
    while !is_subset(facts, all) {
        let more = round(steps, all);
        if more == all {
            return false;
        }
        all = more;
    }
    true
}

/// Whether the facts are in the closure of the standing under the steps at these places.
// The places are gone over once, since rounds may be many and steps few.
pub(crate) fn closure_has(places: &[Option<Step>], standing: Facts, facts: Facts) -> bool
    requires { length places.now ≤ 64 }
    ensures { IsTrue result ↔ ((c : ℕ) × Closure places.now standing c × (facts ⊆ c)) }
{
    is_subset(facts, standing) || rounds_reach(&steps_at(places), standing, facts)
}
