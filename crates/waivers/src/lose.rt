//! Taking facts out of every group of a list.

ghost use Rattle.std.specs.Prelude.{◌≡◌, ℕ, ◌≤◌, length, vec_len, vec_capacity};
ghost use Rattle.waivers.specs.Changes.{groups_without};

use crate::known::MAX_GROUPS;
use arrayvec::ArrayVec;
use rules::{Facts, difference};

/// The groups without the facts of `set`; one that equals an earlier one then is left out.
fn without(groups: &[Facts], set: Facts) -> ArrayVec<Facts, MAX_GROUPS>
    requires { length groups.now ≤ 64 }
    ensures { result.items ≡ groups_without set groups.now }
{
    let mut left = ArrayVec::new();
    for group in groups {
        let group = difference(*group, set);
        if !left.contains(&group) {
            left.push(group);
        }
    }
    left
}

/// Takes the facts of `set` out of each group; a group that equals an earlier one then is left out.
pub(crate) fn lose(groups: &mut Vec<Facts>, set: Facts)
    requires { vec_len groups.old ≤ 64 }
    ensures items { groups.new.items ≡ groups_without set groups.old.items }
    ensures room { vec_capacity groups.new ≡ vec_capacity groups.old }
{
    if groups.is_empty() {
        return; // no list to make
    }
    let left = without(groups, set);
    groups.truncate(left.len());
    groups.copy_from_slice(&left);
}
