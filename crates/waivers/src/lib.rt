//! Smallest waivers: a problem with the groups that are known of it, and the search for a smallest
//! good set.

#![tactic(auto)]

mod change;
mod examples;
mod fault;
mod good_set;
mod known;
mod lose;
mod solvables;
mod wipe;

pub use change::Change;
pub use examples::all_worked_examples_hold;
pub use fault::FinderFault;
pub use good_set::GoodSet;
pub use known::{KnownGroups, MAX_GROUPS};
