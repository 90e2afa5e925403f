//! The rules: sets of facts, licence steps, planning problems, and the theorems that the finder
//! rests on.

#![tactic(auto)]

mod check;
mod facts;
mod layer;
mod problem;
mod refusal;
mod step;
mod table;
mod theorems;

pub use check::PlanCheck;
pub use facts::{Facts, difference, facts_below, is_subset, meets, single, size};
pub use layer::Layer;
pub use problem::{Problem, Standing};
pub use refusal::Refusal;
pub use step::Step;
pub use table::{PLACES, StepTable};
pub use theorems::{
    good_sets_meet_groups, listings_find_what_is_reached, more_never_blocks, plans_are_decided,
    sets_mean_their_facts, worked_examples_hold,
};
