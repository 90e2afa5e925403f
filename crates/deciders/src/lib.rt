//! Deciders: whether a struck-out problem has a plan, answered exactly within a stated reach.

#![tactic(auto)]

mod answer;
mod backward;
mod closure;
mod decider;
mod forward;
mod index;
mod limits;
mod listing;
mod row;
mod screen;
mod search;
mod struck;
mod theorems;

pub use answer::{DeciderFault, Verdict};
pub use backward::Backward;
pub use decider::Decider;
pub use forward::Forward;
pub use limits::{MAX_PLACES, MAX_ROWS, SizeFault, check_sizes};
pub use row::Row;
pub use screen::Screen;
pub use theorems::{
    backward_finds_what_leads_to_the_order, faults_are_equal_by_set_and_mark,
    screens_block_only_what_is_blocked,
};
