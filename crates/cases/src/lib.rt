//! The case: its calls, the plan check, slips, and lists of calls.

#![tactic(auto)]

mod call;
mod case;
mod running;
mod slip;
mod theorems;

pub use call::{Answer, Call};
pub use case::Case;
pub use running::{Outcome, run};
pub use slip::{Slip, SlipData};
pub use theorems::{calls_keep_the_law, next_call_keeps_the_law, slips_stay_as_drawn};
