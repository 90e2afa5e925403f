//! Case files: each line asks one thing of a case and gets one report line.

#![tactic(auto)]

mod fault;
mod reading;
mod request;
mod serving;
mod texts;

pub use fault::{LineFault, ReadFault, ServeFault};
pub use reading::{MAX_TEXT, MIN_REPORT, Reading};
pub use serving::{Desk, Reply};
pub use texts::serve_text;
