//! Case files and report lines, to the byte: digits, lines, frames and what a report line holds.

#![tactic(auto)]

mod digits;
mod frame;
mod kind;
mod lines;
mod numbers;
mod report;
mod theorems;

pub use digits::{digit, hex_pair};
pub use frame::{Frame, FrameFault, read_frame};
pub use kind::{Kind, UnknownKind};
pub use lines::next_line;
pub use report::{Added, Refused, write_accepted, write_found, write_refused};
pub use theorems::{
    lines_are_cut_one_way, lines_say_one_thing, written_bytes_read_back, written_frames_read_back,
    written_numbers_read_back,
};
