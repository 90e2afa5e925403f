//! Answers each line of the input, a list of sets as decimal numbers, by both pickers: the lowest
//! and the highest of the minimum hitting sets.

#![tactic(auto)]

use pickers::{BranchingPicker, CountingPicker, Picker};
use rules::Facts;
use std::alloc::{AllocError, Global};
use std::io;

/// The sets of a line; nothing where a word is no 32-bit number.
fn read_list(heap: Global, line: &str) -> Result<Option<Vec<Facts>>, AllocError> {
    // A loop, since try_collect wants one error for both a bad word and no memory.
    let mut groups = Vec::new(heap);
    for word in line.split_whitespace() {
        let Ok(group) = word.parse::<Facts>() else {
            return Ok(None);
        };
        groups.push(group)?;
    }
    Ok(Some(groups))
}

/// The answers of both pickers, as a line.
fn answers(heap: Global, groups: &[Facts]) -> Result<String, AllocError> {
    let counted = CountingPicker.pick(groups);
    let branched = BranchingPicker.pick(groups);
    match (counted, branched) {
        (Some(lowest), Some(highest)) => format!(in heap; "lowest {lowest}, highest {highest}"),
        (None, None) => format!(in heap; "nothing, nothing"),
        (Some(lowest), None) => format!(in heap; "lowest {lowest}, nothing"),
        (None, Some(highest)) => format!(in heap; "nothing, highest {highest}"),
    }
}

fn main(rt: HostRuntime) -> io::Result<()> {
    let heap = rt.alloc();
    for line in rt.lines(heap) {
        let line = line?;
        match read_list(heap, line.as_str())? {
            Some(groups) => rt.println(answers(heap, groups.as_slice())?)?,
            None => rt.println("not a list")?,
        }
    }
    Ok(())
}
