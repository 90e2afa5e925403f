//! How often calls of each name were accepted, and how often they met each refusal.

use std::io;

/// The names of the calls.
const NAMES: [&str; 12] = [
    "open", "grant", "lapse", "put", "withdraw", "carry", "order", "cancel", "find", "draw",
    "sign", "tear",
];

/// For each name a counter of each refusal, by its number; 0 counts what was accepted.
#[derive(Clone, Copy)]
pub struct Tally {
    counts: [[u32; 23]; 12],
}

impl Tally {
    /// Nothing is counted yet.
    pub(crate) fn new() -> Tally {
        Tally {
            counts: [[0; 23]; 12],
        }
    }

    /// Counts an answer to a call of this name: a refusal's number, or 0.
    pub(crate) fn count(&mut self, name: &str, number: u8) {
        for (counts, known) in self.counts.iter_mut().zip(NAMES) {
            if known == name {
                if let Some(count) = counts.get_mut(usize::from(number)) {
                    *count = count.saturating_add(1);
                }
            }
        }
    }

    /// Prints a line for each count above 0.
    pub(crate) fn print(&self, rt: &HostRuntime) -> io::Result<()> {
        for (counts, name) in self.counts.iter().zip(NAMES) {
            print_counts(rt, name, counts)?;
        }
        Ok(())
    }
}

/// Prints the counts of the calls of one name.
fn print_counts(rt: &HostRuntime, name: &str, counts: &[u32; 23]) -> io::Result<()> {
    for (number, count) in counts.iter().enumerate() {
        match (number, count) {
            (_, 0) => {}
            (0, _) => println!(rt; "{name}: {count} accepted")?,
            _ => println!(rt; "{name}: {count} refused with {number}")?,
        }
    }
    Ok(())
}
