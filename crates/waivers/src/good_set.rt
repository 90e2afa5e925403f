//! What a find answers.

use rules::Facts;

/// A good set, and the length of its plan in places of the plan book.
#[derive(Clone, Copy, PartialEq, Eq, Default, Debug)]
pub struct GoodSet {
    pub set: Facts,
    pub length: u16,
}
