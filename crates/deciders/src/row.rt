//! The rows of a working sheet.

use rules::Facts;

/// A row of a working sheet: a set, the number of the row that it came from, and the place of the
/// step that made it.
// The parent as a number, also of the first row: the form of a row is a rule of the project.
#[derive(Clone, Copy, PartialEq, Eq, Default, Debug)]
pub struct Row {
    pub set: Facts,
    pub parent: u16,
    pub place: u8,
}
