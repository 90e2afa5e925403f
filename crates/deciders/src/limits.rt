//! The size limits of a query.

ghost use Rattle.std.specs.Prelude.{◌≡◌};
ghost use Rattle.deciders.specs.Sizes.{size_number, size_layer, size_refusal};

use rules::Layer;

/// The most rows that a sheet may have.
pub const MAX_ROWS: usize = 4096;

/// The most places that a plan book may have.
pub const MAX_PLACES: usize = 4096;

/// Which of the two breaks a size limit. Where both do, it is the sheet.
#[derive(Clone, Copy, PartialEq, Eq, Debug)]
pub enum SizeFault {
    /// The sheet has no rows, or too many.
    Sheet,
    /// The plan book is shorter than the sheet, or has too many places.
    Book,
}

impl SizeFault {
    /// The fault's number in report lines.
    pub fn number(self) -> u8
        ensures { result ≡ size_number self }
    {
        match self {
            SizeFault::Sheet => 16,
            SizeFault::Book => 17,
        }
    }

    /// The layer that the fault comes from.
    pub fn layer(self) -> Layer
        ensures { result ≡ size_layer self }
    {
        match self {
            SizeFault::Sheet | SizeFault::Book => Layer::Finder,
        }
    }
}

/// Whether a sheet of so many rows and a plan book of so many places keep the limits, and if not,
/// which of the two.
pub fn check_sizes(rows: usize, places: usize) -> Result<(), SizeFault>
    ensures { result ≡ size_refusal rows places }
{
    if rows == 0 || rows > MAX_ROWS {
        return Err(SizeFault::Sheet);
    }
    if places < rows || places > MAX_PLACES {
        return Err(SizeFault::Book);
    }
    Ok(())
}
