//! What is wiped on the working sheet and in the plan book.

ghost use Rattle.std.specs.Prelude.{◌≡◌, ◌≤◌, length};
ghost use Rattle.waivers.specs.Wiping.{zero_rows, wiped_book};

use deciders::Row;

/// What stands in a place of the plan book past the plan.
// A byte a place, so no Option: a rule of the project.
const NO_PLACE: u8 = 255;

/// Sets every row to zero.
pub(crate) fn wipe_sheet(sheet: &mut [Row])
    ensures { sheet.new ≡ zero_rows (length sheet.old) }
{
    sheet.fill(Row::default());
}

/// Marks the places from `from` on as empty.
pub(crate) fn wipe_book(book: &mut [u8], from: usize)
    requires { from ≤ length book.old }
    ensures { book.new ≡ wiped_book from book.old }
{
    book[from..].fill(NO_PLACE);
}
