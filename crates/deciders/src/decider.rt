//! What a decider is.

ghost use Rattle.std.specs.Prelude.{◌≡◌, ℕ, length};
ghost use Rattle.rules.specs.Planning.{Task};
ghost use Rattle.deciders.specs.Sizes.{WithinLimits};
ghost use Rattle.deciders.specs.Answers.{Answers};
ghost use Rattle.deciders.specs.Reaching.{SameReach};

use crate::answer::{DeciderFault, Verdict};
use crate::row::Row;
use rules::{Facts, Problem};

/// Answers whether a struck-out problem has a plan, on the caller's working sheet and plan book.
///
/// Inside its reach a decider says solvable, with a plan in the first places of the book, if there
/// is a plan, else blocked. Outside it says beyond reach.
pub trait Decider {
    /// The mark of the decider's kind, which a fault carries.
    const MARK: u8;

    // the mark, for clauses
    ghost MARK: { ℕ };

    // reach d p x m b: with m rows and b places in the book, the decider d settles the task p
    // without the facts of x
    ghost reach: { Self → Task → ℕ → ℕ → ℕ → Type 0 };

    /// Whether the problem has a plan without the facts of `strike`. What the rows hold
    /// afterwards is not said.
    // Sheet and book are two slices of the caller's, each of its own size: a rule of the project.
    fn query(
        &mut self,
        problem: &Problem,
        strike: Facts,
        sheet: &mut [Row],
        book: &mut [u8],
    ) -> Result<Verdict, DeciderFault>
        ensures answer { let m = length sheet.old in
            Answers (reach self.old problem.now strike m (length book.old)) MARK
            problem.now strike m book.old book.new result }
        ensures same { SameReach (reach self.new) (reach self.old) };

    // what breaks a size limit is outside every reach
    ghost within: { (d : Self) (p : Task) (x m b : ℕ) → reach d p x m b → WithinLimits m b };
}
