//! A search: it lists entries on a sheet, expands each entry in turn, and stops at a goal.

ghost use Rattle.std.specs.Prelude.{◌≡◌, ◌↔◌, ℕ, ◌<◌, IsTrue, length, IfOk};
ghost use Rattle.rules.specs.Planning.{strike as strike_out, Consistent};
ghost use Rattle.rules.specs.Listing.{Successor};
ghost use Rattle.deciders.specs.declared.struck.StruckOut.{StruckOut as Struck};
ghost use Rattle.deciders.specs.Search.Rows.{row as row_of, entries, Sound};
ghost use Rattle.deciders.specs.Search.Struck.{remainder};
ghost use Rattle.deciders.specs.Search.Searches.{ByAction, NoGoal, Expands, Lists, SearchAnswers};

use crate::answer::{DeciderFault, Verdict};
use crate::index::Index;
use crate::limits::{MAX_ROWS, check_sizes};
use crate::listing::{Listing, Unsettled};
use crate::row::Row;
use crate::struck::StruckOut;
use rules::{Facts, Problem, Step};

/// A direction of search: where it starts, what a step makes of an entry, and which entries are
/// goals.
pub(crate) trait Direction {
    // what a step makes of an entry
    ghost successor_of: { Successor };

    // the entry to start from
    ghost start_of: { Struck → ℕ };

    // the entry is a goal
    ghost goal: { Struck → ℕ → Type 0 };

    /// The entry to start from.
    fn start(struck: &StruckOut) -> Facts
        ensures { result ≡ start_of struck.now };

    /// What a step makes of an entry, if anything.
    fn successor(step: &Step, entry: Facts) -> Option<Facts>
        ensures { result ≡ successor_of step.now entry };

    /// Whether the search may end with this entry.
    fn is_goal(struck: &StruckOut, entry: Facts) -> bool
        ensures { IsTrue result ↔ goal struck.now entry };
}

impl<'a> Listing<'a> {
    /// Lists what the actions make of the entry `at`, and says which of the new rows is a goal, if
    /// one is.
    fn expand<D: Direction>(
        &mut self,
        struck: &StruckOut,
        at: usize,
        entry: Facts,
    ) -> Result<Option<usize>, Unsettled>
        requires here { (at < self.old.count) × ((row_of self.old.rows.now at).set ≡ entry) }
        requires sound { Sound (ByAction D.successor_of struck.now.actions.items)
            (row_of self.old.rows.now 0).set self.old.rows.now self.old.count }
        requires no_goal { NoGoal (D.goal struck.now) self.old.rows.now self.old.count }
        ensures expands { Expands D.successor_of (D.goal struck.now) struck.now.actions.items
            (row_of self.old.rows.now 0).set entry (entries self.old.rows.now self.old.count)
            (length self.old.rows.now) self.new.rows.now self.new.count result }
        ensures loan { self.new.index.ghost_name ≡ self.old.index.ghost_name }
    {
        for action in struck.actions.as_slice() {
            if let Some(made) = D::successor(&action.step, entry) {
                if !self.has(made) {
                    let row = self.add(Row {
                        set: made,
                        parent: at as u16,
                        place: action.place,
                    })?;
                    if D::is_goal(struck, made) {
                        return Ok(Some(row));
                    }
                }
            }
        }
        Ok(None)
    }

    /// Lists entries until one is a goal, and says its row, or none is left to expand.
    fn list<D: Direction>(&mut self, struck: &StruckOut) -> Result<Option<usize>, Unsettled>
        requires none { self.old.count ≡ 0 }
        requires some { 0 < length self.old.rows.now }
        ensures lists { Lists D.successor_of (D.goal struck.now) struck.now.actions.items
            (D.start_of struck.now) (length self.old.rows.now)
            self.new.rows.now self.new.count result }
        ensures loan { self.new.index.ghost_name ≡ self.old.index.ghost_name }
    {
        let start = D::start(struck);
        self.add(Row {
            set: start,
            ..Row::default()
        })?;
        if D::is_goal(struck, start) {
            return Ok(Some(0));
        }
        for at in 0..MAX_ROWS {
            let Some(entry) = self.get(at) else {
                break;
            };
            if let Some(row) = self.expand::<D>(struck, at, entry)? {
                return Ok(Some(row));
            }
        }
        Ok(None)
    }
}

/// A search with its memory, which is kept from query to query, so that none has to make it anew.
#[derive(Clone, Copy, Default)]
pub(crate) struct Search {
    index: Index,
}

impl Search {
    /// Answers by a search for a way from the start of a direction to a goal, with the facts of
    /// `strike` struck out. Writes the places of the way, the last first, to the front of the book.
    pub(crate) fn answer<D: Direction>(
        &mut self,
        problem: &Problem,
        strike: Facts,
        mark: u8,
        sheet: &mut [Row],
        book: &mut [u8],
    ) -> Result<Verdict, DeciderFault>
        ensures answers { let q = remainder problem.now strike in
            SearchAnswers D.successor_of (D.goal q) (strike_out problem.now strike).steps
            (D.start_of q) strike mark (length sheet.old) book.old book.new result }
        ensures consistent { IfOk result (λ _. Consistent problem.now) }
    {
        let fault = DeciderFault::BeyondReach { set: strike, mark };
        if check_sizes(sheet.len(), book.len()).is_err() {
            return Err(fault);
        }
        let mut struck = StruckOut::default();
        struck.fill(problem, strike);
        let mut listing = Listing::new(sheet, &mut self.index);
        match listing.list::<D>(&struck) {
            Ok(Some(row)) => Ok(Verdict::Solvable(listing.climb(row, book) as u16)),
            Ok(None) => Ok(Verdict::Blocked),
            Err(Unsettled) => Err(fault),
        }
    }
}
