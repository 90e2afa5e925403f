//! A listing of entries on the rows of a sheet.

ghost use Rattle.std.specs.Prelude.{◌≡◌, ℕ, ◌+◌, ◌<◌, ◌≤◌, [], length, take, drop, IfSome, IfNone, IfOk, OnErr, slice_set};
ghost use Rattle.std.proofs.Props.{props};
ghost use Rattle.rules.specs.Listing.{is_listed};
ghost use Rattle.deciders.specs.Search.Rows.{row as row_of, entries, Climbs};
ghost use Rattle.deciders.specs.Search.Chains.{Indexed};

use crate::index::Index;
use crate::row::Row;
use rules::Facts;

/// Why a search has no answer: its sheet or its book breaks the limits, or an entry found no free
/// row.
#[derive(Clone, Copy, Debug)]
pub(crate) struct Unsettled;

/// The entries on the first rows of a sheet, with an index over them, so that it costs little to
/// ask whether a set is listed.
// Rows and how many are filled, since the sheet is a slice of the caller's, a rule of the project.
#[derive(Drop)]
pub(crate) struct Listing<'a> {
    rows: &'a mut [Row],
    count: usize,
    index: &'a mut Index,
    ghost fits: { count ≤ length rows.now },
    ghost small: { length rows.now ≤ 4096 },
    ghost indexed: { let i = index.now in
        Indexed i.start i.heads i.links (entries rows.now count) } by { Prim.hlevel props },
}

impl<'a> Listing<'a> {
    /// A listing of no entries on these rows. What the index held is forgotten.
    // `loan`, here and below: the index is still the one that was lent
    pub(crate) fn new(rows: &'a mut [Row], index: &'a mut Index) -> Listing<'a>
        requires { length rows.old ≤ 4096 }
        ensures rows { result.rows.now ≡ rows.old }
        ensures loan { result.index.ghost_name ≡ index.entry.ghost_name }
        ensures none { result.count ≡ 0 }
    {
        index.clear();
        Listing {
            rows,
            count: 0,
            index,
        }
    }

    /// The entry on the row `at`, if it is filled.
    pub(crate) fn get(&self, at: usize) -> Option<Facts>
        ensures filled { IfSome result (λ s. (row_of self.now.rows.now at).set ≡ s) }
        ensures within { IfSome result (λ _. at < self.now.count) }
        ensures free { IfNone result (self.now.count ≤ at) }
    {
        (at < self.count).then(|| self.rows[at].set)
    }

    /// Whether the set is listed.
    pub(crate) fn has(&self, entry: Facts) -> bool
        ensures { result ≡ is_listed entry (entries self.now.rows.now self.now.count) }
    {
        let mut number = self.index.first(entry);
        while self.index.is_row(number) {
            let row = self.index.row(number);
            if self.rows[row].set == entry {
                return true;
            }
            number = self.index.next(row);
        }
        false
    }

    /// Lists the set of `row` on the first free row, and says which row that is.
    pub(crate) fn add(&mut self, row: Row) -> Result<usize, Unsettled>
        ensures number { IfOk result (λ n. (n ≡ self.old.count) × (n < length self.old.rows.now)) }
        ensures rows { IfOk result (λ n. self.new.rows.now ≡ slice_set self.old.rows.now n row) }
        ensures count { IfOk result (λ n. self.new.count ≡ n + 1) }
        ensures full { OnErr result (self.old.count ≡ length self.old.rows.now) }
        ensures same { OnErr result (self.new ≡ self.old) }
        ensures loan { self.new.index.ghost_name ≡ self.old.index.ghost_name }
    {
        let n = self.count;
        if n == self.rows.len() {
            return Err(Unsettled);
        }
        self.rows[n] = row;
        self.index.enter(n, row.set);
        self.count = n + 1;
        Ok(n)
    }

    /// Writes the places from the row `from` up to the first row to the front of the book, and says
    /// how many there are.
    pub(crate) fn climb(&self, from: usize, book: &mut [u8]) -> usize
        requires fits { (from < self.now.count) × (from < length book.old) }
        requires back { (i : ℕ) → 0 < i → i ≤ from → (row_of self.now.rows.now i).parent < i }
        ensures few { result ≤ from }
        ensures climbs { Climbs self.now.rows.now from (take result book.new) 0 }
        ensures rest { drop result book.new ≡ drop result book.old }
    {
        let mut row = from;
        for (count, place) in book.iter_mut().enumerate() {
            if row == 0 {
                return count;
            }
            *place = self.rows[row].place;
            row = usize::from(self.rows[row].parent);
        }
        book.len()
    }
}
