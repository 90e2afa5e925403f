//! An index over the rows of a sheet, so that it costs little to ask whether a set is listed.

ghost use Rattle.std.specs.Prelude.{◌≡◌, ℕ, ◌+◌, ◌-◌, ◌^◌, ◌<◌, ◌≤◌, ◌↔◌, [], IsTrue, length, replicate, slice_index, slice_set};
ghost use Rattle.deciders.specs.Search.Chains.{hash_of, Indexed};

use crate::limits::MAX_ROWS;
use rules::Facts;

/// The most rows that a sheet may have, as a number that the index gives.
const ROWS: u32 = MAX_ROWS as u32;

/// For each hash a chain of the rows whose sets have it, the newest first. The row r has the number
/// `start + r`, and what is below `start`, as all that an earlier listing has left, stands for no
/// row.
// Fixed memory with no heap, a rule of the project; options for links would have to be cleared
#[derive(Clone, Copy)]
pub(crate) struct Index {
    heads: [u32; MAX_ROWS],
    links: [u32; MAX_ROWS],
    start: u32,
    ghost head_count: { length heads ≡ 4096 },
    ghost link_count: { length links ≡ 4096 },
    ghost room: { start + 4096 ≤ 2 ^ 32 },
    ghost below: { (h : ℕ) → slice_index heads h < start + 4096 },
}

impl Default for Index {
    ghost is_default = { λ i.
        (i.heads ≡ replicate 4096 0) × (i.links ≡ replicate 4096 0) × (i.start ≡ 0) };

    fn default() -> Index {
        Index {
            heads: [0; MAX_ROWS],
            links: [0; MAX_ROWS],
            start: 0,
        }
    }
}

/// The top 12 bits of the product with the golden ratio, which spread well.
#[tactic(auto, unfolding(crate::specs::Search::Chains::hash_of))]
fn hash(set: Facts) -> usize
    ensures is { result ≡ hash_of set }
    ensures fits { result < 4096 }
{
    (set.wrapping_mul(0x9E37_79B9) >> 20) as usize
}

impl Index {
    /// Forgets all rows. Nothing is cleared until no numbers are left, after a million listings.
    /// Which number the next row gets is free.
    pub(crate) fn clear(&mut self)
        ensures { Indexed self.new.start self.new.heads self.new.links [] }
    {
        if self.start > u32::MAX - 2 * ROWS {
            self.heads.fill(0);
            self.start = 0;
        }
        self.start += ROWS;
    }

    /// Whether a row has this number.
    // A test, and below a difference, since an option of the row costs each turn of the loop over a
    // chain.
    pub(crate) fn is_row(&self, number: u32) -> bool
        ensures { IsTrue result ↔ (self.now.start ≤ number) }
    {
        self.start <= number
    }

    /// The row with this number.
    pub(crate) fn row(&self, number: u32) -> usize
        requires { self.now.start ≤ number }
        ensures { result ≡ number - self.now.start }
    {
        (number - self.start) as usize
    }

    /// The number of the newest row with the hash of this set.
    pub(crate) fn first(&self, set: Facts) -> u32
        ensures { result ≡ slice_index self.now.heads (hash_of set) }
    {
        self.heads[hash(set)]
    }

    /// The number of the row before this one in its chain.
    pub(crate) fn next(&self, row: usize) -> u32
        requires { row < 4096 }
        ensures { result ≡ slice_index self.now.links row }
    {
        self.links[row]
    }

    /// Enters a new row with this set.
    pub(crate) fn enter(&mut self, row: usize, set: Facts)
        requires { row < 4096 }
        ensures start { self.new.start ≡ self.old.start }
        ensures heads { self.new.heads
            ≡ slice_set self.old.heads (hash_of set) (self.old.start + row) }
        ensures links { self.new.links
            ≡ slice_set self.old.links row (slice_index self.old.heads (hash_of set)) }
    {
        let head = &mut self.heads[hash(set)];
        self.links[row] = *head;
        *head = self.start + row as u32;
    }
}
