//! A case of which find lists 64 groups and more would be wanted.

use crate::making::{find, open, put};
use cases::Call;
use rules::size;
use std::alloc::{AllocError, Global};

/// Each five of the facts 0 to 7 are the needs of a step that gives the ordered fact 8, and none of
/// them stands.
///
/// So the good sets are those with five of the eight. All 70 sets of four are groups, and as long
/// as one of them isn't listed, the four other facts are a smallest set that is blocked.
pub(crate) fn full_list(heap: Global) -> Result<Vec<Call>, AllocError> {
    let mut calls = Vec::new(heap);
    calls.push(open(9, 9, 0, 1 << 8))?;
    let fives = (0..256u32).filter(|set| size(*set) == 5);
    for (place, needs) in (0..64u8).zip(fives) {
        calls.push(put(place, needs, 1 << 8, 0))?;
    }
    calls.push(find(heap, 64, 64)?)?;
    calls.push(Call::Draw)?;
    calls.push(find(heap, 64, 64)?)?;
    Ok(calls)
}
