//! The problems that the deciders are run on.

use rules::{Problem, Refusal, Standing, Step, StepTable};

/// Nothing stands, three steps freely give fact 0, 1 or 2, and fact 3 is ordered and never given.
pub(crate) fn free_facts() -> Result<Problem, Refusal> {
    let mut table = StepTable::new();
    for fact in 0..3u8 {
        table.put(fact, Step::new(0, 1 << fact, 0)?)?;
    }
    Ok(Problem {
        n: 4,
        standing: Standing { facts: 0 },
        order: 8,
        waived: 0,
        table,
    })
}

/// Fact 1 stands and fact 3 is ordered. Step 0 needs 1 and 2, gives 3 and takes 1; step 1 needs 0
/// and gives 2.
pub(crate) fn licence() -> Result<Problem, Refusal> {
    let mut table = StepTable::new();
    table.put(0, Step::new(0b0110, 0b1000, 0b0010)?)?;
    table.put(1, Step::new(0b0001, 0b0100, 0)?)?;
    Ok(Problem {
        n: 4,
        standing: Standing { facts: 0b0010 },
        order: 0b1000,
        waived: 0,
        table,
    })
}

/// A binary counter of nine digits: fact `i` is the digit 1 at `i`, and fact `9 + i` the digit 0.
/// It counts from 0 up to 511.
pub(crate) fn counter() -> Result<Problem, Refusal> {
    let mut table = StepTable::new();
    for i in 0..9u8 {
        let digit = 1u32 << i;
        let lower = digit - 1;
        table.put(
            i,
            Step::new(
                (digit << 9) | lower,
                digit | (lower << 9),
                (digit << 9) | lower,
            )?,
        )?;
    }
    Ok(Problem {
        n: 18,
        standing: Standing { facts: 0x1ff << 9 },
        order: 0x1ff,
        waived: 0,
        table,
    })
}

/// Twelve facts that are switched on and off freely, and two more: with fact 12, which nothing
/// gives, one gets the ordered fact 13.
pub(crate) fn switches() -> Result<Problem, Refusal> {
    let mut table = StepTable::new();
    for i in 0..12u8 {
        let fact = 1u32 << i;
        table.put(2 * i, Step::new(0, fact, 0)?)?;
        table.put(2 * i + 1, Step::new(fact, 0, fact)?)?;
    }
    table.put(24, Step::new(1 << 12, 1 << 13, 0)?)?;
    Ok(Problem {
        n: 14,
        standing: Standing { facts: 0 },
        order: 1 << 13,
        waived: 0,
        table,
    })
}
