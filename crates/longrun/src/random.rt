//! Calls that look random, on a case of five facts. Fact 4 is ordered, and some steps give it.

use crate::making::{change, find, open, put, sign, tear};
use cases::Call;
use draws::Generator;
use rules::{Facts, difference};
use std::alloc::{AllocError, Global};
use waivers::Change;

/// How many turns a list has; each is one call, or a slip that is drawn and decided.
const TURNS: u32 = 150;

/// The case's number.
const NUMBER: u32 = 5;

/// The set of the fact that is ordered.
const ORDERED: Facts = 16;

/// Numbers that look random.
#[derive(Drop)]
struct Numbers(Generator);

impl Numbers {
    /// A number below 64.
    fn some(&mut self) -> u32 {
        (self.0.draw() >> 16) % 64
    }

    /// A set of few of five facts, and seldom one with a fact that the case does not have.
    fn few(&mut self) -> Facts {
        let set = self.some() & self.some() & self.some();
        if self.some() == 0 { set } else { set % 32 }
    }

    /// A place, seldom one that no table has.
    fn place(&mut self) -> u8 {
        let place = self.some() % 8;
        if self.some() == 0 { 64 } else { place as u8 }
    }
}

/// A step into some place; it seldom takes what it gives.
fn some_put(numbers: &mut Numbers) -> Call {
    let ordered = if numbers.some() < 32 { ORDERED } else { 0 };
    let gives = numbers.few() | ordered;
    let takes = numbers.few();
    let others = difference(takes, gives);
    let takes = if numbers.some() == 0 { takes } else { others };
    put(numbers.place(), numbers.some() % 16, gives, takes)
}

/// A find, seldom on a sheet or a book of a wrong size, and now and then on one row.
fn some_find(heap: Global, numbers: &mut Numbers) -> Result<Call, AllocError> {
    match numbers.some() {
        0 => find(heap, 0, 32),
        1 => find(heap, 32, 31),
        2..=9 => find(heap, 1, 1),
        _ => find(heap, 32, 32),
    }
}

/// Finds a set and draws a slip for it. Then makes a call that is refused while the slip is out,
/// perhaps guesses its set to sign it, and tears it by trying all sets.
fn slip(heap: Global, numbers: &mut Numbers, calls: &mut Vec<Call>) -> Result<(), AllocError> {
    calls.push(find(heap, 32, 32)?)?;
    calls.push(Call::Draw)?;
    calls.push(change(Change::Grant(numbers.few())))?;
    if numbers.some() < 32 {
        calls.push(sign(NUMBER, numbers.few()))?;
    }
    for set in 0..32u32 {
        calls.push(tear(NUMBER, set))?;
    }
    Ok(())
}

/// One turn.
fn turn(heap: Global, numbers: &mut Numbers, calls: &mut Vec<Call>) -> Result<(), AllocError> {
    let call = match numbers.some() % 16 {
        0 => change(Change::Grant(numbers.few())),
        1..=3 => change(Change::Lapse(numbers.some() % 32)),
        4..=6 => some_put(numbers),
        7 => change(Change::Withdraw(numbers.place())),
        8 => change(Change::Carry(numbers.place())),
        9 => change(Change::Order(ORDERED | numbers.few() & numbers.some())),
        10 => change(Change::Cancel(numbers.few())),
        11 | 12 => return slip(heap, numbers, calls),
        _ => some_find(heap, numbers)?,
    };
    calls.push(call)?;
    Ok(())
}

/// A list of calls on a case that is opened first.
pub(crate) fn random_calls(heap: Global, seed: u32) -> Result<Vec<Call>, AllocError> {
    let mut numbers = Numbers(Generator::new(seed));
    let mut calls = Vec::new(heap);
    calls.push(open(NUMBER, 5, 0, ORDERED))?;
    for _ in 0..TURNS {
        turn(heap, &mut numbers, &mut calls)?;
    }
    Ok(calls)
}
