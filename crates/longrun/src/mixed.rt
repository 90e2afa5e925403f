//! All twelve calls, with every refusal of each but list full.
//!
//! The case has five facts. Fact 1 stands, and facts 2 and 3 are ordered. The step at place 0 needs
//! 1 and 2, gives 3 and takes 1; the one at place 1 needs 0 and gives 2. So the set of fact 0 is
//! the only smallest good set, and every picker's answer.

use crate::making::{change, find, open, put, sign, tear};
use cases::Call;
use std::alloc::{AllocError, Global};
use waivers::Change;

/// A fact that the case does not have.
const UNKNOWN: u32 = 0b100000;

/// Calls on an unopened case, and the opening.
fn unopened(heap: Global, calls: &mut Vec<Call>) -> Result<(), AllocError> {
    calls.push(change(Change::Grant(1)))?;
    calls.push(change(Change::Lapse(1)))?;
    calls.push(put(0, 0b00110, 0b01000, 0b00010))?;
    calls.push(change(Change::Withdraw(0)))?;
    calls.push(change(Change::Carry(0)))?;
    calls.push(change(Change::Order(1)))?;
    calls.push(change(Change::Cancel(1)))?;
    calls.push(find(heap, 0, 0)?)?;
    calls.push(Call::Draw)?;
    calls.push(sign(0, 0))?;
    calls.push(tear(0, 0))?;
    calls.push(open(7, 0, 0, 0))?;
    calls.push(open(7, 33, 0, 0))?;
    calls.push(open(7, 5, UNKNOWN, 0))?;
    calls.push(open(7, 5, 0, UNKNOWN))?;
    calls.push(open(7, 5, 0b00010, 0b01100))?;
    calls.push(open(8, 0, 0, 0))?;
    Ok(())
}

/// The two steps are put, and what names no fact or no place of the case is refused.
fn steps(calls: &mut Vec<Call>) -> Result<(), AllocError> {
    calls.push(change(Change::Grant(UNKNOWN)))?;
    calls.push(change(Change::Lapse(UNKNOWN)))?;
    calls.push(change(Change::Order(UNKNOWN)))?;
    calls.push(change(Change::Cancel(UNKNOWN)))?;
    calls.push(put(64, UNKNOWN, 0b00010, 0b00010))?;
    calls.push(put(64, 0, 0b00010, 0b00010))?;
    calls.push(put(64, 0, 0b00010, 0))?;
    calls.push(put(0, 0b00110, 0b01000, 0b00010))?;
    calls.push(put(0, 0b00001, 0b00100, 0))?;
    calls.push(put(1, 0b00001, 0b00100, 0))?;
    calls.push(change(Change::Withdraw(64)))?;
    calls.push(change(Change::Withdraw(2)))?;
    calls.push(change(Change::Carry(64)))?;
    calls.push(change(Change::Carry(2)))?;
    calls.push(change(Change::Carry(0)))?;
    Ok(())
}

/// Sheets and books of a wrong size, and one row, which is too few.
fn sizes(heap: Global, calls: &mut Vec<Call>) -> Result<(), AllocError> {
    calls.push(find(heap, 0, 16)?)?;
    calls.push(find(heap, 4097, 4096)?)?;
    calls.push(find(heap, 16, 15)?)?;
    calls.push(find(heap, 16, 4097)?)?;
    calls.push(Call::Draw)?;
    calls.push(sign(7, 0b00001))?;
    calls.push(tear(7, 0b00001))?;
    calls.push(find(heap, 1, 1)?)?;
    calls.push(Call::Draw)?;
    Ok(())
}

/// A slip is drawn, no other call is made while it is out, and then it is torn.
fn torn(heap: Global, calls: &mut Vec<Call>) -> Result<(), AllocError> {
    calls.push(find(heap, 16, 16)?)?;
    calls.push(Call::Draw)?;
    calls.push(Call::Draw)?;
    calls.push(open(8, 0, 0, 0))?;
    calls.push(change(Change::Grant(UNKNOWN)))?;
    calls.push(change(Change::Lapse(0)))?;
    calls.push(put(64, 0, 0, 0))?;
    calls.push(change(Change::Withdraw(1)))?;
    calls.push(change(Change::Carry(64)))?;
    calls.push(change(Change::Order(0)))?;
    calls.push(change(Change::Cancel(0)))?;
    calls.push(find(heap, 0, 0)?)?;
    calls.push(sign(8, 0b00001))?;
    calls.push(sign(7, 0b00100))?;
    calls.push(tear(8, 0b00001))?;
    calls.push(tear(7, 0b00000))?;
    calls.push(tear(7, 0b00001))?;
    calls.push(sign(7, 0b00001))?;
    calls.push(tear(7, 0b00001))?;
    Ok(())
}

/// The finding outlives its torn slip but no other call; then a slip is signed, and its fact is
/// waived.
fn signed(heap: Global, calls: &mut Vec<Call>) -> Result<(), AllocError> {
    calls.push(Call::Draw)?;
    calls.push(tear(7, 0b00001))?;
    calls.push(change(Change::Lapse(0)))?;
    calls.push(Call::Draw)?;
    calls.push(find(heap, 16, 16)?)?;
    calls.push(Call::Draw)?;
    calls.push(sign(7, 0b00001))?;
    calls.push(sign(7, 0b00001))?;
    calls.push(Call::Draw)?;
    calls.push(change(Change::Order(0b00001)))?;
    calls.push(change(Change::Order(UNKNOWN | 0b00001)))?;
    calls.push(find(heap, 16, 16)?)?;
    calls.push(Call::Draw)?;
    Ok(())
}

/// Both steps are done, and then more is ordered than any step gives.
fn carried(heap: Global, calls: &mut Vec<Call>) -> Result<(), AllocError> {
    calls.push(change(Change::Carry(1)))?;
    calls.push(change(Change::Carry(0)))?;
    calls.push(change(Change::Carry(0)))?;
    calls.push(find(heap, 16, 16)?)?;
    calls.push(change(Change::Order(0b10000)))?;
    calls.push(find(heap, 16, 16)?)?;
    calls.push(Call::Draw)?;
    calls.push(find(heap, 16, 16)?)?;
    calls.push(change(Change::Cancel(0b10000)))?;
    calls.push(find(heap, 16, 16)?)?;
    Ok(())
}

/// What was done lapses, is granted again, and the steps are withdrawn.
fn withdrawn(heap: Global, calls: &mut Vec<Call>) -> Result<(), AllocError> {
    calls.push(change(Change::Lapse(0b01000)))?;
    calls.push(find(heap, 16, 16)?)?;
    calls.push(change(Change::Grant(0b00010)))?;
    calls.push(find(heap, 16, 16)?)?;
    calls.push(change(Change::Withdraw(1)))?;
    calls.push(change(Change::Withdraw(1)))?;
    calls.push(change(Change::Withdraw(0)))?;
    calls.push(find(heap, 16, 16)?)?;
    calls.push(change(Change::Cancel(0b01000)))?;
    calls.push(find(heap, 16, 16)?)?;
    Ok(())
}

/// The whole list of calls.
pub(crate) fn mixed_calls(heap: Global) -> Result<Vec<Call>, AllocError> {
    let mut calls = Vec::new(heap);
    unopened(heap, &mut calls)?;
    steps(&mut calls)?;
    sizes(heap, &mut calls)?;
    torn(heap, &mut calls)?;
    signed(heap, &mut calls)?;
    carried(heap, &mut calls)?;
    withdrawn(heap, &mut calls)?;
    Ok(calls)
}
