//! A slip of one case, brought to another.

use cases::Case;
use deciders::{Forward, Row};
use pickers::CountingPicker;
use std::alloc::Global;
use std::io;

/// A case of two facts: the step at place 0 needs fact 0 and gives fact 1, which is ordered. Fact 0
/// is found.
fn found_case(heap: Global, number: u32) -> io::Result<Case> {
    let mut case = Case::new(heap)?;
    let mut sheet = [Row::default(); 4];
    let mut book = [0u8; 4];
    let _opened = case.open(number, 2, 0, 0b10);
    let _put = case.put(0, 0b01, 0b10, 0);
    let _found = case.find(
        &mut Forward::default(),
        &CountingPicker,
        &mut sheet,
        &mut book,
    );
    Ok(case)
}

/// Draws a slip of one case, and brings it to another, which hands it back; then it is signed where
/// it belongs.
pub(crate) fn report_foreign(rt: &HostRuntime) -> io::Result<()> {
    let mut own = found_case(rt.alloc(), 7)?;
    let mut other = found_case(rt.alloc(), 8)?;
    match own.draw() {
        Err(refusal) => {
            let number = refusal.number();
            println!(rt; "draw: refused with {number}")
        }
        Ok(slip) => {
            let brought = other.sign(slip);
            let Err((slip, refusal)) = brought else {
                return println!(rt; "sign: accepted by another case");
            };
            let signed = own.sign(slip);
            let Ok(()) = signed else { unreachable!() };
            let number = refusal.number();
            println!(rt; "sign: refused with {number} by another case, and accepted by its own")
        }
    }
}
