//! A host of the library: it keeps one case itself, finds what to waive, draws the slip and signs
//! it.

#![tactic(auto)]

use cases::Case;
use deciders::{Forward, Row, Screen};
use pickers::CountingPicker;
use rules::{Facts, Refusal};
use waivers::FinderFault;

/// Four facts, of which fact 1 stands and fact 3 is ordered, and two steps.
fn open(case: &mut Case) -> Result<(), Refusal> {
    case.open(42, 4, 0b0010, 0b1000)?;
    case.put(0, 0b0110, 0b1000, 0b0010)?;
    case.put(1, 0b0001, 0b0100, 0)
}

/// Waives the fewest facts, and says which. The plan's places are then in the first places of the
/// book.
fn waive_fewest(case: &mut Case, book: &mut [u8]) -> Result<(Facts, u16), FinderFault> {
    let mut decider = Screen::<Forward>::default();
    let mut sheet = [Row::default(); 16];
    let (set, _, length) = case.find(&mut decider, &CountingPicker, &mut sheet, book)?;
    let slip = case.draw()?;
    // named first, since a result that may hold a slip can't be let go unnamed
    let signed = case.sign(slip);
    // the case accepts the slip that it has just drawn
    let Ok(()) = signed else { unreachable!() };
    Ok((set, length))
}

fn main(rt: HostRuntime) -> anyhow::Result<()> {
    let mut case = Case::new(rt.alloc())?;
    let mut book = [0; 16];
    if let Err(refusal) = open(&mut case) {
        let number = refusal.number();
        println!(rt; "not opened: refusal {number}")?;
        return Ok(());
    }
    match waive_fewest(&mut case, &mut book) {
        Err(fault) => {
            let number = fault.number();
            println!(rt; "nothing waived: refusal {number}")?;
        }
        Ok((set, length)) => {
            let number = case.number();
            println!(rt; "case {number}: waived {set:04b}")?;
            for place in book.iter().take(usize::from(length)) {
                println!(rt; "then the step at place {place}")?;
            }
        }
    }
    Ok(())
}
