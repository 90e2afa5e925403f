//! One query, printed with what can be checked of its answer.

use crate::query::Query;
use deciders::{Decider, DeciderFault, Row, Verdict};
use std::io;

/// More than the limits allow.
const ROOM: usize = 4100;

/// What a plan book holds before a query.
const UNWRITTEN: u8 = 0xEE;

/// Whether nothing was written from the index `from` on.
fn is_untouched(book: &[u8], from: usize) -> bool {
    book.iter().skip(from).all(|place| *place == UNWRITTEN)
}

/// Asks the decider, and prints what it says.
pub(crate) fn ask<D: Decider>(
    rt: &HostRuntime,
    name: &str,
    decider: &mut D,
    query: Query<'_>,
) -> io::Result<()> {
    let mut sheet = [Row::default(); ROOM];
    let mut book = [UNWRITTEN; ROOM];
    let (Some(sheet), Some(book)) = (sheet.get_mut(..query.rows), book.get_mut(..query.places))
    else {
        return Ok(());
    };
    match decider.query(query.problem, query.strike, sheet, book) {
        Ok(verdict) => tell(rt, name, query, verdict, book),
        Err(fault) => tell_fault(rt, name, query, fault, book),
    }
}

fn tell(
    rt: &HostRuntime,
    name: &str,
    query: Query<'_>,
    verdict: Verdict,
    book: &[u8],
) -> io::Result<()> {
    match verdict {
        Verdict::Solvable(length) => {
            let good = query.is_plan(length, book);
            let kept = is_untouched(book, usize::from(length));
            println!(rt;
                "{name}, {query}: solvable by {length} steps, a plan: {good}, the rest kept: {kept}"
            )
        }
        Verdict::Blocked => {
            let kept = is_untouched(book, 0);
            println!(rt; "{name}, {query}: blocked, all kept: {kept}")
        }
    }
}

fn tell_fault(
    rt: &HostRuntime,
    name: &str,
    query: Query<'_>,
    fault: DeciderFault,
    book: &[u8],
) -> io::Result<()> {
    let number = fault.number();
    let layer = u8::from(fault.layer());
    let kept = is_untouched(book, 0);
    let DeciderFault::BeyondReach { set, mark } = fault;
    println!(rt;
        "{name}, {query}: fault {number} of layer {layer}, set {set}, mark {mark}, all kept: {kept}"
    )
}
