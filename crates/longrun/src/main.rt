//! Makes long lists of calls, accepted and refused, on fresh cases, by two deciders and two
//! pickers, and prints what the calls answer.

#![tactic(auto)]

use cases::{Answer, Call, Outcome, SlipData, run};
use deciders::{Backward, Decider, DeciderFault, Forward, Screen};
use pickers::{BranchingPicker, CountingPicker, Picker};
use std::alloc::Global;
use std::io;
use waivers::{Change, FinderFault};

mod foreign;
mod full;
mod making;
mod mixed;
mod random;
mod tally;

use foreign::report_foreign;
use full::full_list;
use mixed::mixed_calls;
use random::random_calls;
use tally::Tally;

/// How many lists are made of calls that look random.
const LISTS: u32 = 40;

/// The name of a call that changes what is planned over.
fn change_name(change: &Change) -> &'static str {
    match change {
        Change::Grant(_) => "grant",
        Change::Lapse(_) => "lapse",
        Change::Put { .. } => "put",
        Change::Withdraw(_) => "withdraw",
        Change::Carry(_) => "carry",
        Change::Order(_) => "order",
        Change::Cancel(_) => "cancel",
    }
}

/// The call's name.
fn name(call: &Call) -> &'static str {
    match call {
        Call::Open { .. } => "open",
        Call::Change(change) => change_name(change),
        Call::Find { .. } => "find",
        Call::Draw => "draw",
        Call::Sign(_) => "sign",
        Call::Tear(_) => "tear",
    }
}

/// Prints why find has no set.
fn tell_fault(rt: &HostRuntime, name: &str, fault: FinderFault) -> io::Result<()> {
    let number = fault.number();
    match fault {
        FinderFault::Decider(DeciderFault::BeyondReach { set, mark }) => {
            println!(rt; "{name}: refused with {number}, set {set}, mark {mark}")
        }
        FinderFault::ListFull(set) => println!(rt; "{name}: refused with {number}, set {set}"),
        _ => println!(rt; "{name}: refused with {number}"),
    }
}

/// Prints what a call of this name answered.
fn tell(rt: &HostRuntime, name: &str, answer: &Answer) -> io::Result<()> {
    match answer {
        Answer::Done(Ok(())) => println!(rt; "{name}: accepted"),
        Answer::Done(Err(refusal)) | Answer::Drawn(Err(refusal)) => {
            let number = refusal.number();
            println!(rt; "{name}: refused with {number}")
        }
        Answer::Drawn(Ok(SlipData { number, set })) => println!(rt;
            "{name}: number {number}, set {set}"
        ),
        Answer::Found { result, .. } => match result {
            Ok((set, size, length)) => {
                println!(rt; "{name}: set {set}, size {size}, plan of {length}")
            }
            Err(fault) => tell_fault(rt, name, *fault),
        },
    }
}

/// The number of the refusal that an answer is; 0 for none.
fn refusal_number(answer: &Answer) -> u8 {
    match answer {
        Answer::Done(Err(refusal)) | Answer::Drawn(Err(refusal)) => refusal.number(),
        Answer::Found {
            result: Err(fault),
            ..
        } => fault.number(),
        _ => 0,
    }
}

/// Makes the calls on a fresh case, and gives their answers. A slip that is still out then is torn.
fn answers_to<D: Decider, P: Picker>(
    heap: Global,
    decider: &mut D,
    picker: &P,
    calls: Vec<Call>,
) -> io::Result<Vec<Answer>> {
    let Outcome {
        answers,
        mut case,
        slip,
    } = run(heap, decider, picker, calls)?;
    if let Some(slip) = slip {
        let torn = case.tear(slip);
        let Ok(()) = torn else { unreachable!() };
    }
    Ok(answers)
}

/// Makes the calls on a fresh case, and prints what each answers.
fn report<D: Decider, P: Picker>(
    rt: &HostRuntime,
    decider: &mut D,
    picker: &P,
    calls: Vec<Call>,
) -> io::Result<()> {
    let heap = rt.alloc();
    let names: Vec<&'static str> = calls.iter().map(name).collect(heap)?;
    let answers = answers_to(heap, decider, picker, calls)?;
    for (name, answer) in names.iter().zip(answers.iter()) {
        tell(rt, name, answer)?;
    }
    Ok(())
}

/// Makes lists of calls that look random, each on a fresh case, and prints how often each call was
/// accepted and refused.
fn report_random<D: Decider, P: Picker>(
    rt: &HostRuntime,
    decider: &mut D,
    picker: &P,
) -> io::Result<()> {
    let heap = rt.alloc();
    let mut tally = Tally::new();
    for seed in 0..LISTS {
        let calls = random_calls(heap, seed)?;
        let names: Vec<&'static str> = calls.iter().map(name).collect(heap)?;
        let answers = answers_to(heap, decider, picker, calls)?;
        for (name, answer) in names.iter().zip(answers.iter()) {
            tally.count(name, refusal_number(answer));
        }
    }
    tally.print(rt)
}

/// Makes all lists with one decider and one picker.
fn report_all<D: Decider, P: Picker>(
    rt: &HostRuntime,
    pair: &str,
    decider: &mut D,
    picker: &P,
) -> io::Result<()> {
    let heap = rt.alloc();
    println!(rt; "mixed calls, {pair}")?;
    report(rt, decider, picker, mixed_calls(heap)?)?;
    println!(rt; "a full list, {pair}")?;
    report(rt, decider, picker, full_list(heap)?)?;
    println!(rt; "random calls, {pair}")?;
    report_random(rt, decider, picker)
}

fn main(rt: HostRuntime) -> io::Result<()> {
    let (counting, branching) = (CountingPicker, BranchingPicker);
    let mut screen = Screen::<Forward>::default();
    report_all(
        &rt,
        "a screen over forward, the counting picker",
        &mut screen,
        &counting,
    )?;
    report_all(
        &rt,
        "forward, the branching picker",
        &mut Forward::default(),
        &branching,
    )?;
    let mut backward = Backward::default();
    report_all(
        &rt,
        "backward, the counting picker",
        &mut backward,
        &counting,
    )?;
    report_all(
        &rt,
        "backward, the branching picker",
        &mut backward,
        &branching,
    )?;
    println!(rt; "a slip of another case")?;
    report_foreign(&rt)
}
