//! Runs of the deciders: worked cases, limits, long plans, and random problems against a naive
//! second way.

#![tactic(auto)]

use deciders::{Backward, Forward, Screen};
use rules::{Problem, Refusal};
use std::io;

mod ask;
mod naive;
mod problems;
mod query;
mod random;

use ask::ask;
use problems::{counter, free_facts, licence, switches};
use query::Query;
use random::{Tally, compare};

/// Why the runs end early.
#[derive(Drop)]
enum RunFault {
    /// A step is refused.
    Refused,
    /// A line can't be printed.
    Unprinted(io::Error),
}

impl From<Refusal> for RunFault {
    fn from(_refusal: Refusal) -> RunFault {
        RunFault::Refused
    }
}

impl From<io::Error> for RunFault {
    fn from(error: io::Error) -> RunFault {
        RunFault::Unprinted(error)
    }
}

/// Asks each of the shipped deciders, and screens over them.
fn ask_all(rt: &HostRuntime, query: Query<'_>) -> io::Result<()> {
    let mut over_forward = Screen::<Forward>::default();
    let mut over_backward = Screen::<Backward>::default();
    let mut twice = Screen::<Screen<Backward>>::default();
    ask(rt, "forward", &mut Forward::default(), query)?;
    ask(rt, "backward", &mut Backward::default(), query)?;
    ask(rt, "screen over forward", &mut over_forward, query)?;
    ask(rt, "screen over backward", &mut over_backward, query)?;
    ask(rt, "screen over a screen", &mut twice, query)
}

/// Three steps freely give a fact, and a fourth fact is ordered and never given.
fn run_free(rt: &HostRuntime, problem: &Problem) -> io::Result<()> {
    let mut forward = Forward::default();
    let mut over_forward = Screen::<Forward>::default();
    println!(rt; "free facts")?;
    ask(rt, "forward", &mut forward, Query::whole(problem, 8, 8))?;
    ask(rt, "forward", &mut forward, Query::whole(problem, 7, 8))?;
    let small = Query::whole(problem, 1, 1);
    ask(rt, "screen over forward", &mut over_forward, small)?;
    ask_all(rt, Query { strike: 8, ..small })
}

/// A small case with each of its facts struck out, and with none.
fn run_licence(rt: &HostRuntime, problem: &Problem) -> io::Result<()> {
    println!(rt; "licence")?;
    let whole = Query::whole(problem, 16, 16);
    for strike in [1, 2, 4, 8, 0] {
        ask_all(rt, Query { strike, ..whole })?;
    }
    Ok(())
}

/// Sheets and books at, below and above each limit.
fn run_limits(rt: &HostRuntime, problem: &Problem) -> io::Result<()> {
    println!(rt; "limits")?;
    for (rows, places) in [
        (0, 0),
        (0, 8),
        (1, 0),
        (1, 1),
        (2, 1),
        (4096, 4095),
        (4096, 4096),
        (4095, 4097),
        (4097, 4096),
        (4097, 4097),
    ] {
        ask_all(rt, Query::whole(problem, rows, places))?;
    }
    Ok(())
}

/// Long plans and full sheets.
fn run_large(rt: &HostRuntime, count: &Problem, switched: &Problem) -> io::Result<()> {
    println!(rt; "counter")?;
    ask_all(rt, Query::whole(count, 512, 512))?;
    ask_all(rt, Query::whole(count, 511, 512))?;
    let mut forward = Forward::default();
    println!(rt; "switches")?;
    let large = Query::whole(switched, 4096, 4096);
    let short = Query {
        rows: 4095,
        ..large
    };
    ask(rt, "forward", &mut forward, large)?;
    ask(rt, "forward", &mut forward, short)?;
    ask_all(
        rt,
        Query {
            strike: 1 << 12,
            ..large
        },
    )
}

fn run(rt: &HostRuntime) -> Result<(), RunFault> {
    let free = free_facts()?;
    let case = licence()?;
    let count = counter()?;
    let switched = switches()?;
    run_free(rt, &free)?;
    run_licence(rt, &case)?;
    run_limits(rt, &case)?;
    run_large(rt, &count, &switched)?;
    let Tally {
        solvable,
        blocked,
        beyond,
        wrong,
    } = compare()?;
    println!(rt;
        "random: {solvable} solvable, {blocked} blocked, {beyond} beyond reach, {wrong} wrong"
    )?;
    Ok(())
}

fn main(rt: HostRuntime) -> io::Result<()> {
    match run(&rt) {
        Ok(()) => Ok(()),
        Err(RunFault::Refused) => println!(rt; "a step was refused"),
        Err(RunFault::Unprinted(error)) => Err(error),
    }
}
