//! Random problems of six facts, each decided in every way.

use crate::naive::reachable;
use crate::query::Query;
use deciders::{Backward, Decider, DeciderFault, Forward, Row, Screen, Verdict};
use draws::Generator;
use rules::{Facts, Problem, Refusal, Standing, Step, StepTable, difference};

const PROBLEMS: u32 = 400;

/// Sets that look random.
#[derive(Drop)]
struct Sets(Generator);

impl Sets {
    /// A set of some of six facts.
    fn some(&mut self) -> Facts {
        (self.0.draw() >> 10) % 64
    }

    /// A set of few of six facts.
    fn few(&mut self) -> Facts {
        self.some() & self.some()
    }
}

/// A problem of six facts and up to eight steps.
fn problem(sets: &mut Sets) -> Result<Problem, Refusal> {
    let mut table = StepTable::new();
    for place in 0..8u8 {
        if sets.some() % 4 != 0 {
            let gives = sets.few();
            let takes = difference(sets.few(), gives);
            table.put(place, Step::new(sets.few(), gives, takes)?)?;
        }
    }
    Ok(Problem {
        n: 6,
        standing: Standing { facts: sets.few() },
        order: sets.some(),
        waived: sets.few() & sets.few(),
        table,
    })
}

/// What the answers were.
#[derive(Clone, Copy, Default)]
pub struct Tally {
    pub solvable: u32,
    pub blocked: u32,
    pub beyond: u32,
    pub wrong: u32,
}

impl Tally {
    /// Counts an answer, which is wrong unless it agrees with the second way. With 64 rows nothing
    /// of six facts is beyond reach.
    fn add(
        &mut self,
        answer: Result<Verdict, DeciderFault>,
        query: Query<'_>,
        book: &[u8],
        solvable: bool,
    ) {
        match answer {
            Ok(Verdict::Solvable(length)) => {
                self.solvable = self.solvable.wrapping_add(1);
                self.check(solvable && query.is_plan(length, book));
            }
            Ok(Verdict::Blocked) => {
                self.blocked = self.blocked.wrapping_add(1);
                self.check(!solvable);
            }
            Err(_) => {
                self.beyond = self.beyond.wrapping_add(1);
                self.check(query.rows < 64);
            }
        }
    }

    /// Counts what is not right.
    fn check(&mut self, right: bool) {
        self.wrong = self.wrong.wrapping_add(u32::from(!right));
    }
}

/// Asks one decider.
fn ask<D: Decider>(decider: &mut D, query: Query<'_>, solvable: bool, tally: &mut Tally) {
    let mut sheet = [Row::default(); 64];
    let mut book = [0u8; 64];
    if let Some(sheet) = sheet.get_mut(..query.rows) {
        let answer = decider.query(query.problem, query.strike, sheet, &mut book);
        tally.add(answer, query, &book, solvable);
    }
}

/// The shipped deciders and screens over them, which keep their memory from problem to problem.
#[derive(Default, Drop)]
struct Asked {
    forward: Forward,
    backward: Backward,
    over_forward: Screen<Forward>,
    over_backward: Screen<Backward>,
}

/// Asks each decider, with all rows and with few.
fn ask_all(asked: &mut Asked, problem: &Problem, strike: Facts, tally: &mut Tally) {
    let (reached, solvable) = reachable(problem, strike);
    let with_rows = |rows: usize| Query {
        problem,
        strike,
        rows,
        places: 64,
    };
    for rows in [64usize, 5, 2] {
        let query = with_rows(rows);
        ask(&mut asked.forward, query, solvable, tally);
        ask(&mut asked.backward, query, solvable, tally);
        ask(&mut asked.over_forward, query, solvable, tally);
        ask(&mut asked.over_backward, query, solvable, tally);
    }
    // as many rows as there are standings are enough, and of a blocked problem no fewer
    let before = tally.beyond;
    ask(&mut asked.forward, with_rows(reached), solvable, tally);
    tally.check(tally.beyond == before);
    if reached > 1 {
        ask(&mut asked.forward, with_rows(reached - 1), solvable, tally);
        tally.check(solvable || tally.beyond != before);
    }
}

/// Decides random problems in every way, and counts the answers.
pub(crate) fn compare() -> Result<Tally, Refusal> {
    let mut sets = Sets(Generator::new(2_026));
    let mut asked = Asked::default();
    let mut tally = Tally::default();
    for _ in 0..PROBLEMS {
        let problem = problem(&mut sets)?;
        ask_all(&mut asked, &problem, sets.few(), &mut tally);
    }
    Ok(tally)
}
