//! Calls as values, and their answers.

use crate::slip::SlipData;
use deciders::Row;
use rules::{Facts, Refusal};
use waivers::{Change, FinderFault};

/// A call of a case. Find brings its working sheet and its plan book; sign and tear bring what some
/// slip says.
#[derive(Drop)]
pub enum Call {
    Open {
        number: u32,
        n: u8,
        standing: Facts,
        order: Facts,
    },
    Change(Change),
    Find {
        sheet: Vec<Row>,
        book: Vec<u8>,
    },
    Draw,
    Sign(SlipData),
    Tear(SlipData),
}

/// What a call answered. Find hands its sheet and its book back, and draw says what its slip says.
#[derive(Drop)]
pub enum Answer {
    Done(Result<(), Refusal>),
    Found {
        result: Result<(Facts, u8, u16), FinderFault>,
        sheet: Vec<Row>,
        book: Vec<u8>,
    },
    Drawn(Result<SlipData, Refusal>),
}
