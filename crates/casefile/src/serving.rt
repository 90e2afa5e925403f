//! What a line does to a case, and the report line that answers it.

ghost use Rattle.std.specs.Prelude.{◌≡◌};
ghost use Rattle.frames.specs.Reports.{Printed};
ghost use Rattle.waivers.specs.Known.{WellKept};
ghost use Rattle.cases.specs.State.{known_of};
ghost use Rattle.casefile.specs.Serving.{reply_to_call};
ghost use Rattle.casefile.specs.Reporting.{reply_bytes, Fits};
ghost use Rattle.casefile.specs.Desks.{KeepsLoans, KeepsReach, ServesAt, AsksAt};

use crate::fault::LineFault;
use crate::request::{Request, asked_by};
use cases::Case;
use deciders::{Decider, Row};
use frames::{Frame, Refused, read_frame, write_accepted, write_found, write_refused};
use pickers::Picker;
use rules::{Facts, Refusal};

/// What an accepted frame answers.
// Both are answers to accepted frames; as an Option, None would read as no answer.
#[derive(Clone, Copy, PartialEq, Eq, Debug)]
pub enum Reply {
    /// The call was made.
    Done,
    /// Find's set, its size, and the length of the plan in the plan book.
    Found { set: Facts, size: u8, length: u16 },
}

/// What a line is answered, and the kind that its report shows.
#[derive(Clone, Copy)]
pub(crate) struct LineAnswer {
    kind: u8,
    reply: Result<Reply, LineFault>,
}

/// What the lines of a case file work on: the case, the decider and the picker that it finds with,
/// and the rows and the plan book for finding.
pub struct Desk<'a, D, P> {
    pub case: &'a mut Case,
    pub decider: &'a mut D,
    pub picker: &'a P,
    pub sheet: &'a mut [Row],
    pub book: &'a mut [u8],
}

// By hand, since a derive would ask that decider and picker may be let go, and these are loans.
impl<D, P> Drop for Desk<'_, D, P> {
    fn drop(self) {
        let Desk {
            case: _,
            decider: _,
            picker: _,
            sheet: _,
            book: _,
        } = self;
    }
}

/// What is replied to a call that the case made or refused.
fn reply_to(made: Result<(), Refusal>) -> Result<Reply, LineFault>
    ensures { result ≡ reply_to_call made }
{
    made?;
    Ok(Reply::Done)
}

impl<D: Decider, P: Picker> Desk<'_, D, P> {
    /// Makes the call that a frame asks for. A refused call is answered by `LineFault::Case`, and a
    /// find without a set by `LineFault::Finder`.
    pub fn serve(&mut self, frame: &Frame) -> Result<Reply, LineFault>
        ensures same { KeepsLoans self.old self.new }
        ensures reach { KeepsReach D.reach self.old self.new }
        ensures kept { WellKept (known_of self.new.case.now) }
        ensures serves { ServesAt P.choice D.reach D.MARK frame.now self.old result self.new }
    {
        match asked_by(frame) {
            Request::Open {
                number,
                n,
                standing,
                order,
            } => reply_to(self.case.open(number, n, standing, order)),
            Request::Change(change) => reply_to(self.case.change(change)),
            Request::Find => {
                let (set, size, length) = self
                    .case
                    .find(self.decider, self.picker, self.sheet, self.book)?;
                Ok(Reply::Found { set, size, length })
            }
            Request::DrawAndSign => reply_to(self.case.draw_and_sign()),
        }
    }

    /// Makes the call that a line asks for.
    pub(crate) fn ask(&mut self, line: &[u8]) -> LineAnswer
        ensures same { KeepsLoans self.old self.new }
        ensures reach { KeepsReach D.reach self.old self.new }
        ensures kept { WellKept (known_of self.new.case.now) }
        ensures asks { AsksAt P.choice D.reach D.MARK line.now result.kind
            self.old result.reply self.new }
        ensures fits { Fits result.reply self.new.book.now }
    {
        match read_frame(line) {
            Ok(frame) => LineAnswer {
                kind: u8::from(frame.kind()),
                reply: self.serve(&frame),
            },
            Err(fault) => {
                let _ = self.case.problem(); // says what is always so of the case
                LineAnswer {
                    kind: fault.kind(),
                    reply: Err(LineFault::from(fault)),
                }
            }
        }
    }

    /// Writes the report line of an answer to the front of the buffer, and says how long it is.
    pub(crate) fn report(&self, answer: &LineAnswer, line: u16, buffer: &mut [u8]) -> Option<usize>
        requires { Fits answer.now.reply self.now.book.now }
        ensures { Printed (reply_bytes answer.now.kind line answer.now.reply self.now.book.now)
            buffer.old buffer.new result }
    {
        match answer.reply {
            Ok(Reply::Done) => write_accepted(answer.kind, buffer),
            Ok(Reply::Found { set, size, length }) => {
                write_found(set, size, &self.book[..usize::from(length)], buffer)
            }
            Err(fault) => {
                let refused = Refused {
                    kind: answer.kind,
                    refusal: fault.number(),
                    layer: u8::from(fault.layer()),
                    line,
                    added: fault.added(),
                };
                write_refused(&refused, buffer)
            }
        }
    }
}
