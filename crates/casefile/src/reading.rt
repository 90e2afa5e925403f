//! Reading a case file line by line.

ghost use Rattle.waivers.specs.Known.{WellKept};
ghost use Rattle.cases.specs.State.{known_of};
ghost use Rattle.casefile.specs.Reporting.{AtStart, InText};
ghost use Rattle.casefile.specs.Desks.{KeepsLoans, KeepsReach, ReadsAt};

use crate::fault::{ReadFault, report_too_long};
use crate::serving::Desk;
use deciders::Decider;
use frames::next_line;
use pickers::Picker;
use std::marker::Model;

/// The most bytes of a text.
pub const MAX_TEXT: usize = 16384;

/// The fewest bytes of a report buffer: those of the longest report line, with a plan of 4,095
/// places.
pub const MIN_REPORT: usize = 8209;

/// Where reading a text stands: the position of the next line, and how many lines were read. Each
/// line takes a byte at least, and a text has at most 16,384.
#[derive(Clone, Copy)]
pub struct Reading {
    position: usize,
    lines: u16,
}

impl Model for Reading {
    ghost use Rattle.casefile.specs.Reporting.{Bookmark, InText};

    ghost Value = { Bookmark };

    ghost view = { λ at. record { position = at.position; lines = at.lines } };

    ghost inverse = { λ at. record { position = at.position; lines = at.lines } };

    ghost invariant = { λ at. InText (record { position = at.position; lines = at.lines }) };
}

impl Reading {
    /// At the beginning of a text.
    pub fn start() -> Reading
        ensures start { AtStart result }
        ensures inside { InText result }
    {
        Reading {
            position: 0,
            lines: 0,
        }
    }

    /// Reads the next line of the text, makes the call that it asks for, and writes its report line
    /// to the front of the buffer, of which the rest stays. Says how many bytes the report line
    /// has, or that there is no further line. Of a text that is too long no line is read, and the
    /// report line says so.
    ///
    /// Refused: `BufferTooShort`, where the buffer has fewer than 8,209 bytes, and then nothing is
    /// read or written; `TextTooLong`, where the text has more than 16,384.
    pub fn next<D: Decider, P: Picker>(
        &mut self,
        text: &[u8],
        desk: &mut Desk<D, P>,
        buffer: &mut [u8],
    ) -> Result<Option<usize>, ReadFault>
        ensures same { KeepsLoans desk.old desk.new }
        ensures reach { KeepsReach D.reach desk.old desk.new }
        ensures kept { WellKept (known_of desk.new.case.now) }
        ensures reads { ReadsAt P.choice D.reach D.MARK text.now
            self.old self.new desk.old desk.new buffer.old buffer.new result }
        ensures inside { InText self.new }
    {
        // what is always so of reading and of the case is known from here on
        let _ = &self.position;
        let _ = desk.case.problem();
        if buffer.len() < MIN_REPORT {
            return Err(ReadFault::BufferTooShort);
        }
        if text.len() > MAX_TEXT {
            report_too_long(buffer).ok_or(ReadFault::BufferTooShort)?;
            return Err(ReadFault::TextTooLong);
        }
        let Some((line, next)) = next_line(text, self.position) else {
            return Ok(None);
        };
        let answer = desk.ask(line);
        self.position = next;
        self.lines += 1;
        let length = desk
            .report(&answer, self.lines, buffer)
            .ok_or(ReadFault::BufferTooShort)?;
        Ok(Some(length))
    }
}
