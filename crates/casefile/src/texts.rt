//! Serving a whole text.

ghost use Rattle.std.specs.Prelude.{◌≤◌, length, take};
ghost use Rattle.waivers.specs.Known.{WellKept};
ghost use Rattle.cases.specs.State.{known_of};
ghost use Rattle.casefile.specs.Faults.{report_length};
ghost use Rattle.casefile.specs.Chains.{Writes, Reports};
ghost use Rattle.casefile.specs.Desks.{KeepsLoans, KeepsReach, ServesTextAt};

use crate::fault::{ReadFault, ServeFault};
use crate::reading::Reading;
use crate::serving::Desk;
use deciders::Decider;
use pickers::Picker;
use std::io::Write;

/// Writes the report line at the front of the buffer, which goes up to `end`.
fn write_line<W: Write>(buffer: &[u8], end: usize, output: &mut W) -> Result<(), ServeFault>
    requires { end ≤ length buffer.now }
    ensures { Writes (take end buffer.now) (W.contents output.old) (W.contents output.new) result }
{
    output.write_all(&buffer[..end])?;
    Ok(())
}

/// Writes the report line that a fault has left at the front of the buffer, if it has left one.
fn report_fault<W: Write>(fault: ReadFault, buffer: &[u8], output: &mut W) -> Result<(), ServeFault>
    requires { report_length fault ≤ length buffer.now }
    ensures { Reports fault (take (report_length fault) buffer.now)
        (W.contents output.old) (W.contents output.new) result }
{
    match fault {
        ReadFault::TextTooLong => write_line(buffer, fault.report_length(), output),
        ReadFault::BufferTooShort => Err(ServeFault::Unread(fault)),
    }
}

/// Serves a text: reads its lines to its end, makes the call that each asks for, and writes the
/// report line of each; or writes the one report line of a text that is too long. What the buffer
/// then holds is not said, and the writer is not flushed.
///
/// A report buffer of fewer than 8,209 bytes is refused, and nothing is read or written. Where the
/// writer fails, its error ends the text: some of its lines were served, and what the writer then
/// holds is not known.
pub fn serve_text<D: Decider, P: Picker, W: Write>(
    text: &[u8],
    desk: &mut Desk<D, P>,
    buffer: &mut [u8],
    output: &mut W,
) -> Result<(), ServeFault>
    ensures same { KeepsLoans desk.old desk.new }
    ensures reach { KeepsReach D.reach desk.old desk.new }
    ensures kept { WellKept (known_of desk.new.case.now) }
    ensures serves { ServesTextAt P.choice D.reach D.MARK text.now (length buffer.old)
        desk.old desk.new (W.contents output.old) (W.contents output.new) result }
{
    let mut reading = Reading::start();
    'lines: loop {
        match reading.next(text, desk, buffer) {
            Ok(Some(end)) => write_line(buffer, end, output)?,
            Ok(None) => return Ok(()),
            Err(fault) => return report_fault(fault, buffer, output),
        }
    }
}
