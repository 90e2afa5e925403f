//! The program's standard input and output: reads a case file, and writes one report line for each
//! of its lines.

#![tactic(auto)]

ghost use Rattle.std.specs.Prelude.{◌≡◌, ◌≤◌, [], length, take, vec_len, IfOk, IfSome};
ghost use Rattle.std.specs.Io.Buffered.{writer_contents, writer_buffer};
ghost use Rattle.casefile.specs.Desks.{ServesTextAt};
ghost use Rattle.console.specs.Fresh.{ServesFresh, ServesCaseFile};

use casefile::{Desk, MAX_TEXT, MIN_REPORT, ServeFault, serve_text};
use cases::Case;
use deciders::{Decider, Forward, MAX_PLACES, MAX_ROWS, Row, Screen};
use pickers::{CountingPicker, Picker};
use std::alloc::Global;
use std::io;
use std::io::{BufWriter, Read, Write};

/// A text that fills this much is too long, however it goes on.
const ROOM: usize = MAX_TEXT + 1;

/// The bytes of the input, up to one more than a text may have.
fn read_text<R: Read + Drop>(heap: Global, input: R) -> io::Result<Vec<u8>>
    ensures bounded { IfOk result (λ text. vec_len text ≤ 16385) }
    ensures bytes { IfOk result (λ text.
        IfSome (R.remaining input) (λ bytes. text.items ≡ take 16385 bytes)) }
{
    let mut text = Vec::new(heap);
    input.take(ROOM as u64).read_to_end(&mut text)?;
    // for a reader that gives more than was taken of it
    text.truncate(ROOM);
    Ok(text)
}

/// Serves a text into a writer that gathers what it is given, and holds nothing back in the end.
fn serve_gathered<D: Decider, P: Picker, W: Write + Drop>(
    text: &[u8],
    desk: &mut Desk<D, P>,
    buffer: &mut [u8],
    output: &mut BufWriter<W>,
) -> Result<(), ServeFault>
    ensures serves { ServesTextAt P.choice D.reach D.MARK text.now (length buffer.old)
        desk.old desk.new (writer_contents W.contents output.old)
        (writer_contents W.contents output.new) result }
    ensures gathered { IfOk result (λ _. writer_buffer output.new ≡ []) }
{
    serve_text(text, desk, buffer, output)?;
    output.flush()?;
    Ok(())
}

/// Serves a text on a fresh case, and holds nothing back in the end. Fails for want of memory, or
/// where the writer fails.
fn serve_fresh<D: Decider, P: Picker, W: Write + Drop>(
    heap: Global,
    text: &[u8],
    decider: &mut D,
    picker: &P,
    output: &mut BufWriter<W>,
) -> anyhow::Result<()>
    ensures serves { IfOk result (λ _. ServesFresh (P.choice picker.now) D.reach D.MARK decider.old
        text.now (writer_contents W.contents output.old) (writer_contents W.contents output.new)) }
    ensures gathered { IfOk result (λ _. writer_buffer output.new ≡ []) }
{
    let mut case = Case::new(heap)?;
    let mut sheet = vec![in heap; Row::default(); MAX_ROWS]?;
    let mut book = vec![in heap; 0u8; MAX_PLACES]?;
    let mut buffer = vec![in heap; 0u8; MIN_REPORT]?;
    let mut desk = Desk {
        case: &mut case,
        decider,
        picker,
        sheet: &mut sheet,
        book: &mut book,
    };
    serve_gathered(text, &mut desk, &mut buffer, output)?;
    Ok(())
}

/// Serves a case file as the program does: a screen over forward with 4,096 rows decides, and the
/// counting picker picks. It holds nothing back in the end. Fails for want of memory, or where the
/// writer fails.
pub fn serve_case_file<W: Write + Drop>(
    heap: Global,
    text: &[u8],
    output: &mut BufWriter<W>,
) -> anyhow::Result<()>
    ensures serves { IfOk result (λ _. ServesCaseFile text.now
        (writer_contents W.contents output.old) (writer_contents W.contents output.new)) }
    ensures gathered { IfOk result (λ _. writer_buffer output.new ≡ []) }
{
    let mut decider = Screen::<Forward>::default();
    serve_fresh(heap, text, &mut decider, &CountingPicker, output)
}

/// Serves the case file on standard input. Fails for want of memory, or where input or output
/// fails.
pub fn serve_input(rt: &HostRuntime) -> anyhow::Result<()> {
    let heap = rt.alloc();
    let text = read_text(heap, rt.stdin())?;
    let mut output = BufWriter::new(heap, rt.stdout())?;
    serve_case_file(heap, &text, &mut output)
}
