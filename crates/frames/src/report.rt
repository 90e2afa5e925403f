//! Report lines: one for each line of a case file, in capital digits.

ghost use Rattle.std.specs.Prelude.{◌≡◌, ◌*◌, ◌<◌, ◌≤◌, ◌++◌, length, None};
ghost use Rattle.frames.specs.Digits.{digits_of};
ghost use Rattle.frames.specs.Reports.{accepted_bytes, found_bytes, refused_bytes, Printed};

use crate::digits::hex_pair;
use crate::kind::Kind;

/// What a refusal adds to its report line.
#[derive(Clone, Copy, PartialEq, Eq, Debug)]
pub enum Added {
    /// A set of facts.
    Set(u32),
    /// A set of facts, and the mark of the decider that could not settle it.
    SetAndMark(u32, u8),
}

/// What the report line of a refused frame says.
// The numbers as they stand in the line: an enum for one would ask more of who writes a line.
#[derive(Clone, Copy, PartialEq, Eq, Debug)]
pub struct Refused {
    /// The kind of the frame, or 0 where none could be read.
    pub kind: u8,
    /// The number of the refusal.
    pub refusal: u8,
    /// The layer that refused.
    pub layer: u8,
    /// The number of the line, from 1.
    pub line: u16,
    pub added: Option<Added>,
}

/// Writes the digits of the bytes.
fn put_digits(bytes: &[u8], digits: &mut [u8])
    requires { length digits.old ≡ 2 * length bytes.now }
    ensures { digits.new ≡ digits_of bytes.now }
{
    // Each pair by its index, since chunks_exact_mut does not say what the slice then holds.
    for (i, byte) in bytes.iter().enumerate() {
        digits[2 * i..2 * i + 2].copy_from_slice(&hex_pair(*byte));
    }
}

/// Writes the report line of the bytes of `head` and then of `tail` to the front of the buffer, and
/// says how long it is; or, where the buffer is too short for it, nothing.
fn write_line(head: &[u8], tail: &[u8], buffer: &mut [u8]) -> Option<usize>
    ensures { Printed (head.now ++ tail.now) buffer.old buffer.new result }
{
    let end = (head.len() + tail.len()).checked_mul(2)?;
    if buffer.len() <= end {
        return None;
    }
    let middle = 2 * head.len();
    put_digits(head, &mut buffer[..middle]);
    put_digits(tail, &mut buffer[middle..end]);
    buffer[end] = b'\n';
    Some(end + 1)
}

/// Writes the report line of an accepted frame, other than one that finds.
pub fn write_accepted(kind: u8, buffer: &mut [u8]) -> Option<usize>
    ensures { Printed (accepted_bytes kind) buffer.old buffer.new result }
{
    // The kind is a byte, since Kind would ask more of the caller.
    write_line(&[kind, 0], &[], buffer)
}

/// Writes the report line of a refused frame.
pub fn write_refused(refused: &Refused, buffer: &mut [u8]) -> Option<usize>
    ensures { Printed (refused_bytes refused.now) buffer.old buffer.new result }
{
    let [high, low] = refused.line.to_be_bytes();
    let head = [refused.kind, refused.refusal, refused.layer, high, low];
    match refused.added {
        None => write_line(&head, &[], buffer),
        Some(Added::Set(facts)) => write_line(&head, &facts.to_be_bytes(), buffer),
        Some(Added::SetAndMark(facts, mark)) => {
            let [a, b, c, d] = facts.to_be_bytes();
            write_line(&head, &[a, b, c, d, mark], buffer)
        }
    }
}

/// Writes the report line of an accepted find: the set, how many facts it has, and the places of
/// the plan, of which a line can count 65,535.
pub fn write_found(facts: u32, size: u8, places: &[u8], buffer: &mut [u8]) -> Option<usize>
    ensures printed { length places.now < 65536
        → Printed (found_bytes facts size places.now) buffer.old buffer.new result }
    ensures uncounted { 65536 ≤ length places.now → (result ≡ None) × (buffer.new ≡ buffer.old) }
{
    let count = u16::try_from(places.len()).ok()?;
    let [a, b, c, d] = facts.to_be_bytes();
    let [high, low] = count.to_be_bytes();
    write_line(
        &[u8::from(Kind::Find), 0, a, b, c, d, size, high, low],
        places,
        buffer,
    )
}
