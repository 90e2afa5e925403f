//! The lines of a text. Only the line feed separates lines; every other byte is a character of its
//! line.

ghost use Rattle.std.specs.Prelude.{◌≡◌, ◌≤◌, length, MatchOption};
ghost use Rattle.frames.specs.Texts.{LineAt};

/// The line that begins at `position`, without its line feed, and the position after it. There is
/// none at the end of the text and past it.
pub fn next_line(text: &[u8], position: usize) -> Option<(&[u8], usize)>
    ensures { MatchOption result (length text.now ≤ position)
        (λ x. LineAt text.now position x.0.now x.1) }
{
    if position >= text.len() {
        return None;
    }
    let rest = &text[position..];
    match rest.iter().position(|byte| *byte == b'\n') {
        Some(length) => Some((&rest[..length], position + length + 1)),
        None => Some((rest, text.len())),
    }
}
