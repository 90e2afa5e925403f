//! Numbers of several bytes, which have their most significant byte first.

ghost use Rattle.std.specs.Prelude.{◌≡◌, ◌<◌, ◌++◌, length, MatchOption};
ghost use Rattle.frames.specs.Numbers.{word_bytes};

/// The number in the first four bytes, and the bytes after it.
pub(crate) fn word(bytes: &[u8]) -> Option<(u32, &[u8])>
    ensures { MatchOption result (length bytes.now < 4)
        (λ x. word_bytes x.0 ++ x.1.now ≡ bytes.now) }
{
    let (word, rest) = bytes.split_first_chunk::<4>()?;
    Some((u32::from_be_bytes(*word), rest))
}
