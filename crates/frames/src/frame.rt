//! Frames: what one line of a case file says, and why a line may say nothing.

ghost use Rattle.std.specs.Prelude.{◌≡◌, ℕ, ◌≢◌, List, [], ◌∷◌, length, MatchOption};
ghost use Rattle.frames.specs.declared.frame.FrameFault.TheVariants.{UnknownKind as OfUnknownKind};
ghost use Rattle.frames.specs.Digits.{Pair, Spells};
ghost use Rattle.frames.specs.Frames.{frame_kind, bytes_of, fault_kind, fault_number};
ghost use Rattle.frames.specs.Frames.{NoneOfLength, Means, Reads, Decoded};
ghost use Rattle.frames.specs.Kinds.{kind_byte};
ghost use Rattle.frames.specs.Numbers.{word_bytes};

use crate::digits::digit;
use crate::kind::{Kind, UnknownKind};
use crate::numbers::word;
use arrayvec::ArrayVec;

/// What a line asks of the case.
#[derive(Clone, Copy, PartialEq, Eq, Debug)]
pub enum Frame {
    Open {
        number: u32,
        n: u8,
        standing: u32,
        order: u32,
    },
    Put {
        place: u8,
        needs: u32,
        gives: u32,
        takes: u32,
    },
    Grant(u32),
    Lapse(u32),
    Order(u32),
    Cancel(u32),
    Withdraw(u8),
    Carry(u8),
    Find,
    DrawAndSign,
}

/// Why a line is no frame.
#[derive(Clone, Copy, PartialEq, Eq, Debug)]
pub enum FrameFault {
    /// The line is empty, has an odd number of digits or another character.
    Malformed,
    /// The first byte is no kind.
    UnknownKind(u8),
    /// The first byte is a kind, and the line has another length than its frames.
    WrongLength(u8),
}

impl Frame {
    /// What kind of frame it is.
    pub fn kind(&self) -> Kind
        ensures { result ≡ frame_kind self.now }
    {
        match self {
            Frame::Open { .. } => Kind::Open,
            Frame::Put { .. } => Kind::Put,
            Frame::Grant(_) => Kind::Grant,
            Frame::Lapse(_) => Kind::Lapse,
            Frame::Order(_) => Kind::Order,
            Frame::Cancel(_) => Kind::Cancel,
            Frame::Withdraw(_) => Kind::Withdraw,
            Frame::Carry(_) => Kind::Carry,
            Frame::Find => Kind::Find,
            Frame::DrawAndSign => Kind::DrawAndSign,
        }
    }
}

impl FrameFault {
    /// The kind that a report gives for the line: 0 where none could be read.
    pub fn kind(&self) -> u8
        ensures { result ≡ fault_kind self.now }
    {
        // A byte, since an unknown kind is reported by the byte that was read, and Kind would ask
        // more of who makes a fault.
        match self {
            FrameFault::Malformed => 0,
            FrameFault::UnknownKind(byte) | FrameFault::WrongLength(byte) => *byte,
        }
    }

    /// The number of the refusal.
    pub fn number(&self) -> u8
        ensures { result ≡ fault_number self.now }
    {
        // A variant that holds a value has no discriminant to cast.
        match self {
            FrameFault::Malformed => 1,
            FrameFault::UnknownKind(_) => 2,
            FrameFault::WrongLength(_) => 3,
        }
    }
}

impl From<UnknownKind> for FrameFault {
    ghost from_gives = { λ e r. r ≡ OfUnknownKind e.0 };

    fn from(fault: UnknownKind) -> FrameFault {
        FrameFault::UnknownKind(fault.0)
    }
}

/// The number that makes up the whole rest of a frame.
fn only_word(rest: &[u8]) -> Option<u32>
    ensures { MatchOption result (length rest.now ≢ 4) (λ n. word_bytes n ≡ rest.now) }
{
    match word(rest)? {
        (number, []) => Some(number),
        _ => None,
    }
}

/// The byte that makes up the whole rest of a frame.
fn only_byte(rest: &[u8]) -> Option<u8>
    ensures { MatchOption result (length rest.now ≢ 1) (λ b. b ∷ [] ≡ rest.now) }
{
    match rest {
        [byte] => Some(*byte),
        _ => None,
    }
}

/// The fields of a frame that opens a case.
fn open(rest: &[u8]) -> Option<Frame>
    ensures { MatchOption result (length rest.now ≢ 13) (λ f. bytes_of f ≡ 1 ∷ rest.now) }
{
    let (number, rest) = word(rest)?;
    let [n, rest @ ..] = rest else {
        return None;
    };
    let (standing, rest) = word(rest)?;
    let order = only_word(rest)?;
    Some(Frame::Open {
        number,
        n: *n,
        standing,
        order,
    })
}

/// The fields of a frame that puts a step into a place.
fn put(rest: &[u8]) -> Option<Frame>
    ensures { MatchOption result (length rest.now ≢ 13) (λ f. bytes_of f ≡ 2 ∷ rest.now) }
{
    let [place, rest @ ..] = rest else {
        return None;
    };
    let (needs, rest) = word(rest)?;
    let (gives, rest) = word(rest)?;
    let takes = only_word(rest)?;
    Some(Frame::Put {
        place: *place,
        needs,
        gives,
        takes,
    })
}

/// The frame of this kind with these bytes for its fields.
fn frame_of_kind(kind: Kind, rest: &[u8]) -> Option<Frame>
    ensures { let bytes = kind_byte kind ∷ rest.now in
        MatchOption result (NoneOfLength (kind_byte kind) (length bytes))
        (λ f. bytes_of f ≡ bytes) }
{
    match kind {
        Kind::Open => open(rest),
        Kind::Put => put(rest),
        Kind::Grant => only_word(rest).map(Frame::Grant),
        Kind::Lapse => only_word(rest).map(Frame::Lapse),
        Kind::Order => only_word(rest).map(Frame::Order),
        Kind::Cancel => only_word(rest).map(Frame::Cancel),
        Kind::Withdraw => only_byte(rest).map(Frame::Withdraw),
        Kind::Carry => only_byte(rest).map(Frame::Carry),
        Kind::Find => rest.is_empty().then_some(Frame::Find),
        Kind::DrawAndSign => rest.is_empty().then_some(Frame::DrawAndSign),
    }
}

/// What the bytes of a line say.
fn frame_of(bytes: &[u8]) -> Result<Frame, FrameFault>
    ensures { Means bytes.now result }
{
    let [byte, rest @ ..] = bytes else {
        return Err(FrameFault::Malformed);
    };
    let kind = Kind::try_from(*byte)?;
    frame_of_kind(kind, rest).ok_or(FrameFault::WrongLength(*byte))
}

/// The byte that two digits stand for.
fn pair(high: u8, low: u8) -> Option<u8>
    ensures { MatchOption result ((b : ℕ) → ¬ Pair high low b) (Pair high low) }
{
    Some(digit(high)? * 16 + digit(low)?)
}

/// The bytes of the longest frame and one more: a line that fills this much is too long for every
/// kind.
const ROOM: usize = 15;

/// The first bytes that a line spells. Each digit of the line is read, and the bytes past the room
/// are left out.
fn decode(line: &[u8]) -> Option<ArrayVec<u8, ROOM>>
    ensures { MatchOption result ((bytes : List ℕ) → ¬ Spells line.now bytes)
        (λ front. Decoded line.now front.items) }
{
    let (pairs, []) = line.as_chunks::<2>() else {
        return None;
    };
    let mut bytes = ArrayVec::new();
    for [high, low] in pairs {
        let byte = pair(*high, *low)?;
        if !bytes.is_full() {
            bytes.push(byte);
        }
    }
    Some(bytes)
}

/// What a line says, or why it says nothing. A line has any length and any bytes.
pub fn read_frame(line: &[u8]) -> Result<Frame, FrameFault>
    ensures { Reads line.now result }
{
    let bytes = decode(line).ok_or(FrameFault::Malformed)?;
    frame_of(&bytes)
}
