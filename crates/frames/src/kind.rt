//! The kinds of frames, each with the byte that begins its frames.

ghost use Rattle.std.specs.Prelude.{◌≡◌};
ghost use Rattle.frames.specs.Kinds.{kind_byte, Decodes};

/// What a frame is for. The discriminant is the frame's first byte.
#[derive(Clone, Copy, PartialEq, Eq, Debug)]
pub enum Kind {
    Open = 0x01,
    Put = 0x02,
    Grant = 0x03,
    Lapse = 0x04,
    Order = 0x05,
    Cancel = 0x06,
    Withdraw = 0x07,
    Carry = 0x08,
    Find = 0x09,
    DrawAndSign = 0x0A,
}

/// A byte that begins no frame.
#[derive(Clone, Copy, PartialEq, Eq, Debug)]
pub struct UnknownKind(pub u8);

impl From<Kind> for u8 {
    ghost from_gives = { λ kind byte. byte ≡ kind_byte kind };

    fn from(kind: Kind) -> u8 {
        kind as u8
    }
}

impl TryFrom<u8> for Kind {
    type Error = UnknownKind;

    ghost try_from_gives = { Decodes };

    fn try_from(byte: u8) -> Result<Kind, UnknownKind> {
        match byte {
            0x01 => Ok(Kind::Open),
            0x02 => Ok(Kind::Put),
            0x03 => Ok(Kind::Grant),
            0x04 => Ok(Kind::Lapse),
            0x05 => Ok(Kind::Order),
            0x06 => Ok(Kind::Cancel),
            0x07 => Ok(Kind::Withdraw),
            0x08 => Ok(Kind::Carry),
            0x09 => Ok(Kind::Find),
            0x0A => Ok(Kind::DrawAndSign),
            _ => Err(UnknownKind(byte)),
        }
    }
}
