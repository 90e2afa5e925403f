//! Why a line of a case file is refused, why no line of a text is read, and why a text is not
//! served.

ghost use Rattle.std.specs.Prelude.{◌≡◌};
ghost use Rattle.casefile.specs.declared.fault.LineFault.TheVariants.{Frame as OfFrame, Case as OfCase, Finder as OfFinder};
ghost use Rattle.casefile.specs.declared.fault.ServeFault.TheVariants.{Unread as OfUnread, Output as OfOutput};
ghost use Rattle.frames.specs.Reports.{Printed};
ghost use Rattle.casefile.specs.Faults.{report_of, unread_report, too_long_bytes, report_length as length_of};

use deciders::DeciderFault;
use frames::{Added, FrameFault, Refused, write_refused};
use rules::{Layer, Refusal};
use std::io;
use thiserror::Error;
use waivers::FinderFault;

/// Why a line is refused. The fault of a layer below is kept whole.
#[derive(Clone, Copy, PartialEq, Eq, Debug)]
pub enum LineFault {
    /// The line holds no frame.
    Frame(FrameFault),
    /// The case refuses the call.
    Case(Refusal),
    /// Find is refused, or ends without a set.
    Finder(FinderFault),
}

impl LineFault {
    /// The fault's number in report lines.
    pub fn number(&self) -> u8
        ensures { result ≡ (report_of self.now).refusal }
    {
        // A variant that holds a value has no discriminant to cast.
        match self {
            LineFault::Frame(fault) => fault.number(),
            LineFault::Case(refusal) => refusal.number(),
            LineFault::Finder(fault) => fault.number(),
        }
    }

    /// The layer that the fault comes from.
    pub fn layer(&self) -> Layer
        ensures { result ≡ (report_of self.now).layer }
    {
        match self {
            LineFault::Frame(_) => Layer::Reader,
            LineFault::Case(_) => Layer::Case,
            LineFault::Finder(fault) => fault.layer(),
        }
    }

    /// What the fault adds to its report line.
    pub fn added(&self) -> Option<Added>
        ensures { result ≡ (report_of self.now).added }
    {
        let LineFault::Finder(fault) = self else {
            return None;
        };
        match fault {
            FinderFault::Decider(DeciderFault::BeyondReach { set, mark }) => {
                Some(Added::SetAndMark(*set, *mark))
            }
            FinderFault::ListFull(set) => Some(Added::Set(*set)),
            _ => None,
        }
    }
}

/// Why no line of a text is read.
#[derive(Clone, Copy, PartialEq, Eq, Debug, Error)]
pub enum ReadFault {
    /// The text has more than 16,384 bytes.
    #[error("the text has more than 16,384 bytes")]
    TextTooLong,
    /// The report buffer has fewer than 8,209 bytes.
    #[error("the report buffer has fewer than 8,209 bytes")]
    BufferTooShort,
}

impl ReadFault {
    /// The fault's number.
    pub fn number(&self) -> u8
        ensures { result ≡ (unread_report self.now).refusal }
    {
        match self {
            ReadFault::BufferTooShort => 18,
            ReadFault::TextTooLong => 19,
        }
    }

    /// The layer that the fault comes from.
    pub fn layer(&self) -> Layer
        ensures { result ≡ (unread_report self.now).layer }
    {
        match self {
            ReadFault::BufferTooShort => Layer::Finder,
            ReadFault::TextTooLong => Layer::Reader,
        }
    }

    /// How many bytes the report line has that the fault leaves at the front of the buffer: 11
    /// where the text is too long, and 0 where the buffer is too short.
    pub fn report_length(&self) -> usize
        ensures { result ≡ length_of self.now }
    {
        match self {
            ReadFault::BufferTooShort => 0,
            ReadFault::TextTooLong => 11,
        }
    }
}

/// Writes the one report line of a text that is too long to the front of the buffer, and says how
/// long it is. It is of no line, so kind and line are 0.
pub(crate) fn report_too_long(buffer: &mut [u8]) -> Option<usize>
    ensures { Printed too_long_bytes buffer.old buffer.new result }
{
    let fault = ReadFault::TextTooLong;
    let refused = Refused {
        kind: 0,
        refusal: fault.number(),
        layer: u8::from(fault.layer()),
        line: 0,
        added: None,
    };
    write_refused(&refused, buffer)
}

/// Why a text is not served to its end.
#[derive(Debug, Drop, Error)]
pub enum ServeFault {
    /// No line is read.
    #[error("{0}")]
    Unread(ReadFault),
    /// The report can't be written.
    #[error("{0}")]
    Output(io::Error),
}

// By hand, here and below, since the contracts say which fault a `?` makes, and a derive would not.
impl From<FrameFault> for LineFault {
    ghost from_gives = { λ e r. r ≡ OfFrame e };

    fn from(fault: FrameFault) -> LineFault {
        LineFault::Frame(fault)
    }
}

impl From<Refusal> for LineFault {
    ghost from_gives = { λ e r. r ≡ OfCase e };

    fn from(refusal: Refusal) -> LineFault {
        LineFault::Case(refusal)
    }
}

impl From<FinderFault> for LineFault {
    ghost from_gives = { λ e r. r ≡ OfFinder e };

    fn from(fault: FinderFault) -> LineFault {
        LineFault::Finder(fault)
    }
}

impl From<ReadFault> for ServeFault {
    ghost from_gives = { λ e r. r ≡ OfUnread e };

    fn from(fault: ReadFault) -> ServeFault {
        ServeFault::Unread(fault)
    }
}

impl From<io::Error> for ServeFault {
    ghost from_gives = { λ e r. r ≡ OfOutput e };

    fn from(fault: io::Error) -> ServeFault {
        ServeFault::Output(fault)
    }
}
