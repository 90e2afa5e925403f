//! What a frame asks of a case.

ghost use Rattle.std.specs.Prelude.{◌≡◌};
ghost use Rattle.casefile.specs.Serving.{request_of};

use frames::Frame;
use rules::Facts;
use waivers::Change;

/// What a frame asks of a case: one of the calls that change what is planned over, or a call of its
/// own kind.
#[derive(Clone, Copy, PartialEq, Eq, Debug)]
pub(crate) enum Request {
    Open {
        number: u32,
        n: u8,
        standing: Facts,
        order: Facts,
    },
    Change(Change),
    Find,
    DrawAndSign,
}

/// What the frame asks for.
pub(crate) fn asked_by(frame: &Frame) -> Request
    ensures { result ≡ request_of frame.now }
{
    match *frame {
        Frame::Open {
            number,
            n,
            standing,
            order,
        } => Request::Open {
            number,
            n,
            standing,
            order,
        },
        Frame::Put {
            place,
            needs,
            gives,
            takes,
        } => Request::Change(Change::Put {
            place,
            needs,
            gives,
            takes,
        }),
        Frame::Grant(set) => Request::Change(Change::Grant(set)),
        Frame::Lapse(set) => Request::Change(Change::Lapse(set)),
        Frame::Order(set) => Request::Change(Change::Order(set)),
        Frame::Cancel(set) => Request::Change(Change::Cancel(set)),
        Frame::Withdraw(place) => Request::Change(Change::Withdraw(place)),
        Frame::Carry(place) => Request::Change(Change::Carry(place)),
        Frame::Find => Request::Find,
        Frame::DrawAndSign => Request::DrawAndSign,
    }
}
