//! Lists of calls, made one after another on a fresh case.

ghost use Rattle.std.specs.Prelude.{◌≡◌, ◌≢◌, List, Some, MatchResult, IfOk};
ghost use Rattle.deciders.specs.Reaching.{SameReach};
ghost use Rattle.waivers.specs.Known.{Listed, WellKept};
ghost use Rattle.cases.specs.State.{known_of};
ghost use Rattle.cases.specs.Calls.{Entry, entry_of, Recorded};
ghost use Rattle.cases.specs.Slips.{InHand};
ghost use Rattle.cases.specs.Making.{Draws, Signs, Tears, Makes};
ghost use Rattle.cases.specs.Law.{Law};

use crate::call::{Answer, Call};
use crate::case::Case;
use crate::slip::{Slip, SlipData};
use deciders::Decider;
use pickers::Picker;
use rules::Refusal;
use std::alloc::{AllocFailed, Global};

/// What a list of calls comes to: what each call answered, the case then, and its slip where one is
/// out.
pub struct Outcome {
    pub answers: Vec<Answer>,
    pub case: Case,
    pub slip: Option<Slip>,
}

/// Draws a slip. While one is in hand the case refuses, and no other is drawn.
fn draw(case: &mut Case, in_hand: Option<Slip>) -> (Result<SlipData, Refusal>, Option<Slip>)
    requires { InHand case.old.plain in_hand }
    ensures draws { Draws case.old result.0 case.new }
    ensures in_hand { InHand case.new.plain result.1 }
{
    if let Some(slip) = in_hand {
        return (Err(Refusal::SlipOut), Some(slip));
    }
    match case.draw() {
        Ok(slip) => (Ok(slip.content()), Some(slip)),
        Err(refusal) => (Err(refusal), None),
    }
}

/// The slip in hand, if it says this; else what is in hand stays there.
fn take(in_hand: Option<Slip>, content: SlipData) -> Result<Slip, Option<Slip>>
    ensures { MatchResult result
        (λ slip. (slip ≡ content) × (in_hand ≡ Some content))
        (λ left. (left ≡ in_hand) × (in_hand ≢ Some content)) }
{
    match in_hand {
        Some(slip) => {
            if slip.content() == content {
                Ok(slip)
            } else {
                Err(Some(slip))
            }
        }
        None => Err(None),
    }
}

/// Signs the slip in hand, if it says this. What says anything else is not the slip that is out,
/// and the case refuses it.
fn sign(
    case: &mut Case,
    in_hand: Option<Slip>,
    content: SlipData,
) -> (Result<(), Refusal>, Option<Slip>)
    requires { InHand case.old.plain in_hand }
    ensures signs { Signs content case.old result.0 case.new }
    ensures in_hand { InHand case.new.plain result.1 }
{
    match take(in_hand, content) {
        Err(in_hand) => (case.check_slip(content), in_hand),
        Ok(slip) => match case.sign(slip) {
            Ok(()) => (Ok(()), None),
            Err((slip, refusal)) => (Err(refusal), Some(slip)),
        },
    }
}

/// Tears the slip in hand, if it says this. What says anything else is not the slip that is out,
/// and the case refuses it.
fn tear(
    case: &mut Case,
    in_hand: Option<Slip>,
    content: SlipData,
) -> (Result<(), Refusal>, Option<Slip>)
    requires { InHand case.old.plain in_hand }
    ensures tears { Tears content case.old result.0 case.new }
    ensures in_hand { InHand case.new.plain result.1 }
{
    match take(in_hand, content) {
        Err(in_hand) => (case.check_slip(content), in_hand),
        Ok(slip) => match case.tear(slip) {
            Ok(()) => (Ok(()), None),
            Err((slip, refusal)) => (Err(refusal), Some(slip)),
        },
    }
}

/// Makes one call. The slip that is out, if one is, comes in hand and goes on in hand.
fn make<D: Decider, P: Picker>(
    case: &mut Case,
    in_hand: Option<Slip>,
    decider: &mut D,
    picker: &P,
    call: Call,
) -> (Answer, Option<Slip>)
    requires { InHand case.old.plain in_hand }
    ensures makes { (e : Entry) × (entry_of call result.0 ≡ Some e)
        × Makes (P.choice picker.now) (D.reach decider.old) D.MARK
        case.old e.asked e.answered case.new }
    ensures in_hand { InHand case.new.plain result.1 }
    ensures same { SameReach (D.reach decider.old) (D.reach decider.new) }
{
    match call {
        Call::Open {
            number,
            n,
            standing,
            order,
        } => (Answer::Done(case.open(number, n, standing, order)), in_hand),
        Call::Change(change) => (Answer::Done(case.change(change)), in_hand),
        Call::Find {
            mut sheet,
            mut book,
        } => {
            let result = case.find(decider, picker, sheet.as_mut_slice(), book.as_mut_slice());
            let found = Answer::Found {
                result,
                sheet,
                book,
            };
            (found, in_hand)
        }
        Call::Draw => {
            let (drawn, in_hand) = draw(case, in_hand);
            (Answer::Drawn(drawn), in_hand)
        }
        Call::Sign(content) => {
            let (signed, in_hand) = sign(case, in_hand, content);
            (Answer::Done(signed), in_hand)
        }
        Call::Tear(content) => {
            let (torn, in_hand) = tear(case, in_hand, content);
            (Answer::Done(torn), in_hand)
        }
    }
}

/// Makes the calls in turn on a fresh case, refused or not, and hands back the answers, with the
/// buffers of every find, the case, and its slip where one is out. Sign and tear are made with the
/// slip that was drawn, if it says what they bring; else they are refused.
///
/// All memory is reserved before the first call. Where there is none, no call is made, and the list
/// is handed back. Whether there is, no contract says.
pub fn run<D: Decider, P: Picker>(
    heap: Global,
    decider: &mut D,
    picker: &P,
    calls: Vec<Call>,
) -> Result<Outcome, AllocFailed<Vec<Call>>>
    ensures law { MatchResult result
        (λ r. (es : List Entry) × Recorded calls.items r.answers.items es
        × Law (P.choice picker.now) D.reach D.MARK decider.old es decider.new r.case)
        (λ e. (e.value ≡ calls) × (decider.new ≡ decider.old)) }
    ensures slip { IfOk result (λ r. InHand r.case.plain r.slip) }
    ensures kept { IfOk result (λ r. WellKept (known_of r.case)) }
    ensures same { SameReach (D.reach decider.old) (D.reach decider.new) }
{
    let (Ok(mut case), Ok(mut answers)) = (Case::new(heap), Vec::with_capacity(heap, calls.len()))
    else {
        return Err(AllocFailed { value: calls });
    };
    let mut slip = None;
    // A loop, since the law is its invariant.
    for call in calls {
        let (answer, in_hand) = make(&mut case, slip, decider, picker, call);
        slip = in_hand;
        answers.push_reserved(answer);
    }
    let _ = case.problem(); // says what is always so of the case
    Ok(Outcome {
        answers,
        case,
        slip,
    })
}
