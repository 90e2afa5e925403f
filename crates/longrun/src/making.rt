//! Calls, each made in one line.

ghost use Rattle.std.specs.Prelude.{◌≡◌};
ghost use Rattle.cases.specs.declared.call.Call.TheVariants.{Open as OfOpen, Change as OfChange, Sign as OfSign, Tear as OfTear};
ghost use Rattle.waivers.specs.declared.change.Change.TheVariants.{Put as OfPut};

use cases::{Call, SlipData};
use deciders::Row;
use rules::Facts;
use std::alloc::{AllocError, Global};
use waivers::Change;

pub(crate) fn open(number: u32, n: u8, standing: Facts, order: Facts) -> Call
    ensures { result ≡ OfOpen number n standing order }
{
    Call::Open {
        number,
        n,
        standing,
        order,
    }
}

/// A call that changes what is planned over.
pub(crate) fn change(change: Change) -> Call
    ensures { result ≡ OfChange change }
{
    Call::Change(change)
}

pub(crate) fn put(place: u8, needs: Facts, gives: Facts, takes: Facts) -> Call
    ensures { result ≡ OfChange (OfPut place needs gives takes) }
{
    change(Change::Put {
        place,
        needs,
        gives,
        takes,
    })
}

/// Find on a sheet of `rows` rows and a book of `places` places.
pub(crate) fn find(heap: Global, rows: usize, places: usize) -> Result<Call, AllocError> {
    let sheet = vec![in heap; Row::default(); rows]?;
    let book = vec![in heap; 0u8; places]?;
    Ok(Call::Find { sheet, book })
}

pub(crate) fn sign(number: u32, set: Facts) -> Call
    ensures { result ≡ OfSign (record { number = number; «set» = «set» }) }
{
    Call::Sign(SlipData { number, set })
}

pub(crate) fn tear(number: u32, set: Facts) -> Call
    ensures { result ≡ OfTear (record { number = number; «set» = «set» }) }
{
    Call::Tear(SlipData { number, set })
}
