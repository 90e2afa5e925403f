//! The 64 step places of a case.

ghost use Rattle.std.specs.Prelude.{◌≡◌, length, replicate, Some, None, slice_index_or, slice_set};
ghost use Rattle.rules.specs.Refusals.{unless_refused};
ghost use Rattle.rules.specs.Places.{AllClear, put_refusal, clear_refusal};

use crate::refusal::Refusal;
use crate::step::Step;
use std::marker::Model;

/// As many places as a case has.
pub const PLACES: u8 = 64;

/// The step places, numbered from 0. No step in them gives a fact that it takes.
#[derive(Drop)]
pub struct StepTable {
    places: [Option<Step>; 64],
}

impl Model for StepTable {
    ghost use Rattle.std.specs.Prelude.{◌≡◌, List, Option, length};
    ghost use Rattle.rules.specs.Steps.{Step as TheStep};
    ghost use Rattle.rules.specs.Places.{AllClear};

    ghost Value = { List (Option TheStep) };

    ghost view = { λ t. t.places };

    ghost invariant = { λ t. (length t.places ≡ 64) × AllClear t.places };
}

impl StepTable {
    /// A table of empty places.
    pub fn new() -> StepTable
        ensures empty { result ≡ replicate 64 None }
        ensures count { length result ≡ 64 }
        ensures clear { AllClear result }
    {
        StepTable { places: [None; 64] }
    }

    /// What each place holds.
    pub fn places(&self) -> &[Option<Step>]
        ensures same { result.now ≡ self.now }
        ensures count { length result.now ≡ 64 }
        ensures clear { AllClear result.now }
    {
        &self.places
    }

    /// The step at a place, if there is one.
    pub fn get(&self, place: u8) -> Option<Step>
        ensures { result ≡ slice_index_or self.now place None }
    {
        *self.places.get(usize::from(place))?
    }

    /// Fills an empty place. The other 63 places keep their steps. Refused: `NoSuchPlace`,
    /// `PlaceTaken`.
    pub fn put(&mut self, place: u8, step: Step) -> Result<(), Refusal>
        ensures answer { result ≡ put_refusal self.old place }
        ensures after { self.new
            ≡ unless_refused result (λ ts. slice_set ts place (Some step)) self.old }
        ensures count { length self.new ≡ 64 }
        ensures clear { AllClear self.new }
    {
        // what is always so of table and step is known once they are opened
        let _ = &self.places;
        let _ = &step.gives;
        if place >= PLACES {
            return Err(Refusal::NoSuchPlace);
        }
        if self.get(place).is_some() {
            return Err(Refusal::PlaceTaken);
        }
        self.places[usize::from(place)] = Some(step);
        Ok(())
    }

    /// Empties a place that holds a step. The other 63 places keep their steps. Refused:
    /// `NoSuchPlace`, `PlaceEmpty`.
    pub fn clear(&mut self, place: u8) -> Result<(), Refusal>
        ensures answer { result ≡ clear_refusal self.old place }
        ensures after { self.new ≡ unless_refused result (λ ts. slice_set ts place None) self.old }
        ensures count { length self.new ≡ 64 }
        ensures clear { AllClear self.new }
    {
        let _ = &self.places; // what is always so of the table is known once it is opened
        if place >= PLACES {
            return Err(Refusal::NoSuchPlace);
        }
        if self.get(place).is_none() {
            return Err(Refusal::PlaceEmpty);
        }
        self.places[usize::from(place)] = None;
        Ok(())
    }
}
