//! A case: how it is made and opened, its calls and its plan check, and what a host may look at.

ghost use Rattle.std.specs.Prelude.{◌≡◌, ℕ, length, Ok, IsOk, IfOk, IfErr};
ghost use Rattle.rules.specs.Planning.{Solvable};
ghost use Rattle.deciders.specs.Reaching.{SameReach};
ghost use Rattle.waivers.specs.Known.{Listed, WellKept};
ghost use Rattle.cases.specs.Calls.{Signing, Tearing};
ghost use Rattle.cases.specs.Refusing.{opened_refusal, usable_refusal, case_refusal};
ghost use Rattle.cases.specs.Slips.{decision_of, Accepts};
ghost use Rattle.cases.specs.State.{fresh, known_of, state_signed};
ghost use Rattle.cases.specs.Finding.{Finds};
ghost use Rattle.cases.specs.Checks.{PlanChecked};
ghost use Rattle.cases.specs.Making.{Opens, Changes, Draws, Signs, Tears, DrawsAndSigns};

use crate::slip::{Slip, SlipData};
use deciders::{Decider, Row, check_sizes};
use pickers::Picker;
use rules::{Facts, PlanCheck, Problem, Refusal, size};
use std::alloc::{AllocError, Global};
use std::marker::Model;
use waivers::{Change, FinderFault, KnownGroups};

/// A studio's case: its number, its problem with the groups that are known of it, the set that find
/// found last, and whether a slip is out. A case whose problem has no facts is unopened. What was
/// found is a good set of the case as it stands, and each set in its list is a group of it.
// The finding is an Option by a rule of the project, and the flag beside it, and no facts for
// unopened, are those of the plain case.
#[derive(Drop)]
pub struct Case {
    number: u32,
    known: KnownGroups,
    finding: Option<Facts>,
    slip_out: bool,
}

impl Model for Case {
    ghost use Rattle.cases.specs.State.{State, SoundCase};

    ghost Value = { State };

    ghost view = { λ k. record {
      plain = record {
        number = k.number;
        task = k.known.task;
        finding = k.finding;
        slip_out = k.slip_out;
      };
      groups = k.known.groups;
    } };

    ghost invariant = { λ k. SoundCase k.finding k.known };
}

impl Case {
    /// A fresh case, unopened. It reserves the room for its group list, so that no later call needs
    /// memory.
    ///
    /// Fails where there is no memory.
    pub fn new(heap: Global) -> Result<Case, AllocError>
        ensures { IfOk result (λ k. k ≡ fresh) }
    {
        let known = KnownGroups::new(heap)?;
        Ok(Case {
            number: 0,
            known,
            finding: None,
            slip_out: false,
        })
    }

    /// The number that the case was opened with; 0 where it is unopened.
    pub fn number(&self) -> u32
        ensures { result ≡ self.now.plain.number }
    {
        self.number // as it was opened
    }

    /// The problem that is planned over: its number of facts (0 where the case is unopened), its
    /// sets, one bit a fact, and its 64 places of steps.
    pub fn problem(&self) -> &Problem
        ensures same { result.now ≡ self.now.plain.task }
        ensures kept { WellKept (known_of self.now) }
    {
        self.known.problem()
    }

    /// The set that find found last, one bit a fact, if the case still has a finding.
    pub fn finding(&self) -> Option<Facts>
        ensures { result ≡ self.now.plain.finding }
    {
        self.finding // none once the case has changed
    }

    /// Whether a slip is out, which has to be signed or torn.
    pub fn is_slip_out(&self) -> bool
        ensures { result ≡ self.now.plain.slip_out }
    {
        self.slip_out // until it is signed or torn
    }

    /// The groups that are known of the case as it stands, one bit a fact, in the order in which
    /// they were found: 64 at most.
    pub fn groups(&self) -> &[Facts]
        ensures same { result.now ≡ self.now.groups }
        ensures listed { Listed (known_of self.now) }
    {
        self.known.groups()
    }

    /// Refuses an unopened case.
    fn check_open(&self) -> Result<(), Refusal>
        ensures open { result ≡ opened_refusal self.now.plain }
        ensures kept { WellKept (known_of self.now) }
    {
        if self.known.problem().n == 0 {
            return Err(Refusal::Unopened);
        }
        Ok(())
    }

    /// Refuses an unopened case, and one of which a slip is out.
    fn check_usable(&self) -> Result<(), Refusal>
        ensures usable { result ≡ usable_refusal self.now.plain }
        ensures kept { WellKept (known_of self.now) }
    {
        self.check_open()?;
        if self.slip_out {
            return Err(Refusal::SlipOut);
        }
        Ok(())
    }

    /// Opens the case: sets its number, the number of facts, the standing and the order. Refused:
    /// `AlreadyOpen`, `FactCount`, `UnknownFact`.
    ///
    /// The host gives open cases different numbers: a slip is told by its case's number and its
    /// set, and no case knows of another (docs/SLIPS.md).
    pub fn open(&mut self, number: u32, n: u8, standing: Facts, order: Facts) -> Result<(), Refusal>
        ensures opens { Opens number n standing order self.old result self.new }
        ensures kept { WellKept (known_of self.new) }
    {
        if self.problem().n != 0 {
            return Err(Refusal::AlreadyOpen);
        }
        self.known.open(n, standing, order)?;
        self.number = number;
        self.finding = None; // nothing was sought yet
        Ok(())
    }

    /// Makes a change of an opened case of which no slip is out. What was found before it is
    /// forgotten.
    ///
    /// Refused: `Unopened`, `SlipOut`, then as the change is. A refusal changes nothing, here and
    /// below.
    pub fn change(&mut self, change: Change) -> Result<(), Refusal>
        ensures changes { Changes change self.old result self.new }
        ensures kept { WellKept (known_of self.new) }
    {
        self.check_usable()?; // a slip that is out was drawn for the case as it is
        self.known.change(change)?;
        self.finding = None; // it was found before the change
        Ok(())
    }

    /// Adds facts to the standing. Refused: `Unopened`, `SlipOut`, `UnknownFact`.
    pub fn grant(&mut self, set: Facts) -> Result<(), Refusal>
        ensures changes { Changes (Change.Grant «set») self.old result self.new }
        ensures kept { WellKept (known_of self.new) }
    {
        self.change(Change::Grant(set))
    }

    /// Removes facts from the standing. Refused: `Unopened`, `SlipOut`, `UnknownFact`.
    pub fn lapse(&mut self, set: Facts) -> Result<(), Refusal>
        ensures changes { Changes (Change.Lapse «set») self.old result self.new }
        ensures kept { WellKept (known_of self.new) }
    {
        self.change(Change::Lapse(set))
    }

    /// Puts a step of three sets into an empty place, numbered from 0 to 63. Refused: `Unopened`,
    /// `SlipOut`, `UnknownFact`, `GivesAndTakes`, `NoSuchPlace`, `PlaceTaken`.
    pub fn put(
        &mut self,
        place: u8,
        needs: Facts,
        gives: Facts,
        takes: Facts,
    ) -> Result<(), Refusal>
        ensures changes { Changes (Change.Put place needs gives takes) self.old result self.new }
        ensures kept { WellKept (known_of self.new) }
    {
        self.change(Change::Put {
            place,
            needs,
            gives,
            takes,
        })
    }

    /// Empties a place that holds a step. Refused: `Unopened`, `SlipOut`, `NoSuchPlace`,
    /// `PlaceEmpty`.
    pub fn withdraw(&mut self, place: u8) -> Result<(), Refusal>
        ensures changes { Changes (Change.Withdraw place) self.old result self.new }
        ensures kept { WellKept (known_of self.new) }
    {
        self.change(Change::Withdraw(place))
    }

    /// Does a step for good, if its needs outside the waived facts stand. Refused: `Unopened`,
    /// `SlipOut`, `NoSuchPlace`, `PlaceEmpty`, `NeedMissing`.
    pub fn carry(&mut self, place: u8) -> Result<(), Refusal>
        ensures changes { Changes (Change.Carry place) self.old result self.new }
        ensures kept { WellKept (known_of self.new) }
    {
        self.change(Change::Carry(place))
    }

    /// Adds facts to the order. Refused: `Unopened`, `SlipOut`, `UnknownFact`, `WaivedFact`.
    pub fn order(&mut self, set: Facts) -> Result<(), Refusal>
        ensures changes { Changes (Change.Order «set») self.old result self.new }
        ensures kept { WellKept (known_of self.new) }
    {
        self.change(Change::Order(set))
    }

    /// Removes facts from the order. Refused: `Unopened`, `SlipOut`, `UnknownFact`.
    pub fn cancel(&mut self, set: Facts) -> Result<(), Refusal>
        ensures changes { Changes (Change.Cancel «set») self.old result self.new }
        ensures kept { WellKept (known_of self.new) }
    {
        self.change(Change::Cancel(set))
    }

    /// A smallest set of waivable facts that leaves a solvable case when struck out: the set, its
    /// size, and the length of the plan that is then in the book. The case keeps the set as its
    /// finding. The size counts facts, the length places.
    ///
    /// Refused for the case (`FinderFault::Case`), or for sheet or book (`Size`), and then nothing
    /// changes. Ends without a set by `NoWaiver`, `Decider` or `ListFull`: then the finding is
    /// forgotten, and the groups that were entered stay. In all ends the rows are zero and the
    /// places of the book past the plan are 255.
    // Decider, picker, sheet and book are loans of their own, as in the search; a tuple for the
    // answer is a rule of the project.
    pub fn find<D: Decider, P: Picker>(
        &mut self,
        decider: &mut D,
        picker: &P,
        sheet: &mut [Row],
        book: &mut [u8],
    ) -> Result<(Facts, u8, u16), FinderFault>
        ensures finds { Finds (P.choice picker.now)
            (λ s. D.reach decider.old self.old.plain.task s (length sheet.old) (length book.old))
            D.MARK self.old sheet.old book.old
            (record { result = result; sheet = sheet.new; book = book.new }) self.new }
        ensures kept { WellKept (known_of self.new) }
        ensures same { SameReach (D.reach decider.old) (D.reach decider.new) }
    {
        self.check_usable()?;
        check_sizes(sheet.len(), book.len())?;
        match self.known.find_smallest(decider, picker, sheet, book) {
            Ok(found) => {
                self.finding = Some(found.set);
                Ok((found.set, size(found.set), found.length))
            }
            Err(fault) => {
                self.finding = None;
                Err(fault)
            }
        }
    }

    /// Draws a slip for the finding. While it is out, the case refuses every call but sign, tear
    /// and the plan check. Refused: `Unopened`, `SlipOut`, `NoFinding`.
    pub fn draw(&mut self) -> Result<Slip, Refusal>
        ensures draws { Draws self.old result self.new }
        ensures kept { WellKept (known_of self.new) }
        ensures accepted { IfOk result (λ slip. Accepts self.new.plain slip) }
    {
        self.check_usable()?;
        let finding = self.finding.filter(|set| *set != 0);
        let set = finding.ok_or(Refusal::NoFinding)?;
        self.slip_out = true;
        let content = SlipData {
            number: self.number,
            set,
        };
        Ok(Slip { content })
    }

    /// Refuses what is not said by the slip that is out.
    pub(crate) fn check_slip(&self, content: SlipData) -> Result<(), Refusal>
        ensures sign { result ≡ case_refusal self.now.plain (Signing content) }
        ensures tear { result ≡ case_refusal self.now.plain (Tearing content) }
        ensures kept { WellKept (known_of self.now) }
    {
        self.check_open()?;
        if self.slip_out && self.number == content.number && self.finding == Some(content.set) {
            Ok(())
        } else {
            Err(Refusal::WrongSlip)
        }
    }

    /// Uses up the slip that is out: its set is waived for good, the finding forgotten, and the
    /// group list emptied.
    fn waive(&mut self, slip: Slip)
        requires { Accepts self.old.plain slip }
        ensures after { self.new ≡ state_signed slip self.old }
        ensures plan { Solvable self.new.plain.task 0 }
        ensures kept { WellKept (known_of self.new) }
    {
        let Slip { content } = slip;
        self.known.waive(content.set);
        self.finding = None; // its facts are waivable no more
        self.slip_out = false;
    }

    /// Signs a slip: its set is waived, the finding is forgotten and the group list emptied, and
    /// the case has a plan. A refusal hands the slip back: `Unopened`, `WrongSlip`.
    pub fn sign(&mut self, slip: Slip) -> Result<(), (Slip, Refusal)>
        ensures signs { Signs slip self.old (decision_of result) self.new }
        ensures accepted { Accepts self.old.plain slip → IsOk result }
        ensures back { IfErr result (λ e. e.0 ≡ slip) }
        ensures kept { WellKept (known_of self.new) }
    {
        if let Err(refusal) = self.check_slip(slip.content) {
            return Err((slip, refusal));
        }
        self.waive(slip);
        Ok(())
    }

    /// Tears a slip: only that it is in changes. A refusal hands the slip back: `Unopened`,
    /// `WrongSlip`.
    pub fn tear(&mut self, slip: Slip) -> Result<(), (Slip, Refusal)>
        ensures tears { Tears slip self.old (decision_of result) self.new }
        ensures accepted { Accepts self.old.plain slip → IsOk result }
        ensures back { IfErr result (λ e. e.0 ≡ slip) }
        ensures kept { WellKept (known_of self.new) }
    {
        match self.check_slip(slip.content) {
            Err(refusal) => Err((slip, refusal)),
            Ok(()) => {
                let Slip { content: _ } = slip;
                self.slip_out = false;
                Ok(())
            }
        }
    }

    /// Draws a slip for the finding and signs it at once; the case has a plan then. Once it is
    /// drawn, it can't be refused. Refused: `Unopened`, `SlipOut`, `NoFinding`.
    pub fn draw_and_sign(&mut self) -> Result<(), Refusal>
        ensures both { DrawsAndSigns self.old result self.new }
        ensures plan { IfOk result (λ u. Solvable self.new.plain.task 0) }
        ensures kept { WellKept (known_of self.new) }
    {
        let slip = self.draw()?;
        self.waive(slip);
        Ok(())
    }

    /// Whether the places are a plan of the case with the facts of `strike` struck out, and if not,
    /// why. The case stays as it is.
    ///
    /// Refused: `Unopened`, `UnknownFact`.
    pub fn check_plan(&mut self, strike: Facts, places: &[u8]) -> Result<PlanCheck, Refusal>
        ensures says { PlanChecked self.old.plain strike places.now result }
        ensures same { self.new ≡ self.old }
        ensures kept { WellKept (known_of self.new) }
    {
        self.check_open()?;
        self.known.check_names(strike)?;
        Ok(self.known.check_plan(strike, places))
    }
}
