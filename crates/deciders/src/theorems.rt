//! The theorems of the deciders, each as the contract of a function.

ghost use Rattle.std.specs.Prelude.{◌≡◌, Decides};
ghost use Rattle.deciders.specs.declared.answer.DeciderFault.{DeciderFault as Fault};
ghost use Rattle.deciders.specs.Answers.{same_fault};
ghost use Rattle.deciders.specs.Theorems.{SubgoalLeads, LeadsToSubgoal, SubgoalsBlocked};
ghost use Rattle.deciders.specs.Theorems.{ClosureExists, ClosureUnique, ScreenedBlocked};
ghost use Rattle.deciders.specs.Theorems.{BackwardExample};

use crate::answer::DeciderFault;

/// Two faults are equal exactly where they report the same set and the same mark.
pub fn faults_are_equal_by_set_and_mark()
    ensures test { (a b : Fault) → ⟦<DeciderFault as PartialEq>⟧.eq a b ≡ same_fault a b }
    ensures same { (a b : Fault) → Decides (⟦<DeciderFault as PartialEq>⟧.eq a b) (a ≡ b) }
{}

/// The backward listing finds exactly from where the order can be reached.
pub fn backward_finds_what_leads_to_the_order()
    ensures leads { SubgoalLeads }
    ensures complete { LeadsToSubgoal }
    ensures blocked { SubgoalsBlocked }
    ensures example { BackwardExample }
{}

/// The closure of a standing is one set, and an order outside it is blocked.
pub fn screens_block_only_what_is_blocked()
    ensures exists { ClosureExists }
    ensures unique { ClosureUnique }
    ensures blocked { ScreenedBlocked }
{}
