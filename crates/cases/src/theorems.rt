//! What is proved of lists of calls, each as the contract of a function that does nothing.

ghost use Rattle.cases.specs.Theorems.{CallsKeepTheLaw, NextCallKeepsTheLaw, SlipsStay};

use deciders::Decider;

/// Whatever calls a host makes on a fresh case, each as its own contract says, keep the law: with
/// one decider of this type, and one picker of any choice.
pub fn calls_keep_the_law<D: Decider>()
    ensures { CallsKeepTheLaw D.reach D.MARK }
{}

/// On a case that holds what the calls so far make of a fresh one, and lists only its groups, one
/// call more keeps the law, whichever decider of this type and whichever picker it is made with.
pub fn next_call_keeps_the_law<D: Decider>()
    ensures { NextCallKeepsTheLaw D.reach D.MARK }
{}

/// While a slip is out, the case's number and finding stay what it was drawn for.
pub fn slips_stay_as_drawn()
    ensures { SlipsStay }
{}
