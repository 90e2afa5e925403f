//! The theorems of the rules, each as the contract of a function.

ghost use Rattle.rules.specs.Sets.{SetsMean, SizesMean};
ghost use Rattle.rules.specs.Theorems.{StrikingMore, StandingMore, OrderingLess, AdditionalStep, Emptying, Doing, PlansWalk};
ghost use Rattle.rules.specs.Theorems.{Duality, Hitting, NoWay, LargestOutside};
ghost use Rattle.rules.specs.Theorems.{ListedReached, ReachedListed, ListingStays, FirstEntries, NoRepeats, ListingEnds};
ghost use Rattle.rules.specs.Theorems.{ForwardWalks, WholeBlocked, ListedPlan, Decided};
ghost use Rattle.rules.specs.Examples.{WorkedExamples};

/// The operations on masks are those on sets, fact by fact.
pub fn sets_mean_their_facts()
    ensures sets { SetsMean }
    ensures sizes { SizesMean }
{}

/// Striking out more, standing more, ordering less or an additional step never blocks, and doing a
/// step never unblocks.
pub fn more_never_blocks()
    ensures striking { StrikingMore }
    ensures standing { StandingMore }
    ensures ordering { OrderingLess }
    ensures adding { AdditionalStep }
    ensures emptying { Emptying }
    ensures doing { Doing }
{}

/// Good sets meet groups, and so a minimum hitting set of groups is no larger than any good set.
pub fn good_sets_meet_groups()
    ensures duality { Duality }
    ensures hitting { Hitting }
    ensures none { NoWay }
    ensures largest { LargestOutside }
{}

/// A listing finds exactly what can be reached, whatever a step makes of an entry.
pub fn listings_find_what_is_reached()
    ensures sound { ListedReached }
    ensures whole { ReachedListed }
    ensures stays { ListingStays }
    ensures first { FirstEntries }
    ensures once { NoRepeats }
    ensures ends { ListingEnds }
{}

/// Plans are walks that end with the order standing, and whether there is one is decided by the
/// forward listing.
pub fn plans_are_decided()
    ensures walk { PlansWalk }
    ensures forward { ForwardWalks }
    ensures blocked { WholeBlocked }
    ensures plan { ListedPlan }
    ensures decided { Decided }
{}

/// The worked examples, each a statement about the definitions.
pub fn worked_examples_hold()
    ensures { WorkedExamples }
{}
