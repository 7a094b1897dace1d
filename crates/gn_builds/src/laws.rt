// What makes the work of loading right.

ghost use Rattle.gn_builds.specs.Laws.{PartsGiveAnswers, PartsGiveNeeds, NeededImportsAreRead, CyclesHaveNoValue, TreesDontMatter};
ghost use Rattle.gn_builds.specs.Own.{FilesWereRead};
ghost use Rattle.gn_builds.specs.Rest.{RestIsLoaded, RestIsWithin, LargeImportsAreTooLarge, TooManyAreTooLarge, RestIsJudged, BegunAreReached, RestCountsFiles, ReachedAreCounted, RestIsBuilt, NumberedAreAsked};
ghost use Rattle.gn_builds.specs.Causes.{UnitsHaveFaults, SpoilersAreUnusable, LinksAreUnusable, WrongIsCause, RoundIsCause, ClosedAreAll, ListedAreMany};

use gn_book::next_is_by_the_rules;
use gn_faults::{fault_order_has_no_ties, fault_order_is_strict, fault_order_is_transitive};

/// Work that was done over some part of what is filed is right over all of it, whatever the tree: an answer is the right answer, and
/// what is needed and isn't filed is needed, and an import only where its file was read. An import that needs another one has no
/// value where its wait closes a cycle.
pub fn work_over_a_part_is_right()
    ensures answers { PartsGiveAnswers }
    ensures needs { PartsGiveNeeds }
    ensures reads { NeededImportsAreRead }
    ensures cycles { CyclesHaveNoValue }
    ensures trees { TreesDontMatter }
{}

/// A log is over the files that it has read, whether or not the source tells its tree.
pub fn files_were_read()
    ensures { FilesWereRead }
{}

/// Whatever ends loading by one seat, only what the build asks was read, and nothing twice, and only build files were claimed that are
/// reached. Where more files were read than a build may ask for, or more units are reached, it is too large.
pub fn only_what_is_asked_is_loaded()
    ensures reads { NumberedAreAsked }
    ensures begun { BegunAreReached }
    ensures large { TooManyAreTooLarge }
    ensures counted { ReachedAreCounted }
{}

/// Where loading by one seat has come to rest, all is loaded. The build is too large where an import needs too many others; else
/// its error is the first fault of the units that have numbers, and where there is none it is what their executions have left, in
/// their order.
pub fn rest_is_the_build()
    ensures loaded { RestIsLoaded }
    ensures within { RestIsWithin }
    ensures large { LargeImportsAreTooLarge }
    ensures judged { RestIsJudged }
    ensures files { RestCountsFiles }
    ensures built { RestIsBuilt }
{
    fault_order_is_strict();
    fault_order_is_transitive();
    fault_order_has_no_ties();
}

/// Where loading by one seat has come to rest, a unit has the fault of its answer, and the import that spoils it can't be used, and has an
/// answer, and so has each to which the links of the answers lead from there. They lead to a wrong import, whose fault is that of the
/// unit, or round a cycle: after as many links as an import may need imports they are on it, and as many and one more go all round it.
pub fn links_lead_to_the_fault()
    ensures faults { UnitsHaveFaults }
    ensures spoilers { SpoilersAreUnusable }
    ensures links { LinksAreUnusable }
    ensures wrong { WrongIsCause }
    ensures round { RoundIsCause }
{}

/// A list of imports that has, with each of them, all that this one asks for, has all that its imports need; and different imports that one
/// needs are too many where they are more than the limit.
pub fn closed_imports_are_all()
    ensures all { ClosedAreAll }
    ensures many { ListedAreMany }
{}
