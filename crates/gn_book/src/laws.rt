// What a book is to the rules of loading.

ghost use Rattle.gn_book.specs.Claims.{ClaimsAreGiven, ClaimsStay};
ghost use Rattle.gn_book.specs.NextLaws.{KindsAreInOrder, TasksHaveNoTies, NextIsByRules, ReadyMeansWork, QuietMeansQuiet};
ghost use Rattle.gn_book.specs.Runs.{IsOpenAtFirst, EventsExtendRuns, AsksNoMore};

/// The log of a book is a run of loading as long as each event is allowed, whatever the evaluator: it begins at the opening
/// state, one more allowed event leaves a run, and no call of a book asks more of an event than that it is allowed.
pub fn logs_are_runs()
    ensures opening { IsOpenAtFirst }
    ensures more { EventsExtendRuns }
    ensures asks { AsksNoMore }
{}

/// Keys that are given out by themselves have one order: build configurations come before build files, these before records,
/// and of two keys one comes later.
pub fn tasks_are_in_order()
    ensures kinds { KindsAreInOrder }
    ensures ties { TasksHaveNoTies }
{}

/// What comes next is what the rules of loading say, whatever the evaluator, where the units and labels that have numbers are
/// those that these rules let be claimed: a key that is ready is given out, the first one; a state is called quiet that is.
/// Where a key is ready there is work, and in a quiet state nothing but quiet is told.
pub fn next_is_by_the_rules()
    ensures says { NextIsByRules }
    ensures work { ReadyMeansWork }
    ensures quiet { QuietMeansQuiet }
{}

/// Who claims a key has it, and so has who waits for a key that nobody has claimed. Whatever happens, a key that a seat has
/// claimed stays claimed by it, until its answer is filed.
pub fn claims_stay()
    ensures given { ClaimsAreGiven }
    ensures stay { ClaimsStay }
{}
