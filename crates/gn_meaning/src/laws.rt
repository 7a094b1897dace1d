// Each evaluation is a tree of questions, and what follows from it.

ghost use Rattle.gn_runs.specs.Laws.{StaysSettled, StaysInNeed, AsksMore, NeedsUnknown, AsksKnown, SpoiledByUnusable, UnusableSpoils, DependsOnAsked};
ghost use Rattle.gn_runs.specs.Runs.{IsTree};
ghost use Rattle.gn_meaning.specs.Laws.{Evaluation, meaning_of, ImportsAreTrees};

/// Each evaluation is a tree of questions: what it does next depends on the answers that it got, and on nothing else of
/// what is known. So is that of a file that is imported.
pub fn evaluations_are_trees()
    ensures blocks { (e : Evaluation) → IsTree (meaning_of e) }
    ensures imports { ImportsAreTrees }
{}

/// More answers change no evaluation but one whose need they meet, and what was asked is asked still.
pub fn more_answers_keep_evaluations()
    ensures settled { (e : Evaluation) → StaysSettled (meaning_of e) }
    ensures needs { (e : Evaluation) → StaysInNeed (meaning_of e) }
    ensures asked { (e : Evaluation) → AsksMore (meaning_of e) }
{}

/// An evaluation ends at the first question whose answer isn't known or is unusable, and only there.
pub fn evaluations_stop_at_answers()
    ensures needs { (e : Evaluation) → NeedsUnknown (meaning_of e) }
    ensures known { (e : Evaluation) → AsksKnown (meaning_of e) }
    ensures spoiled { (e : Evaluation) → SpoiledByUnusable (meaning_of e) }
    ensures unusable { (e : Evaluation) → UnusableSpoils (meaning_of e) }
{}

/// Answers that agree on what an evaluation asked over one of them give the same run.
pub fn evaluations_depend_on_what_they_ask()
    ensures { (e : Evaluation) → DependsOnAsked (meaning_of e) }
{}
