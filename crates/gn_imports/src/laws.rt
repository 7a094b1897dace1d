// What holds of every project.

ghost use Rattle.gn_runs.specs.Runs.{Answers, Run, IsTree};
ghost use Rattle.gn_definitions.specs.Imported.{ImportState};
ghost use Rattle.gn_imports.specs.Laws.{RoundsGrow, IsAtRest, NoneNeedsNone, IsFixed, ValueEnds, UnusableLeads, EndsAsInLastRound, LinkSpoils, LinksEnd, LinksKeepCause, AllAskedHas, AllAskedIsClosed, AllAskedIsLeast};
ghost use Rattle.gn_imports.specs.Projects.{IsProject};
ghost use Rattle.gn_imports.specs.Rounds.{Project};

/// Rounds grow, and the last one is at rest. An import that it doesn't know needs another one that it doesn't know.
pub fn rounds_come_to_rest()
    ensures grow { (project : Project) → IsProject project → RoundsGrow project }
    ensures rest { (project : Project) → IsProject project → IsAtRest project }
    ensures unknown { (project : Project) → IsProject project → NoneNeedsNone project }
{}

/// The answers that everything gets are what the executions over them leave: a value where they end, and where an import
/// can't be used, it is wrong or leads to another one that can't be used.
pub fn answers_are_fixed()
    ensures fixed { (project : Project) → IsProject project → IsFixed project }
    ensures values { (project : Project) → IsProject project → ValueEnds project }
    ensures unusable { (project : Project) → IsProject project → UnusableLeads project }
{}

/// A run over the answers that everything gets asks what the run over the last round asks, and ends as that one does, but
/// is spoiled where that one needs an import.
pub fn runs_end_as_in_the_last_round()
    ensures { (project : Project) (m : Answers → Run ImportState) → IsTree m → EndsAsInLastRound project m }
{}

/// Following links from an import that can't be used leads to a wrong import, whose fault is its cause, or round a cycle,
/// and then its cause is the cycle at the least place of the calls on it. All imports on the way, and all on the cycle, have
/// the same cause.
pub fn links_lead_to_causes()
    ensures spoils { (project : Project) → IsProject project → LinkSpoils project }
    ensures end { (project : Project) → IsProject project → LinksEnd project }
    ensures same { (project : Project) → IsProject project → LinksKeepCause project }
{}

/// All that questions ask, directly or through imports, has these questions and what each import asks that it has, and
/// nothing else.
pub fn questions_lead_to_questions()
    ensures given { (project : Project) → AllAskedHas project }
    ensures closed { (project : Project) → IsProject project → AllAskedIsClosed project }
    ensures least { (project : Project) → AllAskedIsLeast project }
{}
