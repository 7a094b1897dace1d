// What loading comes to, whatever the order of its events.

ghost use Rattle.gn_core.specs.Counted.{LimitsAreComputed};
ghost use Rattle.gn_core.specs.Statements.{FiledAreMeanings, ClaimedAreWanted, AtMostOnce, QuietIsWhole, QuietAgree, LimitsAgree};

/// Whatever the order, each answer that is filed is the meaning of its key.
pub fn filed_answers_are_meanings()
    ensures { FiledAreMeanings }
{}

/// A claimed key is wanted: a unit is reached, a label can be resolved, an import or a read is asked by a reached unit,
/// directly or through imports.
pub fn claimed_keys_are_wanted()
    ensures { ClaimedAreWanted }
{}

/// A key is claimed at most once and filed at most once.
pub fn keys_are_claimed_once()
    ensures { AtMostOnce }
{}

/// A quiet state has filed what the opening state had and what is wanted, and no more, so two of them over one tree are
/// equal.
pub fn quiet_states_are_whole()
    ensures whole { QuietIsWhole }
    ensures agree { QuietAgree }
{}

/// Where it is recorded that the build is too large it is, and in a quiet state what is filed shows whether it is.
pub fn limits_agree()
    ensures { LimitsAgree }
{}

/// It is computed rightly whether the build exceeds a limit: of units, of the imports that one needs, of the files that are
/// read.
pub fn limits_are_computed()
    ensures { LimitsAreComputed }
{}
