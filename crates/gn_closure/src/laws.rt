// What is computed is the least set: for any rules, and for those of units and labels.

ghost use Rattle.gn_closure.specs.Closure.{System};
ghost use Rattle.gn_closure.specs.Laws.{IsTested, IsAlwaysSound, IsWholeWithinLimits, ExceedsLimitsExactly};
ghost use Rattle.gn_closure.specs.Least.{LimitsAreExact, ComputedIsSound, ComputedIsLeast};

/// For any facts and any rules, some of which come with a fact once it holds: what is computed holds; where neither of two
/// limits on such facts is exceeded, all that holds is computed; and whether one is exceeded is computed rightly. So it is for
/// a rule that comes later too.
pub fn least_sets_are_computed<F>()
    ensures sound { (s : System F) → IsTested s → IsAlwaysSound s }
    ensures whole { (s : System F) → IsTested s → IsWholeWithinLimits s }
    ensures limits { (s : System F) → IsTested s → ExceedsLimitsExactly s }
{}

/// Which units are reached, which build files are wanted and which targets are generated: what is computed holds, and where
/// no limit is exceeded, all that holds is computed.
pub fn computed_set_is_least()
    ensures sound { ComputedIsSound }
    ensures least { ComputedIsLeast }
{}

/// It is computed rightly whether more than 1,048,576 build files, each counted under each of its toolchains, or more than
/// 256 build configurations are reached.
pub fn limits_are_exact()
    ensures { LimitsAreExact }
{}
