// What evaluations and executions leave where all is in order at their beginning.

ghost use Rattle.gn_executions.specs.Base.{plain_base};
ghost use Rattle.gn_orders.specs.InOrder.{IsBaseInOrder};
ghost use Rattle.gn_orders.specs.Laws.{BlocksStayInOrder, ExpressionsStayInOrder, CallsStayInOrder, ImportsEndInOrder, ImportValuesAreInOrder, SetupsEndInOrder, LoadsEndInOrder, FilesAloneEndInOrder, ArgumentsAreInOrder, EarlyBasesAreInOrder, LaterBasesAreInOrder, FinalAnswersAreInOrder, LeastConflictsAreShown, DefinitionsKeepReads, DefinitionsKeepDefaults};

/// A block that ends, an expression that has a value and a call leave every table of the environment in the order of its
/// names, where it was so before and what is known of imports is so: the variables, templates and defaults of each layer, those of
/// the callers, what is kept for templates, and what stands beneath.
pub fn evaluations_stay_in_order()
    ensures blocks { BlocksStayInOrder }
    ensures expressions { ExpressionsStayInOrder }
    ensures calls { CallsStayInOrder }
{}

/// The execution of a whole file over a base in order ends with all tables in order, and so is what it leaves to others: a build
/// file, an import, the build configuration, the dotfile, and build arguments.
pub fn executions_end_in_order()
    ensures imports { ImportsEndInOrder }
    ensures values { ImportValuesAreInOrder }
    ensures setups { SetupsEndInOrder }
    ensures loads { LoadsEndInOrder }
    ensures alone { FilesAloneEndInOrder }
    ensures arguments { ArgumentsAreInOrder }
{}

/// The bases over which files are executed are in order: that of a build without build configuration, that of a build
/// configuration, and that of the later files, where what the configuration has left is so, as it is where it has ended.
pub fn bases_are_in_order()
    ensures plain { IsBaseInOrder plain_base }
    ensures early { EarlyBasesAreInOrder }
    ensures later { LaterBasesAreInOrder }
{}

/// The answers that everything in a project gets are in order, whose imports end as their executions do over a base that is so:
/// what a round knows is so, since it is what executions over the round before leave.
pub fn answers_are_in_order()
    ensures { FinalAnswersAreInOrder }
{}

/// Where what is known of imports is in order, the name at which the merge of an import is refused is the least at which the
/// innermost scope has something else.
pub fn least_conflicts_are_shown()
    ensures { LeastConflictsAreShown }
{}

/// Where a block has ended that found all in order, what a read finds at a name that isn't declared there is what a definition
/// keeps that is made there, or what stands beneath the evaluation; the same holds of the defaults of each kind of call.
pub fn definitions_keep_what_reads_find_at_ends()
    ensures variables { DefinitionsKeepReads }
    ensures defaults { DefinitionsKeepDefaults }
{}
