// Which names faults show, what a name calls, and what a definition keeps.

ghost use Rattle.gn_environment.specs.Laws.{ReportedIsUnread, ReportedIsFirst, UnreadIsReported};
ghost use Rattle.gn_environment.specs.Laws.{RefusedNamesConflict, LeastNameIsRefused, ConflictsAreRefused};
ghost use Rattle.gn_environment.specs.Laws.{TemplatesAreHidden, DeclaredIsNotKept, ReadIsKept, DefaultsAreKept};

/// What the end of a scope reports is an unread name of a checked scope, and no other unread name there has a last
/// assignment that stands before it. A checked scope that reports nothing has no unread name.
pub fn first_unread_name_is_reported()
    ensures unread { ReportedIsUnread }
    ensures first { ReportedIsFirst }
    ensures all { UnreadIsReported }
{}

/// The name at which the merge of an import is refused is one at which the innermost scope has something else, and where
/// what the import left is in the order of its names, no lesser name is. A merge that isn't refused has no such name.
pub fn least_conflict_is_shown()
    ensures conflicts { RefusedNamesConflict }
    ensures least { LeastNameIsRefused }
    ensures all { ConflictsAreRefused }
{}

/// While the body of a template runs, and while that of a template runs that was defined in it, however deep, no name calls
/// that template: what a name calls there was defined at another place.
pub fn templates_are_not_found_in_their_bodies()
    ensures { TemplatesAreHidden }
{}

/// What a read of a name finds where a template is defined, if the name isn't declared there, is what the definition keeps
/// at the name or, where it keeps nothing, what stands beneath the evaluation; a name that is declared is neither found nor
/// kept. The same holds of the defaults of each kind of call. The tables of the layers are in the order of their names.
pub fn definitions_keep_what_reads_find()
    ensures declared { DeclaredIsNotKept }
    ensures variables { ReadIsKept }
    ensures defaults { DefaultsAreKept }
{}
