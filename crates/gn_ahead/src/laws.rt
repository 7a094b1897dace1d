// Reads that are made ahead of the seat that loads.

ghost use Rattle.gn_ahead.specs.Laws.{NothingIsRead, OnlyAskedIsRead, AllIsAsked, SeatReadsOn, ReadsAheadGoOn, SeatEndsAsked, SeatFailsOn, SeatEndsLarge, FewReadsAreSmall, ManyReadsAreTooLarge, FirstReadIsAsked, NeededReadIsAsked};

/// Whatever was read ahead, only what the build asks for was read, and nothing twice.
pub fn reads_ahead_are_asked()
    ensures nothing { NothingIsRead }
    ensures only { OnlyAskedIsRead }
    ensures all { AllIsAsked }
{}

/// What the work on a unit needs first is asked for, before the unit is claimed too.
pub fn first_reads_are_asked()
    ensures first { FirstReadIsAsked }
    ensures needed { NeededReadIsAsked }
{}

/// A seat goes on where all that was read so far, by itself and ahead of it, counts as known before.
pub fn what_was_read_is_known()
    ensures seat { SeatReadsOn }
    ensures ahead { ReadsAheadGoOn }
{}

/// Wherever such a seat ends, only what the build asks for was read, a read that has failed is the last one, and the build is too large
/// where the seat finds that.
pub fn ends_are_those_of_all_reads()
    ensures asked { SeatEndsAsked }
    ensures fails { SeatFailsOn }
    ensures large { SeatEndsLarge }
{}

/// The reads of a seat and those ahead of it, together, are no more than a build may ask for, or it is too large.
pub fn all_reads_are_counted()
    ensures small { FewReadsAreSmall }
    ensures large { ManyReadsAreTooLarge }
{}
