// What threads may share.

ghost use mir.Syntax.{Sym};
ghost use denote.Ref.{NamedLft};
ghost use denote.Param.Send.{IsSend, IsSync};
ghost use denote.Struct.Tuple.{TupleAt};
ghost use Rattle.gn_build_faults.specs.Captures.{examining, linking, finding};
ghost use Rattle.gn_build_faults.specs.contracts.examined.Examined as ExaminedRow;

use gn_define::Fields;

/// Threads may share a closure that captures items and the allocator, or items and labels. It does nothing.
pub(crate) fn items_are_shared()
    ensures linking { (name : Sym) (alloc items lent : NamedLft) → IsSync (TupleAt name (linking alloc items lent)) }
    ensures finding { (name : Sym) (items lent labels : NamedLft) → IsSync (TupleAt name (finding items lent labels)) }
{
    is_shared::<Fields>(None)
}

// A type whose values threads may share, by the bound on it.
fn is_shared<T: Sync>(_value: Option<&T>)
    ensures { IsSync T.row }
{}

/// Threads may share a closure that captures targets and what their faults are looked for in, and hand over what targets have by
/// themselves. It does nothing.
pub(crate) fn graphs_are_shared()
    ensures examining { (name : Sym) (alloc default items lent settled frames framed targets : NamedLft) → IsSync (TupleAt name (examining alloc default items lent settled frames framed targets)) }
    ensures examined { (a : NamedLft) → IsSend (ExaminedRow.the_row a) }
{
    is_shared::<Fields>(None)
}
