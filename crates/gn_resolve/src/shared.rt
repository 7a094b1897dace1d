// What threads may share.

ghost use mir.Syntax.{Sym};
ghost use denote.Ref.{NamedLft};
ghost use denote.Param.Send.{IsSync};
ghost use denote.Struct.Tuple.{TupleAt};
ghost use Rattle.gn_resolve.specs.Captures.{captures};

use gn_define::Fields;

// A type whose values threads may share, by the bound on it.
fn is_shared<T: Sync>(_value: Option<&T>)
    ensures { IsSync T.row }
{}

/// Threads may share a closure that captures what targets are resolved in, and targets. It does nothing.
pub(crate) fn graphs_are_shared()
    ensures { (name : Sym) (alloc frames lent graph items targets : NamedLft) → IsSync (TupleAt name (captures alloc frames lent graph items targets)) }
{
    is_shared::<Fields>(None)
}
