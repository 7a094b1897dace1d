// What stands around a scope and around the body of a template.

ghost use Rattle.gn_environment.specs.Laws.{ScopeLeavesSurroundings, DeclaringScopeLeavesSurroundings};
ghost use Rattle.gn_environment.specs.Laws.{DeclaredArgumentsLeaveSurroundings, BodyLeavesSurroundings};

/// Whatever is done in a scope that opens, if it leaves what stands around that scope, then the scope's end leaves what stood
/// around the scope before it: the setting, the layers with their templates and defaults, the callers, and the depth.
pub fn scopes_leave_their_surroundings()
    ensures { ScopeLeavesSurroundings }
{}

/// The same of the scope of a block that declares arguments, and of its end, which sets them around it.
pub fn declaring_scopes_leave_their_surroundings()
    ensures scope { DeclaringScopeLeavesSurroundings }
    ensures declared { DeclaredArgumentsLeaveSurroundings }
{}

/// The same of the body of a template, whose end is that of the scope of its call's block too.
pub fn bodies_leave_their_surroundings()
    ensures { BodyLeavesSurroundings }
{}
