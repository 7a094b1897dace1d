// Names that a block of declared arguments declares.

ghost use Rattle.std.specs.Prelude.{◌≡◌, ℕ, Bool, false, List};
ghost use Rattle.gn_tree.specs.declared.position.Position.{Position};
ghost use Rattle.gn_environment.specs.Layers.{LayerState, empty_layer};
ghost use Rattle.gn_environment.specs.Environment.{Environment, left};
ghost use Rattle.gn_environment.specs.Declaring.{declared_in, DeclaresNothing, declaring_entered};
ghost use Rattle.gn_environment.specs.Laws.{UndeclaredNamesAreRead, DeclaredNamesAreNotRead, FirstAssignmentDeclares};
ghost use Rattle.gn_environment.specs.Laws.{FurtherAssignmentsLeavePlaces, OtherAssignmentsDeclareNothing};
ghost use Rattle.gn_environment.specs.Laws.{AssignedStaysPlain, GivenStaysPlain, ReadStaysPlain, PlainNamesAreShown};

/// A read finds a name as it stands in the first layer that has it, or else behind the layers, unless that layer declares it.
pub fn undeclared_names_are_read()
    ensures { UndeclaredNamesAreRead }
{}

/// No read finds a name that the innermost scope declares, whatever stands further out.
pub fn declared_names_are_not_read()
    ensures { DeclaredNamesAreNotRead }
{}

/// The first assignment of a name in a scope that declares names is where it is declared, and each further one leaves that
/// place. In any other scope an assignment declares nothing.
pub fn first_assignments_declare()
    ensures first { FirstAssignmentDeclares }
    ensures further { FurtherAssignmentsLeavePlaces }
    ensures elsewhere { OtherAssignmentsDeclareNothing }
{}

/// A call that gives a name to a scope declares nothing where the scope doesn't declare names.
pub fn calls_declare_in_their_blocks()
    ensures { (name : List ℕ) (position : Position) (layer : LayerState) → layer.declares ≡ false → declared_in name position layer ≡ layer }
{}

/// The scope of a block that declares arguments, when it ends at once, leaves the environment as it was.
pub fn declaring_scopes_end_where_they_began()
    ensures { (env : Environment) → left (declaring_entered env) ≡ env }
{}

/// A scope that doesn't declare names never has one that is declared: neither an assignment, nor names that are given to it,
/// nor a read makes it so. What a name stands for there is found by a read as it stands.
pub fn other_scopes_declare_nothing()
    ensures begins { (checked : Bool) → DeclaresNothing (empty_layer checked) }
    ensures assigned { AssignedStaysPlain }
    ensures given { GivenStaysPlain }
    ensures read { ReadStaysPlain }
    ensures shown { PlainNamesAreShown }
{}
