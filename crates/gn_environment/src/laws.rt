// What follows of the steps of an evaluation.

ghost use Rattle.std.specs.Prelude.{◌≡◌, ℕ, Bool, List, Some};
ghost use Rattle.gn_definitions.specs.Imported.{DefinitionState};
ghost use Rattle.gn_values.specs.Val.{Val};
ghost use Rattle.gn_environment.specs.Environment.{Environment, value_of, after_read, entered, left, given};
ghost use Rattle.gn_environment.specs.Templates.{body_begins, body_ends};

/// A read leaves the value of the name that is read.
pub fn reads_keep_values()
    ensures { (name : List ℕ) (env : Environment) → value_of name (after_read name env) ≡ value_of name env }
{}

/// A name that is given a value in the innermost scope is found with it, whatever stands further out.
pub fn given_names_are_found()
    ensures { (name : List ℕ) (value : Val) (env : Environment) → value_of name (given name value env) ≡ Some value }
{}

/// A scope that opens and ends leaves the environment as it was.
pub fn scopes_end_where_they_began()
    ensures { (checked : Bool) (env : Environment) → left (entered checked env) ≡ env }
{}

/// The body of a template that begins and ends leaves the environment as the end of the scope of its call's block does.
pub fn bodies_end_where_they_began()
    ensures { (definition : DefinitionState) (name : List ℕ) (env : Environment)
        → body_ends (body_begins definition name env) ≡ left env }
{}
