//! Laws of the tables, each as a call that does nothing and whose contract is the law.

ghost use Rattle.std.specs.Prelude.{◌≡◌, ℕ, List, Some, true};
ghost use Rattle.gn_rows.specs.declared.kinds.ItemKind.{ItemKind};
ghost use Rattle.gn_rows.specs.declared.kinds.ToolName.{ToolName};
ghost use Rattle.gn_rows.specs.Names.{kind_name, kind_named, tool_name, tool_named};
ghost use Rattle.gn_rows.specs.Tables.{rows_of, demands_of};
ghost use Rattle.gn_rows.specs.Laws.{names_differ, have_rows};

/// No name stands twice among the rows of a kind.
pub fn names_of_a_table_differ()
    ensures { (kind : ItemKind) → names_differ (rows_of kind) ≡ true }
{}

/// Whatever a kind demands is demanded of a variable that it looks at.
pub fn what_is_demanded_is_looked_at()
    ensures { (kind : ItemKind) (name : List ℕ) → have_rows (rows_of kind) (demands_of kind name) ≡ true }
{}

/// Each tool is found by its name.
pub fn tools_are_found_by_their_names()
    ensures { (tool : ToolName) → tool_named (tool_name tool) ≡ Some tool }
{}

/// Each kind of item is found by the name of the call that defines it, and has the name by which it is found.
pub fn kinds_are_found_by_their_names()
    ensures found { (kind : ItemKind) → kind_named (kind_name kind) ≡ Some kind }
    ensures named { (name : List ℕ) (kind : ItemKind) → kind_named name ≡ Some kind → name ≡ kind_name kind }
{}
