//! Laws of the tools that are missing, each as a call that does nothing and whose contract is the law.

ghost use Rattle.std.specs.Prelude.{◌≡◌, ◌↔◌, ℕ, List, true, false};
ghost use Rattle.gn_items.specs.declared.item.Item.{Item};
ghost use Rattle.gn_items.specs.declared.tool.Tool.{Tool};
ghost use Rattle.gn_items.specs.Tools.{has_name};
ghost use Rattle.gn_needed_tools.specs.Needed.{missing_tools};
ghost use Rattle.gn_needed_tools.specs.Laws.{IsNeeded, IsTold, ascends};

/// A name is told exactly where it is that of a tool which the item needs, and no tool of the toolchain has it.
pub fn what_is_told_is_needed_and_missing()
    ensures { (item : Item) (tools : List Tool) (name : List ℕ) → IsTold item tools name ↔ (IsNeeded item name × (has_name name tools ≡ false)) }
{}

/// The names that are told ascend in the order of their bytes, so that each stands once.
pub fn missing_tools_ascend()
    ensures { (item : Item) (tools : List Tool) → ascends (missing_tools item tools) ≡ true }
{}
