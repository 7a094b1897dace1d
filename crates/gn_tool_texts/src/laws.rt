//! Laws of what is told of the texts of tools, each as a call that does nothing and whose contract is the law.

ghost use Rattle.gn_tool_texts.specs.Laws.{WhatIsToldIsLeast, WholeExactly};

/// A code that is told is that of a text which the item uses, and no such text has a code with a lesser number.
pub fn what_is_told_is_the_least()
    ensures { WhatIsToldIsLeast }
{}

/// Nothing is told of a compiled target exactly where `gn_records` leaves nothing out: its output has a directory, and each
/// text of tools that it uses stands for a path in what is written of it.
pub fn nothing_is_told_exactly_where_nothing_is_left_out()
    ensures { WholeExactly }
{}
