//! Laws of substitution texts, each as a call that does nothing and whose contract is the law.

ghost use Rattle.std.specs.Prelude.{◌≡◌, ℕ, List, Ok, Some, true, map};
ghost use Rattle.gn_ninja_text.specs.Values.{value_parts_read, value_made};
ghost use Rattle.gn_substs.specs.declared.names.Substitution.{Substitution};
ghost use Rattle.gn_substs.specs.declared.positions.Position.{Position};
ghost use Rattle.gn_substs.specs.declared.pieces.SubstPiece.{SubstPiece};
ghost use Rattle.gn_substs.specs.declared.subst.Subst.{Subst};
ghost use Rattle.gn_substs.specs.Names.{substitution_name};
ghost use Rattle.gn_substs.specs.Positions.{names_at, all_differ, StandsAt};
ghost use Rattle.gn_substs.specs.Reading.{subst_read};
ghost use Rattle.gn_substs.specs.Expansions.{text_in};
ghost use Rattle.gn_substs.specs.Laws.{HasOneReading, IsWrittenAs};
ghost use Rattle.gn_substs.specs.Variables.{tool_text, value_parts, with_values};

/// Each text has just one reading at a position: its pieces and the bytes behind them, or the offset of its first bad `{{`.
pub fn each_text_has_one_reading()
    ensures { (position : Position) (text : List ℕ) → HasOneReading position text (subst_read position text) }
{}

/// The pieces of a text, joined again with `{{name}}` for each substitution, are the text; no `{{` is left in the bytes before and behind the substitutions; and each substitution is one of the position.
pub fn pieces_are_the_text()
    ensures { (position : Position) (text : List ℕ) (s : Subst) → subst_read position text ≡ Ok s → IsWrittenAs position text s }
{}

/// The names of the substitutions of a position differ, and so do those of any two substitutions.
pub fn names_of_a_position_differ()
    ensures position { (position : Position) → all_differ (names_at position) ≡ true }
    ensures all { (a b : Substitution) → substitution_name a ≡ substitution_name b → a ≡ b }
{}

/// Where each substitution of a position is given a text, what stands for it is that text.
pub fn each_name_has_its_text()
    ensures { (position : Position) (text : Substitution → List ℕ) (s : Substitution) → StandsAt position s → text_in (position, map text (names_at position)) s ≡ text s }
{}

/// What Ninja reads in a tool's text as it is written is, part by part, the text: its bytes as they are, and the variables
/// of its substitutions. So Ninja makes of it the text with the variables' values in place of the substitutions.
pub fn tool_texts_are_read_back()
    ensures parts { (pieces : List SubstPiece) (last : List ℕ) → value_parts_read (tool_text pieces last) ≡ Some (value_parts pieces last) }
    ensures value { (values : List ℕ → List ℕ) (pieces : List SubstPiece) (last : List ℕ) → value_made values (tool_text pieces last) ≡ Some (with_values values pieces last) }
{}
