//! Laws of the grammar itself, whatever the parser's code is, each as a call that does nothing and whose contract is the law.

ghost use Rattle.std.specs.Prelude.{◌≡◌, ◌≤◌, ℕ, List, [], length, drop, slice_range};
ghost use Rattle.gn_value_model.specs.Limits.{max_bytes};
ghost use Rattle.gn_tree.specs.Tree.{ExprTree, BlockTree};
ghost use Rattle.gn_tree.specs.Depth.{max_tree_depth, expr_depth, IsShallow};
ghost use Rattle.gn_tokens.specs.Text.{IsString, string_items};
ghost use Rattle.gn_grammar.specs.Lexemes.{Lexeme};
ghost use Rattle.gn_grammar.specs.Grammar.{Spells, SpellsStatements};
ghost use Rattle.gn_grammar.specs.Start.{Start, File, Expression};
ghost use Rattle.gn_grammar.specs.Errors.{IsTree, IsExpr};
ghost use Rattle.gn_grammar.specs.Nesting.{token_nestings, expr_nestings, block_nestings};
ghost use Rattle.gn_grammar.specs.Laws.{HasOneAnswer, HasOneExprAnswer, IsJudgedRightly, StandRightly};

use gn_tokens::string_is_its_items;

/// Bytes spell just one tree, or have just one first error, and never both.
pub fn each_file_has_one_answer()
    ensures { (bytes : List ℕ) → HasOneAnswer bytes }
{}

/// The same of one expression.
pub fn each_expression_has_one_answer()
    ensures { (bytes : List ℕ) → HasOneExprAnswer bytes }
{}

/// The machine that reads one token after the other finds the first error of the grammar, and none where the bytes spell a tree.
pub fn machine_is_right()
    ensures { (start : Start) (bytes : List ℕ) → IsJudgedRightly start bytes }
{}

/// The nestings of the tokens of a file and of an expression, counted one token after the other, are those of the tree that they spell, counted by the cases of the grammar.
pub fn nestings_are_of_the_tree()
    ensures file { (tree : BlockTree) (tokens : List Lexeme) → SpellsStatements tree tokens [] → token_nestings File [] tokens ≡ block_nestings tree 0 }
    ensures expression { (tree : ExprTree) (tokens : List Lexeme) → Spells 1 tree tokens [] → token_nestings Expression [] tokens ≡ expr_nestings tree 0 }
{}

/// The tree of at most 16,777,216 bytes is no deeper than 268,435,456 nodes: it takes a token to make a tree deeper, and a byte to make a token.
pub fn trees_are_shallow()
    ensures file { (bytes : List ℕ) (tree : BlockTree) → length bytes ≤ max_bytes → IsTree bytes tree → IsShallow tree }
    ensures expression { (bytes : List ℕ) (tree : ExprTree) → length bytes ≤ max_bytes → IsExpr bytes tree → expr_depth tree ≤ max_tree_depth }
{}

/// Where bytes of a file are a string literal, each of its items stands at the position that its piece has: as many columns behind the opening quote as bytes lie between.
pub fn pieces_stand_in_the_line()
    ensures { (bytes : List ℕ) (start end : ℕ) → IsString (slice_range bytes start end) → StandRightly bytes start (string_items 1 (drop 1 (slice_range bytes start end))) }
{
    string_is_its_items();
}
