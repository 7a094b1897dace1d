//! Laws of what bytes are read as, each as a call that does nothing and whose contract is the law.

ghost use Rattle.std.specs.Prelude.{◌≡◌, ℕ, List, Result};
ghost use Rattle.gn_tree.specs.Tree.{ExprTree, BlockTree};
ghost use Rattle.gn_grammar.specs.declared.fault.SyntaxFault.{SyntaxFault as Fault};
ghost use Rattle.gn_syntax.specs.Reading.{reading, expr_reading, IsReading, IsExprReading};

/// What bytes are read as is right in the words of the grammar: a tree that they spell, or the first error of those that
/// spell none. Nothing else is right.
pub fn readings_are_right()
    ensures file { (bytes : List ℕ) → IsReading bytes (reading bytes) }
    ensures expression { (bytes : List ℕ) → IsExprReading bytes (expr_reading bytes) }
    ensures only_file { (bytes : List ℕ) (answer : Result BlockTree Fault) → IsReading bytes answer → reading bytes ≡ answer }
    ensures only_expression { (bytes : List ℕ) (answer : Result ExprTree Fault) → IsExprReading bytes answer → expr_reading bytes ≡ answer }
{}
