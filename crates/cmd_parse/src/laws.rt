//! Laws of what words ask, whatever code reads them. Each function here does nothing: its contract is the law.
ghost use Rattle.std.specs.Prelude.{◌≡◌, ℕ, List, None, Some};
ghost use Rattle.cmd_parse.specs.AggregateWords.{tree_of};
ghost use Rattle.expr_eval.specs.Answer.{IsFault, IsTree};
ghost use Rattle.expr_eval.specs.declared.fault.ExprFault.{ExprFault as Fault};
ghost use Rattle.expr_eval.specs.declared.tree.Expr.{Expr};

/// The tree of an expression in a command is the one that the grammar of expressions gives the text, and a
/// text that has a fault has no tree.
pub fn trees_of_grammar()
    ensures found { (text : List ℕ) (tree : Expr) → IsTree text tree → tree_of text ≡ Some tree }
    ensures spelled { (text : List ℕ) (tree : Expr) → tree_of text ≡ Some tree → IsTree text tree }
    ensures refused { (text : List ℕ) (fault : Fault) → IsFault text fault → tree_of text ≡ None }
{}
