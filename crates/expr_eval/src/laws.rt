//! Laws of the language, whatever code reads a text. Each function here does nothing: its contract is the law.
ghost use Rattle.std.specs.Prelude.{◌≡◌, ◌⊎◌, ℕ, List};
ghost use Rattle.expr_eval.specs.declared.fault.ExprFault.{ExprFault as Fault};
ghost use Rattle.expr_eval.specs.declared.tree.Expr.{Expr};
ghost use Rattle.expr_eval.specs.Answer.{IsFault, IsTree};

/// A text has one tree at most.
pub fn one_tree()
    ensures { (text : List ℕ) (a : Expr) (b : Expr) → IsTree text a → IsTree text b → a ≡ b }
{}

/// It has one first fault at most.
pub fn one_fault()
    ensures { (text : List ℕ) (f : Fault) (g : Fault) → IsFault text f → IsFault text g → f ≡ g }
{}

/// It has a tree or a fault, and never both.
pub fn tree_or_fault()
    ensures either { (text : List ℕ) → ((a : Expr) × IsTree text a) ⊎ ((f : Fault) × IsFault text f) }
    ensures never_both { (text : List ℕ) (a : Expr) (f : Fault) → IsTree text a → IsFault text f → ⊥ }
{}
