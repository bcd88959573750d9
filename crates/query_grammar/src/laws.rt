//! Laws of the language, whatever code reads a text. Each function here does nothing: its contract is the law.
ghost use Rattle.std.specs.Prelude.{◌≡◌, ◌⊎◌, ℕ, List};
ghost use Rattle.ft_base.specs.declared.definition.IndexDef.{IndexDef as Index};
ghost use Rattle.ft_base.specs.declared.query.Param.{Param};
ghost use Rattle.ft_base.specs.declared.query.Query.{Query};
ghost use Rattle.query_lex.specs.Places.{Rise};
ghost use Rattle.query_lex.specs.declared.lexeme.Lexeme.{Lexeme};
ghost use Rattle.query_grammar.specs.declared.fault.QueryFault.{QueryFault as Fault};
ghost use Rattle.query_grammar.specs.Answer.{IsFault, IsMeaning};

/// The lexemes of a text have one tree at most.
pub fn one_tree()
    ensures { (def : Index) (params : List Param) (ts : List Lexeme) (q : Query) (r : Query)
        → IsMeaning def params ts q → IsMeaning def params ts r → q ≡ r }
{}

/// They have one first fault at most.
pub fn one_fault()
    ensures { (def : Index) (params : List Param) (end : ℕ) (ts : List Lexeme) (f : Fault) (g : Fault)
        → IsFault def params end ts f → IsFault def params end ts g → f ≡ g }
{}

/// They have a tree or a fault, and never both.
pub fn tree_or_fault()
    ensures either { (def : Index) (params : List Param) (end : ℕ) (ts : List Lexeme) → Rise 0 end ts
        → ((q : Query) × IsMeaning def params ts q) ⊎ ((f : Fault) × IsFault def params end ts f) }
    ensures never_both { (def : Index) (params : List Param) (end : ℕ) (ts : List Lexeme)
        → (q : Query) (f : Fault) → IsMeaning def params ts q → IsFault def params end ts f → ⊥ }
{}
