//! The law of reading, which code may follow. As in `laws`, the function does nothing: its contract is the law.
ghost use Rattle.std.specs.Prelude.{ℕ, List, Ok};
ghost use Rattle.ft_base.specs.declared.definition.IndexDef.{IndexDef as Index};
ghost use Rattle.ft_base.specs.declared.query.Param.{Param};
ghost use Rattle.query_lex.specs.Places.{Rise};
ghost use Rattle.query_lex.specs.declared.lexeme.Lexeme.{Lexeme};
ghost use Rattle.query_grammar.specs.Answer.{Answers};
ghost use Rattle.query_grammar.specs.Reading.{answer_of, whole_at};

/// Reading lexemes from the left, as far as their first fault, finds it, or else the tree.
pub fn reading_answers()
    ensures { (def : Index) (params : List Param) (end : ℕ) (ts : List Lexeme) → Rise 0 end ts
        → Answers def params end (Ok ts) (answer_of end (whole_at def params ts)) }
{}
