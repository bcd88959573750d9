//! Laws of the definition, whatever code reads a text. Each function here does nothing: its contract is the law.
ghost use Rattle.std.specs.Prelude.{◌≡◌, ℕ, List, ◌∷◌, Ok, Err};
ghost use Rattle.query_lex.specs.declared.fault.LexFault.{LexFault};
ghost use Rattle.query_lex.specs.declared.lexeme.Lexeme.{Lexeme};
ghost use Rattle.query_lex.specs.Escaping.{escaped_word, one_word};
ghost use Rattle.query_lex.specs.Lexemes.{lexemes};
ghost use Rattle.query_lex.specs.Spells.{Spells};

/// Any word can be asked for, whatever its bytes: with a backslash before each of its separators it is
/// read as that word.
pub fn escaped_word_is_read()
    ensures { (b : ℕ) (word : List ℕ) → lexemes (escaped_word (b ∷ word)) ≡ Ok (one_word (b ∷ word)) }
{}

/// The lexemes of a text, each at its offset, and what only separates them spell the text: no byte is
/// lost, and none is read twice.
pub fn lexemes_spell_the_text()
    ensures { (text : List ℕ) (found : List Lexeme) → lexemes text ≡ Ok found → Spells 0 text found }
{}

/// No text has two lists of lexemes, or a list and a fault.
pub fn one_list_of_lexemes()
    ensures one { (text : List ℕ) (found : List Lexeme) (others : List Lexeme)
        → lexemes text ≡ Ok found → lexemes text ≡ Ok others → found ≡ others }
    ensures fault { (text : List ℕ) (found : List Lexeme) (fault : LexFault)
        → lexemes text ≡ Ok found → lexemes text ≡ Err fault → ⊥ }
{}
