//! Laws of what words say, whatever code reads them.
//! Each function here does nothing: its contract is the law.
ghost use Rattle.std.specs.Prelude.{◌≡◌, ℕ, List, Ok};
ghost use Rattle.ft_base.specs.declared.definition.Field.{Field};
ghost use Rattle.ft_base.specs.declared.definition.IndexDef.{IndexDef};
ghost use Rattle.ft_schema.specs.Names.{Word};
ghost use Rattle.ft_schema.specs.Schema.{create, alter};
ghost use Rattle.ft_schema.specs.Spellable.{AreSpellable, IsSpellable};
ghost use Rattle.ft_schema.specs.Spelling.{create_words, alter_words};

/// A definition is spelled by words of FT.CREATE, and these are read back as just that definition.
pub fn definition_is_read_back()
    ensures { (index : IndexDef) → IsSpellable index
        → create (create_words index) index.serial ≡ Ok index }
{}

/// Fields are spelled by words of FT.ALTER, and these are read back as just those fields, whatever the
/// index is called.
pub fn added_fields_are_read_back()
    ensures { (name : Word) (fields : List Field) → AreSpellable fields
        → alter (alter_words name fields) ≡ Ok fields }
{}

/// Whatever words are read, what they say can be spelled, and its spelling is read as the same. So the
/// definitions that can be spelled are just those that words say.
pub fn what_is_read_is_spellable()
    ensures created { (words : List Word) (serial : ℕ) (index : IndexDef)
        → create words serial ≡ Ok index → IsSpellable index }
    ensures added { (words : List Word) (fields : List Field)
        → alter words ≡ Ok fields → AreSpellable fields }
    ensures again { (words : List Word) (serial : ℕ) (index : IndexDef)
        → create words serial ≡ Ok index → create (create_words index) serial ≡ Ok index }
{}
