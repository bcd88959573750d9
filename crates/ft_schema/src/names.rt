//! The words that name options and kinds, read in any case.
ghost use Rattle.std.specs.Prelude.{◌≡◌};
ghost use Rattle.ft_schema.specs.Names.{index_option_of, is_left_out_option, field_option_of};
ghost use Rattle.ft_schema.specs.Names.{text_option_of, tag_option_of, kind_option_of};
ghost use Rattle.ft_schema.specs.Names.{is_left_out_field_option, kind_of};

use ft_base::FieldKind;

/// An option of an index.
#[derive(Clone, Copy)]
pub enum IndexOption {
    On,
    Prefix,
    StopWords,
    MaxTextFields,
    NoHighlights,
    NoFrequencies,
    Score,
    /// An option of RediSearch that is left out.
    LeftOut,
    /// A word that names none.
    Other,
}

/// The option that a word names.
#[tactic(auto, unfolding(crate::specs::Names::index_option_of))]
pub fn index_option_of(word: &[u8]) -> IndexOption
    ensures { result ≡ index_option_of word.now }
{
    if word.eq_ignore_ascii_case(b"ON") {
        IndexOption::On
    } else if word.eq_ignore_ascii_case(b"PREFIX") {
        IndexOption::Prefix
    } else if word.eq_ignore_ascii_case(b"STOPWORDS") {
        IndexOption::StopWords
    } else if word.eq_ignore_ascii_case(b"MAXTEXTFIELDS") {
        IndexOption::MaxTextFields
    } else if word.eq_ignore_ascii_case(b"NOHL") {
        IndexOption::NoHighlights
    } else if word.eq_ignore_ascii_case(b"NOFREQS") {
        IndexOption::NoFrequencies
    } else if word.eq_ignore_ascii_case(b"SCORE") {
        IndexOption::Score
    } else if is_left_out_option(word) {
        IndexOption::LeftOut
    } else {
        IndexOption::Other
    }
}

fn is_left_out_option(word: &[u8]) -> bool
    ensures { result ≡ is_left_out_option word.now }
{
    word.eq_ignore_ascii_case(b"LANGUAGE")
        || word.eq_ignore_ascii_case(b"LANGUAGE_FIELD")
        || word.eq_ignore_ascii_case(b"SCORE_FIELD")
        || word.eq_ignore_ascii_case(b"PAYLOAD_FIELD")
        || word.eq_ignore_ascii_case(b"FILTER")
        || word.eq_ignore_ascii_case(b"TEMPORARY")
        || word.eq_ignore_ascii_case(b"NOOFFSETS")
        || word.eq_ignore_ascii_case(b"NOFIELDS")
        || word.eq_ignore_ascii_case(b"SKIPINITIALSCAN")
}

/// What the word for a field's kind names.
#[derive(Clone, Copy)]
pub enum Kind {
    Text,
    Tag,
    Numeric,
    /// A kind of RediSearch that is left out.
    LeftOut,
    /// A word that names none.
    Other,
}

/// The kind that a word names.
#[tactic(auto, unfolding(crate::specs::Names::kind_of))]
pub fn kind_of(word: &[u8]) -> Kind
    ensures { result ≡ kind_of word.now }
{
    if word.eq_ignore_ascii_case(b"TEXT") {
        Kind::Text
    } else if word.eq_ignore_ascii_case(b"TAG") {
        Kind::Tag
    } else if word.eq_ignore_ascii_case(b"NUMERIC") {
        Kind::Numeric
    } else if word.eq_ignore_ascii_case(b"GEO")
        || word.eq_ignore_ascii_case(b"GEOSHAPE")
        || word.eq_ignore_ascii_case(b"VECTOR")
    {
        Kind::LeftOut
    } else {
        Kind::Other
    }
}

/// An option of a field.
#[derive(Clone, Copy)]
pub enum FieldOption {
    NoStem,
    Weight,
    Separator,
    CaseSensitive,
    Sortable,
    NoIndex,
    /// An option of RediSearch that is left out.
    LeftOut,
}

/// The option that a word names behind a field of this kind. Where it names none, the next field begins.
#[tactic(auto, unfolding(crate::specs::Names::field_option_of))]
pub fn field_option_of(kind: FieldKind, word: &[u8]) -> Option<FieldOption>
    ensures { result ≡ field_option_of kind word.now }
{
    if word.eq_ignore_ascii_case(b"SORTABLE") {
        Some(FieldOption::Sortable)
    } else if word.eq_ignore_ascii_case(b"NOINDEX") {
        Some(FieldOption::NoIndex)
    } else if is_left_out_field_option(word) {
        Some(FieldOption::LeftOut)
    } else {
        kind_option_of(kind, word)
    }
}

fn is_left_out_field_option(word: &[u8]) -> bool
    ensures { result ≡ is_left_out_field_option word.now }
{
    word.eq_ignore_ascii_case(b"PHONETIC")
        || word.eq_ignore_ascii_case(b"WITHSUFFIXTRIE")
        || word.eq_ignore_ascii_case(b"INDEXEMPTY")
        || word.eq_ignore_ascii_case(b"INDEXMISSING")
}

/// The option that a word names behind this kind alone.
fn kind_option_of(kind: FieldKind, word: &[u8]) -> Option<FieldOption>
    ensures { result ≡ kind_option_of kind word.now }
{
    match kind {
        FieldKind::Text => text_option_of(word),
        FieldKind::Tag { .. } => tag_option_of(word),
        FieldKind::Numeric => None,
    }
}

fn text_option_of(word: &[u8]) -> Option<FieldOption>
    ensures { result ≡ text_option_of word.now }
{
    if word.eq_ignore_ascii_case(b"NOSTEM") {
        Some(FieldOption::NoStem)
    } else if word.eq_ignore_ascii_case(b"WEIGHT") {
        Some(FieldOption::Weight)
    } else {
        None
    }
}

fn tag_option_of(word: &[u8]) -> Option<FieldOption>
    ensures { result ≡ tag_option_of word.now }
{
    if word.eq_ignore_ascii_case(b"SEPARATOR") {
        Some(FieldOption::Separator)
    } else if word.eq_ignore_ascii_case(b"CASESENSITIVE") {
        Some(FieldOption::CaseSensitive)
    } else {
        None
    }
}
