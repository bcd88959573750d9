//! The words that name options of FT.SEARCH, read in any case.
ghost use Rattle.std.specs.Prelude.{◌≡◌};
ghost use Rattle.cmd_parse.specs.OptionNames.{is_left_out, option_of};

use ft_base::is_name;

/// An option of FT.SEARCH.
#[derive(Clone, Copy)]
pub enum SearchOption {
    NoContent,
    Verbatim,
    Timeout,
    Dialect,
    Return,
    InKeys,
    Filter,
    SortBy,
    Limit,
    Params,
    /// An option of RediSearch that is left out.
    LeftOut,
    /// A word that names none.
    Other,
}

/// The option that a word names.
#[tactic(auto, unfolding(crate::specs::OptionNames::option_of))]
pub fn option_of(word: &[u8]) -> SearchOption
    ensures { result ≡ option_of word.now }
{
    if is_name(word, b"NOCONTENT") {
        SearchOption::NoContent
    } else if is_name(word, b"VERBATIM") {
        SearchOption::Verbatim
    } else if is_name(word, b"TIMEOUT") {
        SearchOption::Timeout
    } else if is_name(word, b"DIALECT") {
        SearchOption::Dialect
    } else if is_name(word, b"RETURN") {
        SearchOption::Return
    } else if is_name(word, b"INKEYS") {
        SearchOption::InKeys
    } else if is_name(word, b"FILTER") {
        SearchOption::Filter
    } else if is_name(word, b"SORTBY") {
        SearchOption::SortBy
    } else if is_name(word, b"LIMIT") {
        SearchOption::Limit
    } else if is_name(word, b"PARAMS") {
        SearchOption::Params
    } else if is_left_out(word) {
        SearchOption::LeftOut
    } else {
        SearchOption::Other
    }
}

pub fn is_left_out(word: &[u8]) -> bool
    ensures { result ≡ is_left_out word.now }
{
    is_name(word, b"WITHSCORES")
        || is_name(word, b"SCORER")
        || is_name(word, b"EXPLAINSCORE")
        || is_name(word, b"WITHSORTKEYS")
        || is_name(word, b"SUMMARIZE")
        || is_name(word, b"HIGHLIGHT")
        || is_name(word, b"SLOP")
        || is_name(word, b"INORDER")
        || is_name(word, b"NOSTOPWORDS")
        || is_name(word, b"INFIELDS")
        || is_name(word, b"LANGUAGE")
}
