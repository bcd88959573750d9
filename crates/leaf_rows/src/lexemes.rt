//! The lexemes of a query's text.
use crate::answer::Answer;
use crate::arguments::word;
use query_lex::{LexFault, LexKind, Lexeme, Sign, lex};
use std::alloc::Global;

/// Writes the answer of a call, and tells whether it is of this file.
pub fn put(alloc: Global, call: &str, words: &[Vec<u8>], out: &mut Answer) -> bool {
    if call != "lex" {
        return false;
    }
    match lex(alloc, word(words, 0)) {
        Ok(lexemes) => put_lexemes(lexemes.as_slice(), out),
        Err(LexFault::OpenQuote { at }) => out.put_at(b"OpenQuote", at),
        Err(LexFault::LoneEscape { at }) => out.put_at(b"LoneEscape", at),
        Err(LexFault::NoMemory) => out.put(b"NoMemory"),
    }
    true
}

fn put_lexemes(lexemes: &[Lexeme], out: &mut Answer) {
    if lexemes.is_empty() {
        out.put(b"none");
    }
    for lexeme in lexemes {
        out.put(b" ");
        put_lexeme(lexeme, out);
    }
}

// A lexeme as its offset, its mark, and its bytes between `<` and `>`.
fn put_lexeme(lexeme: &Lexeme, out: &mut Answer) {
    out.put_count(lexeme.at);
    out.put(mark(&lexeme.kind).as_bytes());
    if let Some(bytes) = bytes(&lexeme.kind) {
        out.put(b"<");
        out.put_escaped(bytes);
        out.put(b">");
    }
}

fn bytes(kind: &LexKind) -> Option<&[u8]> {
    match kind {
        LexKind::Word(text) => Some(text.as_slice()),
        LexKind::Prefix(text) => Some(text.as_slice()),
        LexKind::Param(name) => Some(name.as_slice()),
        LexKind::ParamPrefix(name) => Some(name.as_slice()),
        LexKind::Quote(text) => Some(text.as_slice()),
        LexKind::Raw(text) => Some(text.as_slice()),
        LexKind::Tag { text, .. } => Some(text.as_slice()),
        LexKind::Foreign(text) => Some(text.as_slice()),
        LexKind::Sign(_) => None,
    }
}

fn mark(kind: &LexKind) -> &'static str {
    match kind {
        LexKind::Word(_) => "W",
        LexKind::Prefix(_) => "P",
        LexKind::Param(_) => "$",
        LexKind::ParamPrefix(_) => "$*",
        LexKind::Quote(_) => "Q",
        LexKind::Raw(_) => "R",
        LexKind::Tag { prefix, .. } => tag_mark(*prefix),
        LexKind::Foreign(_) => "F",
        LexKind::Sign(sign) => sign_mark(*sign),
    }
}

fn tag_mark(prefix: bool) -> &'static str {
    if prefix { "t" } else { "T" }
}

fn sign_mark(sign: Sign) -> &'static str {
    match sign {
        Sign::Star => "*",
        Sign::Open => "(",
        Sign::Close => ")",
        Sign::Pipe => "|",
        Sign::Minus => "-",
        Sign::Tilde => "~",
        Sign::At => "@",
        Sign::Colon => ":",
        Sign::Arrow => "=>",
        Sign::RangeOpen => "[",
        Sign::RangeClose => "]",
        Sign::TagOpen => "{",
        Sign::TagClose => "}",
        Sign::AttrOpen => "<",
        Sign::AttrClose => ">",
        Sign::Semi => ";",
        Sign::Stray => "!",
    }
}
