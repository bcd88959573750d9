//! The tokens of an expression's text, with their byte offsets.
ghost use Rattle.std.specs.Prelude.{◌≡◌, ◌≤◌, ◌++◌, [], ◌∷◌, length, take, drop, position, not, false};
ghost use Rattle.std.specs.Prelude.{IfOk, IfSome, IfNone, OnOk};
ghost use Rattle.ft_base.specs.Number.{int_of};
ghost use Rattle.std.specs.Option.{option_map};
ghost use Rattle.expr_eval.specs.Tokens.{is_digit, is_of_name, run_length, number_of, number_at, function_of, name_at, property_of, property_at};
ghost use Rattle.expr_eval.specs.Tokens.{in_text, text_in, text_of, is_at, pair_at, sign_of, kind_at, token_at, at_place, tokens_of};

use crate::token::{Kind, Token};
use crate::tree::{Func, Op};
use ft_base::{Bytes, NoMemory, is_name, read_int};
use std::alloc::Global;

fn is_digit(byte: u8) -> bool
    ensures { result ≡ is_digit byte }
{
    matches!(byte, b'0'..=b'9')
}

/// Whether the byte may be of a name.
fn is_of_name(byte: u8) -> bool
    ensures { result ≡ is_of_name byte }
{
    matches!(byte, b'0'..=b'9' | b'A'..=b'Z' | b'_' | b'a'..=b'z')
}

/// How many digits come.
fn digits_length(bytes: &[u8]) -> usize
    ensures length { result ≡ run_length is_digit bytes.now }
    ensures within { result ≤ length bytes.now }
{
    match digits_end(bytes) {
        Some(place) => place,
        None => bytes.len(),
    }
}

fn digits_end(bytes: &[u8]) -> Option<usize>
    ensures place { result ≡ position (λ b. not (is_digit b)) bytes.now }
    ensures within { IfSome result (λ place. place ≤ length bytes.now) }
{
    bytes.iter().position(|byte| !is_digit(*byte))
}

/// How many bytes of a name come.
fn name_length(bytes: &[u8]) -> usize
    ensures length { result ≡ run_length is_of_name bytes.now }
    ensures within { result ≤ length bytes.now }
{
    match name_end(bytes) {
        Some(place) => place,
        None => bytes.len(),
    }
}

fn name_end(bytes: &[u8]) -> Option<usize>
    ensures place { result ≡ position (λ b. not (is_of_name b)) bytes.now }
    ensures within { IfSome result (λ place. place ≤ length bytes.now) }
{
    bytes.iter().position(|byte| !is_of_name(*byte))
}

/// The first byte with so many behind it, and the bytes behind these.
fn cut<'a>(bytes: &'a [u8], first: u8, rest: &'a [u8], many: usize) -> (&'a [u8], &'a [u8])
    requires begin { bytes.now ≡ first ∷ rest.now }
    requires within { many ≤ length rest.now }
    ensures front { result.0.now ≡ first ∷ take many rest.now }
    ensures behind { result.1.now ≡ drop many rest.now }
    ensures within { length result.1.now ≤ length rest.now }
{
    let (front, _) = bytes.split_at(many + 1);
    let (_, behind) = rest.split_at(many);
    (front, behind)
}

/// The number that the bytes begin with, whose first is this digit.
fn number<'a>(bytes: &'a [u8], first: u8, rest: &'a [u8]) -> (Kind, &'a [u8])
    requires { bytes.now ≡ first ∷ rest.now }
    ensures read { (result.0, result.1.now) ≡ number_at first rest.now }
    ensures within { length result.1.now ≤ length rest.now }
{
    let (digits, behind) = cut(bytes, first, rest, digits_length(rest));
    (number_of(digits), behind)
}

fn number_of(digits: &[u8]) -> Kind
    ensures { result ≡ number_of (int_of digits.now) }
{
    match read_int(digits) {
        Some(number) => Kind::Number(number),
        None => Kind::Bad,
    }
}

/// The name that the bytes begin with, whose first is this byte.
fn name<'a>(bytes: &'a [u8], first: u8, rest: &'a [u8]) -> (Kind, &'a [u8])
    requires { bytes.now ≡ first ∷ rest.now }
    ensures read { (result.0, result.1.now) ≡ name_at first rest.now }
    ensures within { length result.1.now ≤ length rest.now }
{
    let (name, behind) = cut(bytes, first, rest, name_length(rest));
    (function_of(name), behind)
}

/// The function of a name.
fn function_of(name: &[u8]) -> Kind
    ensures { result ≡ function_of name.now }
{
    if is_name(name, b"lower") {
        Kind::Name(Func::Lower)
    } else if is_name(name, b"upper") {
        Kind::Name(Func::Upper)
    } else if is_name(name, b"strlen") {
        Kind::Name(Func::Strlen)
    } else if is_name(name, b"abs") {
        Kind::Name(Func::Abs)
    } else if is_name(name, b"exists") {
        Kind::Name(Func::Exists)
    } else {
        Kind::Bad
    }
}

/// What stands behind an `@`.
fn property(alloc: Global, rest: &[u8]) -> Result<(Kind, &[u8]), NoMemory>
    ensures read { IfOk result (λ x. (x.0, x.1.now) ≡ property_at rest.now) }
    ensures within { IfOk result (λ x. length x.1.now ≤ length rest.now) }
{
    let (name, behind) = rest.split_at(name_length(rest));
    Ok((property_of(alloc, name)?, behind))
}

fn property_of(alloc: Global, name: &[u8]) -> Result<Kind, NoMemory>
    ensures { IfOk result (λ kind. kind ≡ property_of name.now) }
{
    if name.is_empty() {
        return Ok(Kind::Bad);
    }
    Ok(Kind::Property(Bytes::from_slice(alloc, name)?))
}

/// What a byte of an open text does.
#[derive(Clone, Copy)]
pub enum InText {
    Taken,
    Escapes,
    Ends,
}

fn in_text(quote: u8, escaped: bool, byte: u8) -> InText
    ensures { result ≡ in_text quote escaped byte }
{
    if escaped {
        InText::Taken
    } else if byte == quote {
        InText::Ends
    } else if byte == b'\\' {
        InText::Escapes
    } else {
        InText::Taken
    }
}

/// The first byte, and those behind it.
fn first(bytes: &[u8]) -> Option<(u8, &[u8])>
    ensures some { IfSome result (λ x. bytes.now ≡ x.0 ∷ x.1.now) }
    ensures none { IfNone result (bytes.now ≡ []) }
{
    match bytes {
        [] => None,
        [first, rest @ ..] => Some((*first, rest)),
    }
}

/// What stands in a text, and the bytes behind its quote; none where it has no end.
fn inside(alloc: Global, quote: u8, bytes: &[u8]) -> Result<Option<(Bytes, &[u8])>, NoMemory>
    ensures read { IfOk result
        (λ found. option_map (λ x. (x.0, x.1.now)) found ≡ text_in quote false bytes.now) }
    ensures within { IfOk result
        (λ found. IfSome found (λ x. length x.1.now ≤ length bytes.now)) }
{
    let mut text = Bytes::new(alloc);
    let mut escaped = false;
    let mut rest = bytes;
    'reading: while let Some((byte, behind)) = first(rest) {
        match in_text(quote, escaped, byte) {
            InText::Ends => return Ok(Some((text, behind))),
            InText::Escapes => escaped = true,
            InText::Taken => {
                text.push(byte)?;
                escaped = false;
            }
        }
        rest = behind;
    }
    Ok(None)
}

/// A text behind its quote. One without an end takes all bytes.
fn text(alloc: Global, quote: u8, bytes: &[u8]) -> Result<(Kind, &[u8]), NoMemory>
    ensures read { IfOk result (λ x. (x.0, x.1.now) ≡ text_of (text_in quote false bytes.now)) }
    ensures within { IfOk result (λ x. length x.1.now ≤ length bytes.now) }
{
    match inside(alloc, quote, bytes)? {
        Some((text, rest)) => Ok((Kind::Text(text), rest)),
        None => Ok((Kind::Bad, &[])),
    }
}

/// Whether this byte comes next.
fn is_at(byte: u8, bytes: &[u8]) -> bool
    ensures { result ≡ is_at byte bytes.now }
{
    match bytes {
        [] => false,
        [first, ..] => *first == byte,
    }
}

fn pair(second: u8, both: Kind, alone: Kind, rest: &[u8]) -> (Kind, &[u8])
    ensures read { (result.0, result.1.now) ≡ pair_at second both alone rest.now }
    ensures within { length result.1.now ≤ length rest.now }
{
    match rest {
        [byte, behind @ ..] if *byte == second => (both, behind),
        _ => (alone, rest),
    }
}

/// The sign that a byte begins.
#[tactic(auto, unfolding(crate::specs::Tokens::sign_of))]
fn sign(byte: u8, rest: &[u8]) -> (Kind, &[u8])
    ensures read { (result.0, result.1.now) ≡ sign_of byte rest.now }
    ensures within { length result.1.now ≤ length rest.now }
{
    match byte {
        b'(' => (Kind::Open, rest),
        b')' => (Kind::Close, rest),
        b'+' => (Kind::Sign(Op::Plus), rest),
        b'-' => (Kind::Sign(Op::Minus), rest),
        b'*' => (Kind::Sign(Op::Times), rest),
        b'!' => pair(b'=', Kind::Sign(Op::Differ), Kind::Bang, rest),
        b'<' => pair(b'=', Kind::Sign(Op::AtMost), Kind::Sign(Op::Below), rest),
        b'>' => pair(b'=', Kind::Sign(Op::AtLeast), Kind::Sign(Op::Above), rest),
        b'=' => pair(b'=', Kind::Sign(Op::Equal), Kind::Bad, rest),
        b'|' => pair(b'|', Kind::Sign(Op::Or), Kind::Bad, rest),
        b'&' => pair(b'&', Kind::Sign(Op::And), Kind::Bad, rest),
        _ => (Kind::Bad, rest),
    }
}

/// The token that a byte begins which is no blank.
#[tactic(auto, unfolding(crate::specs::Tokens::kind_at))]
fn kind<'a>(
    alloc: Global,
    bytes: &'a [u8],
    byte: u8,
    rest: &'a [u8],
) -> Result<(Kind, &'a [u8]), NoMemory>
    requires { bytes.now ≡ byte ∷ rest.now }
    ensures read { IfOk result (λ x. (x.0, x.1.now) ≡ kind_at byte rest.now) }
    ensures within { IfOk result (λ x. length x.1.now ≤ length rest.now) }
{
    if is_digit(byte) {
        Ok(number(bytes, byte, rest))
    } else if is_of_name(byte) {
        Ok(name(bytes, byte, rest))
    } else if byte == b'@' {
        property(alloc, rest)
    } else if byte == b'"' || byte == b'\'' {
        text(alloc, byte, rest)
    } else {
        Ok(sign(byte, rest))
    }
}

/// The token that a byte begins, or none for a blank; and the bytes behind.
fn token<'a>(
    alloc: Global,
    bytes: &'a [u8],
    byte: u8,
    rest: &'a [u8],
) -> Result<(Option<Kind>, &'a [u8]), NoMemory>
    requires { bytes.now ≡ byte ∷ rest.now }
    ensures read { IfOk result (λ x. (x.0, x.1.now) ≡ token_at byte rest.now) }
    ensures within { IfOk result (λ x. length x.1.now ≤ length rest.now) }
{
    if byte == b' ' {
        return Ok((None, rest));
    }
    let (kind, behind) = kind(alloc, bytes, byte, rest)?;
    Ok((Some(kind), behind))
}

/// Adds a token, if there is one.
fn add(found: &mut Vec<Token>, at: usize, kind: Option<Kind>) -> Result<(), NoMemory>
    ensures { OnOk result (found.new.items ≡ found.old.items ++ at_place at kind) }
{
    match kind {
        Some(kind) => {
            found.push(Token { at, kind })?;
            Ok(())
        }
        None => Ok(()),
    }
}

/// The tokens of a text.
pub fn tokens(alloc: Global, text: &[u8]) -> Result<Vec<Token>, NoMemory>
    ensures { IfOk result (λ found. found.items ≡ tokens_of text.now) }
{
    let mut found = Vec::new(alloc);
    let mut rest = text;
    'lexing: while let Some((byte, behind)) = first(rest) {
        let (kind, behind) = token(alloc, rest, byte, behind)?;
        add(&mut found, text.len() - rest.len(), kind)?;
        rest = behind;
    }
    Ok(found)
}
