//! What is left of parts side by side and of the sides of a union, and words that stand as is asked.
ghost use Rattle.std.specs.Prelude.{◌≡◌, ◌++◌, ◌<◌, ◌≤◌, IfOk, OnOk, drop, false, length, map, not, option_map, option_to_list};
ghost use Rattle.query_grammar.specs.Faults.{is_else};
ghost use Rattle.query_grammar.specs.Meaning.{all_of, any_of, arranged, denied, optional, union_of};
ghost use Rattle.query_grammar.specs.Shape.{same_fields, shape_of, together};
ghost use Rattle.query_parse.specs.Words.{alike, fields_in, fields_of, is_one, word_in};
ghost use Rattle.ft_base.specs.declared.query.Query.TheVariants as tree;

use ft_base::{Boxed, Bytes, Fields, ListOf, NoMemory, Query};
use std::alloc::Global;

/// Adds what is left of a part, where it is not cut.
pub fn add(parts: &mut Vec<Query>, part: Option<Query>) -> Result<(), NoMemory>
    ensures { OnOk result (parts.new.items ≡ parts.old.items ++ option_to_list part) }
{
    match part {
        Some(part) => {
            parts.push(part)?;
            Ok(())
        }
        None => Ok(()),
    }
}

/// Parts side by side. One that is alone stands for itself.
pub fn all_of(parts: Vec<Query>) -> Option<Query>
    ensures { option_to_list result ≡ all_of parts.items }
{
    let mut parts = parts;
    if parts.len() < 2 {
        parts.pop()
    } else {
        Some(Query::And(ListOf::from_vec(parts)))
    }
}

/// Adds the side of a union that parts side by side are.
pub fn add_side(sides: &mut Vec<Query>, parts: Vec<Query>) -> Result<(), NoMemory>
    ensures { OnOk result (sides.new.items ≡ sides.old.items ++ all_of parts.items) }
{
    add(sides, all_of(parts))
}

/// The sides of a union. One that is alone stands for itself.
pub fn any_of(sides: Vec<Query>) -> Option<Query>
    ensures { option_to_list result ≡ any_of sides.items }
{
    let mut sides = sides;
    if sides.len() < 2 {
        sides.pop()
    } else {
        Some(Query::Or(ListOf::from_vec(sides)))
    }
}

/// The sides of a whole text.
pub fn union_of(sides: Vec<Query>) -> Query
    ensures { result ≡ union_of sides.items }
{
    match any_of(sides) {
        Some(query) => query,
        None => Query::Empty,
    }
}

/// A part behind a minus sign.
pub fn denied(alloc: Global, part: Option<Query>) -> Result<Option<Query>, NoMemory>
    ensures { IfOk result (λ left. option_to_list left ≡ denied (option_to_list part)) }
{
    match part {
        Some(part) => Ok(Some(Query::Not(Boxed::new(alloc, part)?))),
        None => Ok(None),
    }
}

/// A part behind a tilde.
pub fn optional(alloc: Global, part: Option<Query>) -> Result<Option<Query>, NoMemory>
    ensures { IfOk result (λ left. option_to_list left ≡ optional (option_to_list part)) }
{
    match part {
        Some(part) => Ok(Some(Query::Optional(Boxed::new(alloc, part)?))),
        None => Ok(None),
    }
}

/// A part whose words stand as is asked. One word stays as it is.
#[tactic(auto, using(crate::proofs::PhraseLemmas::arranging))]
pub fn arranged(
    alloc: Global,
    slop: Option<u32>,
    in_order: bool,
    query: Query,
) -> Result<Query, NoMemory>
    ensures { IfOk result (λ made. made ≡ arranged slop in_order query (shape_of query)) }
{
    match &query {
        Query::Phrase { .. } => Ok(query.standing(slop, in_order)),
        Query::And(parts) => {
            if parts.len() < 2 {
                return Ok(query);
            }
            if !are_words(parts.as_slice()) {
                return Ok(query);
            }
            phrase(
                alloc,
                slop,
                in_order,
                query.into_parts().unwrap().into_vec(),
            )
        }
        _ => Ok(query),
    }
}

/// Words side by side as a phrase.
fn phrase(
    alloc: Global,
    slop: Option<u32>,
    in_order: bool,
    parts: Vec<Query>,
) -> Result<Query, NoMemory>
    requires several { 1 < length parts.items }
    requires words { is_else (together (map shape_of parts.items)) ≡ false }
    ensures { IfOk result (λ made.
        made ≡ arranged slop in_order (tree.And parts.items)
        (together (map shape_of parts.items))) }
{
    let fields = fields_in(alloc, &parts[0])?;
    let words = words_in(alloc, parts)?;
    Ok(Query::Phrase {
        fields,
        words: ListOf::from_vec(words),
        slop,
        in_order,
    })
}

fn words_in(alloc: Global, parts: Vec<Query>) -> Result<Vec<Bytes>, NoMemory>
    ensures { IfOk result (λ words. words.items ≡ map (λ q. word_in (shape_of q)) parts.items) }
{
    let mut words = Vec::with_capacity(alloc, parts.len())?;
    for part in parts {
        words.push(word_in(alloc, part))?;
    }
    Ok(words)
}

/// The word that a part is. Parts side by side are one where one stands alone.
#[tactic(auto, using(crate::proofs::QueryLemmas::shapes))]
fn word_in(alloc: Global, part: Query) -> Bytes
    ensures { result ≡ word_in (shape_of part) }
{
    match &part {
        Query::Word { .. } => part.into_word().unwrap(),
        Query::And(parts) => {
            if parts.len() != 1 {
                return Bytes::new(alloc);
            }
            match part.into_parts().unwrap().into_vec().pop() {
                Some(part) => word_in(alloc, part),
                None => Bytes::new(alloc),
            }
        }
        _ => Bytes::new(alloc),
    }
}

/// The fields of the word that a part is.
fn fields_in(alloc: Global, part: &Query) -> Result<Fields, NoMemory>
    ensures { IfOk result (λ fields. fields ≡ fields_in (shape_of part.now)) }
{
    match fields_of(part) {
        Some(fields) => fields.copy(alloc),
        None => Ok(Fields::All),
    }
}

/// The fields of a part that is one word.
#[tactic(auto, using(crate::proofs::QueryLemmas::shapes))]
fn fields_of(part: &Query) -> Option<&Fields>
    ensures { option_map (λ fields. fields.now) result ≡ fields_of (shape_of part.now) }
{
    match part {
        Query::Word { fields, .. } => Some(fields),
        Query::And(parts) => match parts.as_slice() {
            [part] => fields_of(part),
            _ => None,
        },
        Query::Empty => None,
        Query::All => None,
        Query::Prefix { .. } => None,
        Query::Phrase { .. } => None,
        Query::Tags { .. } => None,
        Query::Range { .. } => None,
        Query::Or(_) => None,
        Query::Not(_) => None,
        Query::Optional(_) => None,
    }
}

/// Whether parts are words, each in the same fields as the next.
fn are_words(parts: &[Query]) -> bool
    ensures { result ≡ not (is_else (together (map shape_of parts.now))) }
{
    let mut rest = parts;
    'comparing: loop {
        match rest {
            [] => return false,
            [last] => return is_word(last),
            [first, next, ..] => {
                if !are_alike(first, next) {
                    return false;
                }
                rest = behind(rest);
            }
        }
    }
}

/// Whether a part is no word and no words.
#[tactic(auto, using(crate::proofs::QueryLemmas::shapes))]
pub fn is_else(query: &Query) -> bool
    ensures { result ≡ is_else (shape_of query.now) }
{
    match query {
        Query::Word { .. } | Query::Phrase { .. } => false,
        Query::And(parts) => !are_words(parts.as_slice()),
        _ => true,
    }
}

fn behind(parts: &[Query]) -> &[Query]
    ensures value { result.now ≡ drop 1 parts.now }
    ensures within { length result.now ≤ length parts.now }
    ensures shorter { 0 < length parts.now → length result.now < length parts.now }
{
    match parts {
        [_, rest @ ..] => rest,
        [] => parts,
    }
}

fn is_word(query: &Query) -> bool
    ensures { result ≡ is_one (shape_of query.now) }
{
    fields_of(query).is_some()
}

/// Whether two parts are words in the same fields.
fn are_alike(first: &Query, next: &Query) -> bool
    ensures { result ≡ alike (shape_of first.now) (shape_of next.now) }
{
    match (fields_of(first), fields_of(next)) {
        (Some(fields), Some(others)) => same_fields(fields, others),
        (None, _) | (Some(_), None) => false,
    }
}

fn same_fields(fields: &Fields, others: &Fields) -> bool
    ensures { result ≡ same_fields fields.now others.now }
{
    match (fields, others) {
        (Fields::All, Fields::All) => true,
        (Fields::Named(numbers), Fields::Named(others)) => numbers.as_slice() == others.as_slice(),
        _ => false,
    }
}
