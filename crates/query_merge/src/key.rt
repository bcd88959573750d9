//! Bytes by which equal parts of a query are found. No clause speaks of them, as what they find is compared.
use ft_base::{Bytes, Fields, NoMemory, Query, TagPart};
use std::alloc::Global;

/// The key of a query: equal queries have equal keys, and others nearly always others.
pub fn key_of(alloc: Global, query: &Query) -> Result<Vec<u8>, NoMemory> {
    let mut key = Vec::new(alloc);
    put_query(query, &mut key)?;
    Ok(key)
}

/// The key of a tag.
pub fn key_of_tag(alloc: Global, tag: &TagPart) -> Result<Vec<u8>, NoMemory> {
    let mut key = Vec::new(alloc);
    put_tag(tag, &mut key)?;
    Ok(key)
}

#[cycle(put)]
fn put_query(query: &Query, key: &mut Vec<u8>) -> Result<(), NoMemory> {
    match query {
        Query::And(parts) => put_parts(b'a', parts.as_slice(), key),
        Query::Or(parts) => put_parts(b'o', parts.as_slice(), key),
        Query::Not(part) => {
            key.push(b'n')?;
            put_query(part.get(), key)
        }
        Query::Optional(part) => {
            key.push(b'm')?;
            put_query(part.get(), key)
        }
        _ => put_leaf(query, key),
    }
}

#[cycle(put)]
fn put_parts(kind: u8, parts: &[Query], key: &mut Vec<u8>) -> Result<(), NoMemory> {
    key.push(kind)?;
    put_number(parts.len() as u64, key)?;
    'parts: for part in parts {
        put_query(part, key)?;
    }
    Ok(())
}

fn put_leaf(query: &Query, key: &mut Vec<u8>) -> Result<(), NoMemory> {
    match query {
        Query::Word { fields, text } => put_text(b'w', fields, text, key),
        Query::Prefix { fields, text } => put_text(b'p', fields, text, key),
        Query::Phrase { fields, words, .. } => put_words(fields, words.as_slice(), key),
        Query::Tags { field, tags } => put_tags(*field, tags.as_slice(), key),
        Query::Range { field, low, high } => put_range(*field, *low, *high, key),
        Query::Empty => put_kind(b'0', key),
        _ => put_kind(b'1', key),
    }
}

fn put_kind(kind: u8, key: &mut Vec<u8>) -> Result<(), NoMemory> {
    key.push(kind)?;
    Ok(())
}

fn put_text(kind: u8, fields: &Fields, text: &Bytes, key: &mut Vec<u8>) -> Result<(), NoMemory> {
    key.push(kind)?;
    put_fields(fields, key)?;
    put_bytes(text, key)
}

fn put_words(fields: &Fields, words: &[Bytes], key: &mut Vec<u8>) -> Result<(), NoMemory> {
    key.push(b'q')?;
    put_fields(fields, key)?;
    put_number(words.len() as u64, key)?;
    for word in words {
        put_bytes(word, key)?;
    }
    Ok(())
}

fn put_tags(field: u16, tags: &[TagPart], key: &mut Vec<u8>) -> Result<(), NoMemory> {
    key.push(b't')?;
    put_number(u64::from(field), key)?;
    put_number(tags.len() as u64, key)?;
    for tag in tags {
        put_tag(tag, key)?;
    }
    Ok(())
}

fn put_tag(tag: &TagPart, key: &mut Vec<u8>) -> Result<(), NoMemory> {
    key.push(u8::from(tag.prefix))?;
    put_bytes(&tag.text, key)
}

fn put_range(field: u16, low: i64, high: i64, key: &mut Vec<u8>) -> Result<(), NoMemory> {
    key.push(b'r')?;
    put_number(u64::from(field), key)?;
    put_number(low.cast_unsigned(), key)?;
    put_number(high.cast_unsigned(), key)
}

fn put_fields(fields: &Fields, key: &mut Vec<u8>) -> Result<(), NoMemory> {
    match fields {
        Fields::All => put_kind(b'*', key),
        Fields::Named(numbers) => put_numbers(numbers.as_slice(), key),
    }
}

fn put_numbers(numbers: &[u16], key: &mut Vec<u8>) -> Result<(), NoMemory> {
    put_number(numbers.len() as u64, key)?;
    for number in numbers {
        key.extend_from_slice(&number.to_le_bytes())?;
    }
    Ok(())
}

// A text, behind its length.
fn put_bytes(text: &Bytes, key: &mut Vec<u8>) -> Result<(), NoMemory> {
    put_number(text.len() as u64, key)?;
    key.extend_from_slice(text.as_slice())?;
    Ok(())
}

fn put_number(number: u64, key: &mut Vec<u8>) -> Result<(), NoMemory> {
    key.extend_from_slice(&number.to_le_bytes())?;
    Ok(())
}
