//! The words of a document: they are collected in one pass, each with the codes of where it stands,
//! and then each word's list gets one entry.
ghost use Rattle.std.specs.Prelude.{◌≡◌, ◌<◌, ◌≤◌, ◌+◌, ◌*◌, ◌^◌, List, ℕ, [], ◌∷◌, ◌++◌, map, length, IfOk, OnOk, OnErr};
ghost use Rattle.ft_base.specs.declared.limits.TheConstants.{MAX_WORD_BYTES};
ghost use Rattle.ft_meaning.specs.Meaning.{ValuesFit, field_tokens};
ghost use Rattle.ft_index.specs.Adding.{IsSeen, IsUnseen, WordsHave};
ghost use Rattle.ft_index.specs.Collected.{AreMet, GrowBy, IsNoted, WordGains, WordsGain, codes_of, occurrences_in};
ghost use Rattle.ft_index.specs.Entries.{codes_among, occurrence};
ghost use Rattle.ft_index.specs.Markers.{AllBefore, TakesLists, word_marker};
ghost use Rattle.ft_index.specs.UpTo.{IsAboveWord, WordsUpTo};
ghost use Rattle.term_dict.specs.Terms.{list_of};

use ft_base::{Doc, IndexDef, NoMemory};
use ft_meaning::field_tokens;
use indexmap::IndexMap;
use inverted_list::Markers;
use posting_block::{ListOfPlaces, TextHit};
use std::alloc::Global;
use term_dict::Terms;
use token_text::TextTokens;

/// What a field's number counts for in a code, above every place.
const PLACES: u64 = 1 << 32;

/// Words, each with its codes in rising order. The tokens of the texts lend the words, so that a
/// word takes no memory of its own here.
type WordCodes<'a> = IndexMap<&'a [u8], ListOfPlaces>;

/// Puts an entry for the document into the list of each of its words. Out of memory, some
/// have theirs.
pub fn add_words(
    terms: &mut Terms,
    alloc: Global,
    def: &IndexDef,
    doc: &Doc,
    markers: &mut Markers,
) -> Result<(), NoMemory>
    requires fields { length def.now.fields ≤ 1_024 }
    requires values { ValuesFit doc.now.hash }
    requires later { (word : List ℕ) → IsAboveWord doc.now.id terms.old word }
    requires up_to { WordsUpTo doc.now.id terms.old }
    requires before { AllBefore markers.old (word_marker terms.old) }
    ensures unseen { IsUnseen doc.now.id (WordsHave def.now terms.old) (WordsHave def.now terms.new) }
    ensures seen { OnOk result (IsSeen def.now doc.now (WordsHave def.now terms.old) (WordsHave def.now terms.new)) }
    ensures up_to { WordsUpTo doc.now.id terms.new }
    ensures takes { TakesLists markers.old markers.new (list_of terms.old) (list_of terms.new) }
{
    let texts = texts_of(alloc, def, doc)?;
    let found = collected(alloc, texts.as_slice())?;
    add_all(terms, found, doc.id(), markers)
}

/// The tokens of each field of a document, of which there are none where its words are not found.
fn texts_of(alloc: Global, def: &IndexDef, doc: &Doc) -> Result<Vec<TextTokens>, NoMemory>
    requires { ValuesFit doc.now.hash }
    ensures { IfOk result (λ texts.
        texts.items ≡ map (field_tokens def.now doc.now) def.now.fields) }
{
    let mut texts = Vec::with_capacity(alloc, def.fields.len())?;
    for field in def.fields.as_slice() {
        texts.push(field_tokens(alloc, def, doc, field)?)?;
    }
    Ok(texts)
}

/// The words of the fields of a document.
fn collected<'a>(alloc: Global, texts: &'a [TextTokens]) -> Result<WordCodes<'a>, NoMemory>
    requires { length texts.now ≤ 1_024 }
    ensures codes { IfOk result (λ found. (word : List ℕ)
        → codes_of found.entries word ≡ codes_among word (occurrences_in 0 texts.now)) }
    ensures met { IfOk result (λ found. AreMet found.entries) }
{
    let mut found = IndexMap::new(alloc);
    for (number, tokens) in texts.iter().enumerate() {
        note_all(&mut found, number as u64, tokens)?;
    }
    Ok(found)
}

/// Notes the tokens of the field with this number.
fn note_all<'a>(
    found: &mut WordCodes<'a>,
    number: u64,
    tokens: &'a TextTokens,
) -> Result<(), NoMemory>
    requires { number < 1_024 }
    ensures codes { OnOk result ((word : List ℕ) → codes_of found.new.entries word
        ≡ codes_of found.old.entries word ++ codes_among word (map (occurrence number) tokens.now)) }
    ensures met { OnOk result (AreMet found.old.entries → AreMet found.new.entries) }
{
    for i in 0..tokens.len() {
        note(found, tokens.word(i), code_of(number, i))?;
    }
    Ok(())
}

/// The code of the token at an index, whose place is one more, in the field with this number.
fn code_of(number: u64, i: usize) -> u64
    requires number { number < 1_024 }
    requires place { i < MAX_WORD_BYTES }
    ensures { result ≡ number * 2 ^ 32 + (i + 1) }
{
    number * PLACES + (i as u64 + 1)
}

/// Adds a code behind those of its word.
fn note<'a>(found: &mut WordCodes<'a>, word: &'a [u8], code: u64) -> Result<(), NoMemory>
    ensures codes { OnOk result (IsNoted word.now code found.old.entries found.new.entries) }
    ensures met { OnOk result (AreMet found.old.entries → AreMet found.new.entries) }
{
    if let Some(places) = found.get_mut(word) {
        return places.push(code);
    }
    let places = first_code(*found.allocator(), code)?;
    found.insert(word, places)?;
    Ok(())
}

/// One code.
fn first_code(alloc: Global, code: u64) -> Result<ListOfPlaces, NoMemory>
    ensures { IfOk result (λ places. places ≡ code ∷ []) }
{
    let mut places = ListOfPlaces::new(alloc);
    places.push(code)?;
    Ok(places)
}

/// Adds an entry of this id to the list of each word. Out of memory, some have theirs.
fn add_all(
    terms: &mut Terms,
    found: WordCodes<'_>,
    id: u64,
    markers: &mut Markers,
) -> Result<(), NoMemory>
    requires later { (word : List ℕ) → IsAboveWord id terms.old word }
    requires up_to { WordsUpTo id terms.old }
    requires met { AreMet found.entries }
    requires before { AllBefore markers.old (word_marker terms.old) }
    ensures ok { OnOk result (WordsGain found.entry.entries id terms.old terms.new) }
    ensures some { GrowBy id terms.old terms.new }
    ensures up_to { WordsUpTo id terms.new }
    ensures takes { TakesLists markers.old markers.new (list_of terms.old) (list_of terms.new) }
{
    for (word, codes) in found {
        add(terms, word, codes, id, markers)?;
    }
    Ok(())
}

/// Adds an entry of this id to the list of one word.
fn add(
    terms: &mut Terms,
    word: &[u8],
    codes: ListOfPlaces,
    id: u64,
    markers: &mut Markers,
) -> Result<(), NoMemory>
    requires later { IsAboveWord id terms.old word.now }
    requires up_to { WordsUpTo id terms.old }
    requires before { AllBefore markers.old (word_marker terms.old) }
    ensures ok { OnOk result (WordGains word.now id codes terms.old terms.new) }
    ensures err { OnErr result (terms.new ≡ terms.old) }
    ensures up_to { WordsUpTo id terms.new }
    ensures takes { TakesLists markers.old markers.new (list_of terms.old) (list_of terms.new) }
{
    terms.add(word, id, &TextHit { places: codes }, markers)
}
