//! The codes of words: in which fields they lie, and whether the words stand together there.
ghost use Rattle.std.specs.Prelude.{◌≡◌, ◌==◌, true, [], filter, get_or, map, IfOk};
ghost use Rattle.std.specs.List.{All, list_any};
ghost use Rattle.id_iters.specs.Entries.{field_of, looks_in, place_of, places_in, stand_in, stand_together};
ghost use Rattle.phrase_match.specs.Places.{AllEqualOrApart, AllRise};
ghost use Rattle.phrase_match.specs.Turns.{in_turn};

use ft_base::{Fields, ListOf, NoMemory};
use phrase_match::within_in_turn;
use posting_block::ListOfPlaces;
use std::alloc::Global;

/// So many codes belong to one field.
const FIELD_CODES: u64 = 1 << 32;

// Whether a field has one of the numbers.
fn is_named(named: &[u16], field: u64) -> bool
    ensures { result ≡ list_any (λ other. other == field) named.now }
{
    named.iter().any(|other| u64::from(*other) == field)
}

/// Whether a code lies in one of the fields.
pub fn has_code_in(named: &[u16], codes: &[u64]) -> bool
    ensures { result
        ≡ list_any (λ code. list_any (λ other. other == field_of code) named.now) codes.now }
{
    codes
        .iter()
        .any(|code| is_named(named, *code / FIELD_CODES))
}

// Whether a field is looked in.
fn is_looked_in(fields: &Fields, field: u64) -> bool
    ensures { result ≡ looks_in fields.now field }
{
    match fields {
        Fields::All => true,
        Fields::Named(named) => is_named(named.as_slice(), field),
    }
}

// The places of codes that are in a field, as a vector.
fn places_found(alloc: Global, codes: &[u64], field: u64) -> Result<Vec<u32>, NoMemory>
    ensures { IfOk result (λ places. places.items
        ≡ map (λ code. place_of code) (filter (λ code. field_of code == field) codes.now)) }
{
    codes
        .iter()
        .filter(|code| **code / FIELD_CODES == field)
        .map(|code| (*code % FIELD_CODES) as u32)
        .collect(alloc)
}

// The places of codes that are in a field.
fn places_in(alloc: Global, codes: &[u64], field: u64) -> Result<ListOf<u32>, NoMemory>
    ensures { IfOk result (λ places. places ≡ places_in field codes.now) }
{
    Ok(ListOf::from_vec(places_found(alloc, codes, field)?))
}

// The places of each word that are in a field.
fn all_places_in(
    alloc: Global,
    words: &[ListOfPlaces],
    field: u64,
) -> Result<ListOf<ListOf<u32>>, NoMemory>
    ensures { IfOk result (λ places. places ≡ map (places_in field) words.now) }
{
    let mut places = ListOf::new(alloc);
    'words: for codes in words {
        places.push(places_in(alloc, codes.as_slice(), field)?)?;
    }
    Ok(places)
}

// Whether words stand together in a field that is looked in. Each is told by the place of its codes.
fn stand_in(
    alloc: Global,
    words: &[ListOfPlaces],
    order: &[usize],
    fields: &Fields,
    slop: Option<u32>,
    in_order: bool,
    field: u64,
) -> Result<bool, NoMemory>
    requires rising { AllRise words.now }
    requires apart { AllEqualOrApart words.now }
    ensures { IfOk result (λ answer. answer
        ≡ stand_in fields.now slop in_order (in_turn words.now order.now) field) }
{
    if !is_looked_in(fields, field) {
        return Ok(false);
    }
    let places = all_places_in(alloc, words, field)?;
    Ok(within_in_turn(&places, order, slop, in_order))
}

/// Whether words stand together in some field of the first. Each is told by the place of its codes, so that equal words
/// share them.
pub fn stand_together(
    alloc: Global,
    words: &[ListOfPlaces],
    order: &[usize],
    fields: &Fields,
    slop: Option<u32>,
    in_order: bool,
) -> Result<bool, NoMemory>
    requires rising { AllRise words.now }
    requires apart { AllEqualOrApart words.now }
    ensures { IfOk result (λ answer. answer
        ≡ stand_together fields.now slop in_order (in_turn words.now order.now)) }
{
    let Some(first) = order.first() else {
        return Ok(false);
    };
    let codes = codes_at(words, *first);
    stand_in_some(alloc, words, order, codes, fields, slop, in_order)
}

// The codes at a place, and none where nothing is there.
fn codes_at<'a>(words: &'a [ListOfPlaces], place: usize) -> &'a [u64]
    ensures { result.now ≡ get_or words.now place [] }
{
    match words.get(place) {
        Some(codes) => codes.as_slice(),
        None => &[],
    }
}

// Whether words stand together in the field of some code. Codes of one field that follow each other are asked once.
fn stand_in_some(
    alloc: Global,
    words: &[ListOfPlaces],
    order: &[usize],
    codes: &[u64],
    fields: &Fields,
    slop: Option<u32>,
    in_order: bool,
) -> Result<bool, NoMemory>
    requires rising { AllRise words.now }
    requires apart { AllEqualOrApart words.now }
    ensures { IfOk result (λ answer. answer
        ≡ list_any (λ code.
        stand_in fields.now slop in_order (in_turn words.now order.now) (field_of code)) codes.now) }
{
    let mut asked = None;
    'codes: for code in codes {
        let field = *code / FIELD_CODES;
        if asked == Some(field) {
            continue;
        }
        if stand_in(alloc, words, order, fields, slop, in_order, field)? {
            return Ok(true);
        }
        asked = Some(field);
    }
    Ok(false)
}
