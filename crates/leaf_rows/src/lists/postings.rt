//! Places of a word, and places in one posting list.
ghost use Rattle.std.specs.Prelude.{◌≡◌, ◌<◌, IfSome, IsSome};
ghost use Rattle.inverted_list.specs.Listing.{hit_of};
ghost use Rattle.inverted_list.specs.Places.{IsSound};

use super::numbers::{
    number, number_at, numbers_of, put_found, put_marker, put_number, put_numbers,
};
use crate::answer::Answer;
use crate::arguments::rest;
use ft_base::{NoMemory, Steps};
use inverted_list::{List, Marker, Markers, Place};
use posting_block::{ListOfPlaces, NumHit};
use std::alloc::Global;
use std::marker::Brand;
use std::sync::ledger::{Blank, Ledger};

/// Writes the answer of a call, and tells whether it is of this file.
pub fn put(alloc: Global, call: &str, words: &[Vec<u8>], out: &mut Answer) -> bool {
    match call {
        "push_places" => put_pushed(alloc, words, out),
        "take_places" => put_taken(alloc, words, out),
        "walk" => put_walk(alloc, words, out),
        "take_markers" => put_markers(number_at(words, 0), number_at(words, 1), out),
        _ => return false,
    }
    true
}

// How many places there are, and their codes.
fn put_pushed(alloc: Global, words: &[Vec<u8>], out: &mut Answer) {
    let mut places = ListOfPlaces::new(alloc);
    for word in words {
        out.note(places.push(number(word.as_slice())));
    }
    out.put_count(places.len());
    put_numbers(places.as_slice(), out);
}

// Places that were taken over.
fn put_taken(alloc: Global, words: &[Vec<u8>], out: &mut Answer) {
    let codes = numbers_of(alloc, words, out);
    put_numbers(ListOfPlaces::from_vec(codes).as_slice(), out);
}

// In the list of some ids, each with its negative, the place behind one number, and what a seek from another finds.
fn put_walk(alloc: Global, words: &[Vec<u8>], out: &mut Answer) {
    let ids = numbers_of(alloc, rest(words, 2), out);
    let (after, from) = (number_at(words, 0), number_at(words, 1));
    match list_of(alloc, ids.as_slice()) {
        Ok(list) => put_between(&list, after, from, out),
        Err(_) => out.fail(),
    }
}

fn put_between(list: &List<NumHit>, after: u64, from: u64, out: &mut Answer) {
    if after < from {
        put_places::<Brand>(list, after, from, Blank::new(1), out);
    }
}

// The list of the ids that rise.
fn list_of(alloc: Global, ids: &[u64]) -> Result<List<NumHit>, NoMemory> {
    let mut list = List::new(alloc, Marker { event: 1, nth: 0 });
    let mut last = 0;
    'ids: for id in ids {
        if last < *id && *id < 1_000_000 {
            list.append(
                *id,
                &NumHit {
                    value: -(*id as i64),
                },
            )?;
            last = *id;
        }
    }
    Ok(list)
}

// A place is opened with a hint of another list, and then with itself as the hint.
fn put_places<L: Ledger>(list: &List<NumHit>, after: u64, from: u64, blank: Blank, out: &mut Answer)
    requires name { blank.name ≡ L.name }
    requires parts { blank.parts ≡ L.parts }
    requires some { 0 < L.parts }
    requires ahead { after < from }
{
    let mut steps = Steps::<L>::new(blank);
    let fresh = list.open_at(other_place(list, after), after, &mut steps);
    let mut place = list.open_at(Some(fresh), after, &mut steps);
    put_place(&place, out);
    let found = list.seek(&mut place, from, &mut steps);
    out.put(b",");
    put_found(found, out);
    if let Some(id) = found {
        put_value(list, id, out);
    }
    put_place(&place, out);
}

fn put_value(list: &List<NumHit>, id: u64, out: &mut Answer)
    requires { IsSome (hit_of id list.now) }
{
    out.put(b" with ");
    match list.hit(id) {
        Ok(hit) => out.put_int(hit.value),
        Err(_) => out.fail(),
    }
}

// A place of another list.
fn other_place(list: &List<NumHit>, after: u64) -> Option<Place>
    ensures { IfSome result (λ place. IsSound place list.now) }
{
    let other = Place {
        marker: Marker { event: 8, nth: 8 },
        block: 8,
        last: after,
    };
    if other.marker == list.marker() {
        return None;
    }
    Some(other)
}

fn put_place(place: &Place, out: &mut Answer) {
    out.put(b" in");
    put_marker(Some(place.marker), out);
    out.put(b" block ");
    out.put_count(place.block);
    out.put(b" last ");
    put_number(place.last, out);
}

// The two markers that are given next, and what is left.
fn put_markers(event: u64, next: u64, out: &mut Answer) {
    let mut markers = Markers { event, next };
    put_marker(markers.take(), out);
    put_marker(markers.take(), out);
    let left = Marker {
        event: markers.event,
        nth: markers.next,
    };
    put_marker(Some(left), out);
}
