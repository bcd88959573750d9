//! The lists of the words of a phrase, in the words' order.
ghost use Rattle.std.specs.Prelude.{◌≡◌, ◌<◌, [], length, get_or, IsTrue};
ghost use Rattle.phrase_match.specs.Turns.{in_turn, place_count};

use ft_base::ListOf;
use std::marker::Model;

/// For each word of a phrase the list of its places. A list that several words share is there once.
#[derive(Drop)]
pub struct Turns<'a> {
    lists: &'a [ListOf<u32>],
    /// Which list each word has. Without it the lists are those of the words, one behind the other.
    order: Option<&'a [usize]>,
}

impl<'a> Model for Turns<'a> {
    ghost use Rattle.std.specs.Prelude.{List, ℕ};
    ghost use Rattle.std.specs.Option.{option_copied};
    ghost use Rattle.phrase_match.specs.Turns.{turns};

    ghost Value = { List (List ℕ) };

    ghost view = { λ t. turns t.lists.now (option_copied t.order) };
}

impl<'a> Turns<'a> {
    /// A list for each word.
    pub fn of_each(lists: &'a [ListOf<u32>]) -> Turns<'a>
        ensures { result ≡ lists.now }
    {
        Turns { lists, order: None }
    }

    /// The list of each word by its place.
    pub fn of_places(lists: &'a [ListOf<u32>], order: &'a [usize]) -> Turns<'a>
        ensures { result ≡ in_turn lists.now order.now }
    {
        Turns {
            lists,
            order: Some(order),
        }
    }

    /// The number of words.
    pub fn len(&self) -> usize
        ensures { result ≡ length self.now }
    {
        match self.order {
            None => self.lists.len(),
            Some(order) => order.len(),
        }
    }

    /// The list of a word, and an empty one behind the last.
    pub fn list(&self, word: usize) -> &'a [u32]
        ensures { result.now ≡ get_or self.now word [] }
    {
        match self.order {
            None => list_at(self.lists, word),
            Some(order) => list_in_turn(self.lists, order, word),
        }
    }
}

// The list of a word, by its place.
fn list_in_turn<'a>(lists: &'a [ListOf<u32>], order: &[usize], word: usize) -> &'a [u32]
    ensures { result.now ≡ get_or (in_turn lists.now order.now) word [] }
{
    match order.get(word) {
        Some(place) => list_at(lists, *place),
        None => &[],
    }
}

// The list at a place, and where none is there an empty one.
fn list_at<'a>(lists: &'a [ListOf<u32>], place: usize) -> &'a [u32]
    ensures { result.now ≡ get_or lists.now place [] }
{
    match lists.get(place) {
        Some(list) => list.as_slice(),
        None => &[],
    }
}

/// Whether the lists have fewer places than there are words, so that no word can have one of its own.
pub fn are_fewer(lists: &[ListOf<u32>], words: usize) -> bool
    ensures { IsTrue result → place_count lists.now < words }
{
    let mut left = words;
    'lists: for list in lists {
        if left <= list.len() {
            return false;
        }
        left -= list.len();
    }
    0 < left
}
