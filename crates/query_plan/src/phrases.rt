//! Phrases as sets of ids.
ghost use Rattle.std.specs.Prelude.{◌≡◌, ◌≤◌, ◌+◌, ◌++◌, ◌∷◌, [], ℕ, List, Some, slice_get, IfOk, IsSome, IsTrue, OnOk};
ghost use Rattle.ft_meaning.specs.Meaning.{has_words};
ghost use Rattle.id_iters.specs.Fitting.{IsOpenAt, leaves_of};
ghost use Rattle.id_iters.specs.Leaves.{list_names};
ghost use Rattle.id_iters.specs.Places.{LeavesReady, WordReady};
ghost use Rattle.id_iters.specs.Ready.{Ready};
ghost use Rattle.list_plan.specs.Known.{KnownFit, place_of};
ghost use Rattle.query_plan.specs.Phrases.{AreOfWords, has_phrase, has_words_at, is_searched, is_searched_at};
ghost use Rattle.query_plan.specs.Plans.{AllKnown, AllOpen, AlwaysReady, Gains, HasAllIf, Tells, ids_of};

use ft_base::{Bytes, Field, Fields, IndexDef, ListOf, NoMemory, Steps};
use id_iters::{Iter, Leaf, ListName, Lists, PhraseIter};
use list_plan::{Planned, Sources, Wanted, leaf_of, word_size};
use std::collections::BTreeMap;
use std::sync::ledger::Ledger;

/// What is asked of a phrase.
#[derive(Clone, Copy)]
pub struct Phrase<'a> {
    pub fields: &'a Fields,
    pub words: &'a [Bytes],
    pub slop: Option<u32>,
    pub in_order: bool,
}

/// The documents where the words of a phrase stand together in one of the fields. Without a word they do so wherever a
/// field is searched.
pub fn plan_phrase<T: Lists, L: Ledger>(
    sources: &Sources<T>,
    phrase: &Phrase,
    steps: &mut Steps<L>,
) -> Result<Planned, NoMemory>
    requires { KnownFit (T.held sources.now.lists.now) sources.now.after (place_of sources.now.known.now) }
    ensures set { IfOk result (λ planned.
        Tells sources.now.def.now (T.held sources.now.lists.now) (T.named sources.now.lists.now)
        (has_phrase sources.now.def.now phrase.now.fields.now phrase.now.words.now phrase.now.slop phrase.now.in_order)
        (ids_of (T.held sources.now.lists.now) planned)) }
    ensures ready { IfOk result (λ planned.
        Ready (T.held sources.now.lists.now) planned.iter (sources.now.after + 1)) }
    ensures placed { IfOk result (λ planned.
        AllOpen (T.held sources.now.lists.now) sources.now.after (leaves_of planned.iter)) }
    ensures free { IfOk result (λ planned.
        AllKnown (place_of sources.now.known.now) (leaves_of planned.iter) → steps.new ≡ steps.old) }
    ensures counts { steps.old ≤ steps.new }
{
    if phrase.words.is_empty() {
        return Ok(plan_no_words(sources.def, phrase.fields));
    }
    let size = least_size(sources.lists, phrase.words);
    let iter = phrase_iter(sources, phrase, steps)?;
    Ok(Planned {
        iter: Iter::of_phrase(iter),
        size,
    })
}

// The iterator of a phrase.
fn phrase_iter<T: Lists, L: Ledger>(
    sources: &Sources<T>,
    phrase: &Phrase,
    steps: &mut Steps<L>,
) -> Result<PhraseIter, NoMemory>
    requires { KnownFit (T.held sources.now.lists.now) sources.now.after (place_of sources.now.known.now) }
    ensures words { IfOk result (λ iter. AreOfWords phrase.now.words.now iter.words iter.order) }
    ensures fields { IfOk result (λ iter. iter.fields ≡ phrase.now.fields.now) }
    ensures slop { IfOk result (λ iter. iter.slop ≡ phrase.now.slop) }
    ensures in_order { IfOk result (λ iter. iter.in_order ≡ phrase.now.in_order) }
    ensures ready { IfOk result (λ iter.
        LeavesReady (T.held sources.now.lists.now) iter.words (sources.now.after + 1)) }
    ensures placed { IfOk result (λ iter.
        AllOpen (T.held sources.now.lists.now) sources.now.after iter.words) }
    ensures free { IfOk result (λ iter.
        AllKnown (place_of sources.now.known.now) iter.words → steps.new ≡ steps.old) }
    ensures counts { steps.old ≤ steps.new }
{
    let made = phrase_leaves(sources, phrase, steps)?;
    let fields = phrase.fields.copy(sources.alloc)?;
    Ok(PhraseIter {
        alloc: sources.alloc,
        words: made.leaves,
        order: made.order,
        fields,
        slop: phrase.slop,
        in_order: phrase.in_order,
    })
}

// All ids where one of the fields is searched, and else none.
fn plan_no_words(def: &IndexDef, fields: &Fields) -> Planned
    ensures set { HasAllIf (is_searched def.now fields.now) result }
    ensures ready { AlwaysReady result }
    ensures leaves { leaves_of result.iter ≡ [] }
{
    if is_searched(def, fields) {
        Planned::all()
    } else {
        Planned::none()
    }
}

// Whether the words of one of the fields are found.
fn is_searched(def: &IndexDef, fields: &Fields) -> bool
    ensures { result ≡ is_searched def.now fields.now }
{
    match fields {
        Fields::All => def.fields.as_slice().iter().any(|field| has_words(field)),
        Fields::Named(numbers) => has_words_at(def.fields.as_slice(), numbers.as_slice()),
    }
}

fn has_words_at(fields: &[Field], numbers: &[u16]) -> bool
    ensures { result ≡ has_words_at fields.now numbers.now }
{
    numbers.iter().any(|number| is_searched_at(fields, *number))
}

fn is_searched_at(fields: &[Field], number: u16) -> bool
    ensures { result ≡ is_searched_at fields.now number }
{
    match fields.get(usize::from(number)) {
        Some(field) => has_words(field),
        None => false,
    }
}

fn has_words(field: &Field) -> bool
    ensures { result ≡ has_words field.now }
{
    field.kind.is_text() && !field.noindex
}

// The fewest entries that the list of one of the words has.
fn least_size<T: Lists>(lists: &T, words: &[Bytes]) -> u64 {
    let mut least = u64::MAX;
    for word in words {
        least = least.min(word_size(lists, word.as_slice()));
    }
    least
}

/// The leaves of the words of a phrase, one for words that are equal, and of each word the place of its leaf.
#[derive(Drop)]
struct WordLeaves {
    leaves: ListOf<Leaf>,
    order: ListOf<usize>,
}

// A leaf for each word of a phrase, and for equal words one.
fn phrase_leaves<T: Lists, L: Ledger>(
    sources: &Sources<T>,
    phrase: &Phrase,
    steps: &mut Steps<L>,
) -> Result<WordLeaves, NoMemory>
    requires { KnownFit (T.held sources.now.lists.now) sources.now.after (place_of sources.now.known.now) }
    ensures words { IfOk result (λ made. AreOfWords phrase.now.words.now made.leaves made.order) }
    ensures ready { IfOk result (λ made.
        LeavesReady (T.held sources.now.lists.now) made.leaves (sources.now.after + 1)) }
    ensures placed { IfOk result (λ made.
        AllOpen (T.held sources.now.lists.now) sources.now.after made.leaves) }
    ensures free { IfOk result (λ made.
        AllKnown (place_of sources.now.known.now) made.leaves → steps.new ≡ steps.old) }
    ensures counts { steps.old ≤ steps.new }
{
    let mut made = WordLeaves {
        leaves: ListOf::new(sources.alloc),
        order: ListOf::new(sources.alloc),
    };
    add_leaves(sources, phrase, &mut made, steps)?;
    Ok(made)
}

// The leaves of the words go where none are.
fn add_leaves<T: Lists, L: Ledger>(
    sources: &Sources<T>,
    phrase: &Phrase,
    made: &mut WordLeaves,
    steps: &mut Steps<L>,
) -> Result<(), NoMemory>
    requires known { KnownFit (T.held sources.now.lists.now) sources.now.after (place_of sources.now.known.now) }
    requires empty { made.old.leaves ≡ [] }
    requires none { made.old.order ≡ [] }
    ensures words { OnOk result (AreOfWords phrase.now.words.now made.new.leaves made.new.order) }
    ensures ready { OnOk result
        (LeavesReady (T.held sources.now.lists.now) made.new.leaves (sources.now.after + 1)) }
    ensures placed { OnOk result
        (AllOpen (T.held sources.now.lists.now) sources.now.after made.new.leaves) }
    ensures free { OnOk result
        (AllKnown (place_of sources.now.known.now) made.new.leaves → steps.new ≡ steps.old) }
    ensures counts { steps.old ≤ steps.new }
{
    let wanted = Wanted {
        fields: phrase.fields,
        low: 0,
        high: 0,
    };
    let mut places = BTreeMap::new(sources.alloc);
    'words: for word in phrase.words {
        add_next(sources, word, &wanted, &mut places, made, steps)?;
    }
    Ok(())
}

// The next word of a phrase: where it has a leaf, its place goes behind those of the words before, and else a leaf too.
fn add_next<'w, T: Lists, L: Ledger>(
    sources: &Sources<T>,
    word: &'w Bytes,
    wanted: &Wanted,
    places: &mut BTreeMap<&'w [u8], usize>,
    made: &mut WordLeaves,
    steps: &mut Steps<L>,
) -> Result<(), NoMemory>
    requires { KnownFit (T.held sources.now.lists.now) sources.now.after (place_of sources.now.known.now) }
    ensures words { OnOk result ((words : List (List ℕ)) → AreOfWords words made.old.leaves made.old.order
        → AreOfWords (words ++ word.now ∷ []) made.new.leaves made.new.order) }
    ensures ready { OnOk result (LeavesReady (T.held sources.now.lists.now) made.old.leaves (sources.now.after + 1)
        → LeavesReady (T.held sources.now.lists.now) made.new.leaves (sources.now.after + 1)) }
    ensures placed { OnOk result (AllOpen (T.held sources.now.lists.now) sources.now.after made.old.leaves
        → AllOpen (T.held sources.now.lists.now) sources.now.after made.new.leaves) }
    ensures free { OnOk result (AllKnown (place_of sources.now.known.now) made.new.leaves
        → (AllKnown (place_of sources.now.known.now) made.old.leaves) × (steps.new ≡ steps.old)) }
    ensures counts { steps.old ≤ steps.new }
{
    let place = place_in(places, word.as_slice());
    if is_of_word(made.leaves.as_slice(), place, word.as_slice()) {
        add_turn(made, place)?;
        return Ok(());
    }
    keep_place(places, word, made.leaves.len())?;
    add_word(sources, word, wanted, made, steps)
}

// The place of a leaf goes behind those of the words before.
fn add_turn(made: &mut WordLeaves, place: usize) -> Result<(), NoMemory>
    ensures leaves { OnOk result (made.new.leaves ≡ made.old.leaves) }
    ensures order { OnOk result (made.new.order ≡ made.old.order ++ place ∷ []) }
{
    made.order.push(place)?;
    Ok(())
}

// Keeps the place of a word's leaf.
fn keep_place<'w>(
    places: &mut BTreeMap<&'w [u8], usize>,
    word: &'w Bytes,
    place: usize,
) -> Result<(), NoMemory> {
    places.insert(word.as_slice(), place)?;
    Ok(())
}

// The place that is kept of a word. It only saves a search, as the leaf there is looked at.
fn place_in(places: &BTreeMap<&[u8], usize>, word: &[u8]) -> usize {
    match places.get(word) {
        Some(place) => *place,
        None => usize::MAX,
    }
}

// Whether the leaf at a place is that of a word.
fn is_of_word(leaves: &[Leaf], place: usize, word: &[u8]) -> bool
    ensures { IsTrue result → slice_get (list_names leaves.now) place ≡ Some (ListName.Word word.now) }
{
    match leaves.get(place) {
        Some(leaf) => names_word(&leaf.list, word),
        None => false,
    }
}

// Whether a list is that of a word.
fn names_word(list: &ListName, word: &[u8]) -> bool
    ensures { IsTrue result → list.now ≡ ListName.Word word.now }
{
    match list {
        ListName::Word { text } => text.as_slice() == word,
        _ => false,
    }
}

// The leaf of a word goes behind the others, and its place behind those of the words before.
fn add_word<T: Lists, L: Ledger>(
    sources: &Sources<T>,
    word: &Bytes,
    wanted: &Wanted,
    made: &mut WordLeaves,
    steps: &mut Steps<L>,
) -> Result<(), NoMemory>
    requires { KnownFit (T.held sources.now.lists.now) sources.now.after (place_of sources.now.known.now) }
    ensures words { OnOk result ((words : List (List ℕ)) → AreOfWords words made.old.leaves made.old.order
        → AreOfWords (words ++ word.now ∷ []) made.new.leaves made.new.order) }
    ensures ready { OnOk result (LeavesReady (T.held sources.now.lists.now) made.old.leaves (sources.now.after + 1)
        → LeavesReady (T.held sources.now.lists.now) made.new.leaves (sources.now.after + 1)) }
    ensures placed { OnOk result (AllOpen (T.held sources.now.lists.now) sources.now.after made.old.leaves
        → AllOpen (T.held sources.now.lists.now) sources.now.after made.new.leaves) }
    ensures free { OnOk result (AllKnown (place_of sources.now.known.now) made.new.leaves
        → (AllKnown (place_of sources.now.known.now) made.old.leaves) × (steps.new ≡ steps.old)) }
    ensures counts { steps.old ≤ steps.new }
{
    made.order.push(made.leaves.len())?;
    add_leaf(&mut made.leaves, word_leaf(sources, word, wanted, steps))?;
    Ok(())
}

// Puts a leaf behind the others, where it could be made.
fn add_leaf(leaves: &mut ListOf<Leaf>, made: Result<Leaf, NoMemory>) -> Result<(), NoMemory>
    ensures { OnOk result (Gains made leaves.old leaves.new) }
{
    let leaf = made?;
    leaves.push(leaf)?;
    Ok(())
}

// The leaf of a word.
fn word_leaf<T: Lists, L: Ledger>(
    sources: &Sources<T>,
    word: &Bytes,
    wanted: &Wanted,
    steps: &mut Steps<L>,
) -> Result<Leaf, NoMemory>
    requires { KnownFit (T.held sources.now.lists.now) sources.now.after (place_of sources.now.known.now) }
    ensures name { IfOk result (λ leaf. leaf.list ≡ ListName.Word word.now) }
    ensures ready { IfOk result (λ leaf.
        WordReady (T.held sources.now.lists.now) leaf (sources.now.after + 1)) }
    ensures placed { IfOk result (λ leaf.
        IsOpenAt (T.held sources.now.lists.now) leaf.list sources.now.after leaf.place) }
    ensures free { IfOk result (λ leaf.
        IsSome (place_of sources.now.known.now leaf.list) → steps.new ≡ steps.old) }
    ensures counts { steps.old ≤ steps.new }
{
    let entries = word_size(sources.lists, word.as_slice());
    let text = word.clone()?;
    leaf_of(sources, ListName::Word { text }, entries, wanted, steps)
}
