//! Words and prefixes as sets of ids.
ghost use Rattle.std.specs.Prelude.{◌≡◌, ◌≤◌, ◌+◌, ◌++◌, ◌∷◌, [], map, IfOk, OnOk};
ghost use Rattle.ft_meaning.specs.Holds.{has_of};
ghost use Rattle.id_iters.specs.Fitting.{leaves_of};
ghost use Rattle.id_iters.specs.Ready.{Ready};
ghost use Rattle.list_plan.specs.Known.{KnownFit, place_of};
ghost use Rattle.query_plan.specs.Plans.{AllKnown, AllOpen, Tells, ids_of};
ghost use Rattle.query_plan.specs.Sought.{words_with};

use ft_base::{Bytes, Fields, NoMemory, Steps};
use id_iters::{ListName, Lists};
use list_plan::{Planned, Sources, Wanted, plan_list, plan_lists};
use std::sync::ledger::Ledger;

/// The documents that have a word in some of the fields.
pub fn plan_word<T: Lists, L: Ledger>(
    sources: &Sources<T>,
    fields: &Fields,
    word: &Bytes,
    steps: &mut Steps<L>,
) -> Result<Planned, NoMemory>
    requires { KnownFit (T.held sources.now.lists.now) sources.now.after (place_of sources.now.known.now) }
    ensures set { IfOk result (λ planned.
        Tells sources.now.def.now (T.held sources.now.lists.now) (T.named sources.now.lists.now)
        (λ doc. (has_of sources.now.def.now doc).word fields.now word.now)
        (ids_of (T.held sources.now.lists.now) planned)) }
    ensures ready { IfOk result (λ planned.
        Ready (T.held sources.now.lists.now) planned.iter (sources.now.after + 1)) }
    ensures placed { IfOk result (λ planned.
        AllOpen (T.held sources.now.lists.now) sources.now.after (leaves_of planned.iter)) }
    ensures free { IfOk result (λ planned.
        AllKnown (place_of sources.now.known.now) (leaves_of planned.iter) → steps.new ≡ steps.old) }
    ensures counts { steps.old ≤ steps.new }
{
    let text = word.clone()?;
    let wanted = Wanted {
        fields,
        low: 0,
        high: 0,
    };
    Ok(plan_list(sources, ListName::Word { text }, &wanted, steps)?)
}

/// The documents that have a word in some of the fields that begins with a text.
pub fn plan_prefix<T: Lists, L: Ledger>(
    sources: &Sources<T>,
    fields: &Fields,
    text: &Bytes,
    steps: &mut Steps<L>,
) -> Result<Planned, NoMemory>
    requires { KnownFit (T.held sources.now.lists.now) sources.now.after (place_of sources.now.known.now) }
    ensures set { IfOk result (λ planned.
        Tells sources.now.def.now (T.held sources.now.lists.now) (T.named sources.now.lists.now)
        (λ doc. (has_of sources.now.def.now doc).prefix fields.now text.now)
        (ids_of (T.held sources.now.lists.now) planned)) }
    ensures ready { IfOk result (λ planned.
        Ready (T.held sources.now.lists.now) planned.iter (sources.now.after + 1)) }
    ensures placed { IfOk result (λ planned.
        AllOpen (T.held sources.now.lists.now) sources.now.after (leaves_of planned.iter)) }
    ensures free { IfOk result (λ planned.
        AllKnown (place_of sources.now.known.now) (leaves_of planned.iter) → steps.new ≡ steps.old) }
    ensures counts { steps.old ≤ steps.new }
{
    let lists = words_with(sources, text.as_slice())?;
    let wanted = Wanted {
        fields,
        low: 0,
        high: 0,
    };
    Ok(plan_lists(sources, lists, &wanted, steps)?)
}

// The lists of the words that begin with a text.
fn words_with<T: Lists>(sources: &Sources<T>, text: &[u8]) -> Result<Vec<ListName>, NoMemory>
    ensures { IfOk result (λ found. found.items
        ≡ map (λ word. ListName.Word word) (words_with text.now (T.named sources.now.lists.now).words)) }
{
    let mut found = Vec::new(sources.alloc);
    let mut after = None;
    'words: while let Some(word) = sources.lists.next_word(text, after)? {
        add_word(sources, &mut found, word)?;
        after = Some(word);
    }
    Ok(found)
}

// The list of a word goes behind the others.
fn add_word<T>(sources: &Sources<T>, found: &mut Vec<ListName>, word: &[u8]) -> Result<(), NoMemory>
    ensures { OnOk result (found.new.items ≡ found.old.items ++ ListName.Word word.now ∷ []) }
{
    sources.room.take_name(word)?;
    let text = Bytes::from_slice(sources.alloc, word)?;
    found.push(ListName::Word { text })?;
    Ok(())
}
