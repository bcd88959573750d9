//! Tags as sets of ids.
ghost use Rattle.std.specs.Prelude.{◌≡◌, ◌≤◌, ◌+◌, ◌++◌, ◌∷◌, [], map, IfOk, OnOk};
ghost use Rattle.ft_meaning.specs.Holds.{has_of};
ghost use Rattle.id_iters.specs.Fitting.{leaves_of};
ghost use Rattle.id_iters.specs.Ready.{Ready};
ghost use Rattle.list_plan.specs.Known.{KnownFit, place_of};
ghost use Rattle.query_merge.specs.Merged.{marked};
ghost use Rattle.query_plan.specs.Plans.{AllKnown, AllOpen, Tells, ids_of};
ghost use Rattle.query_plan.specs.Sought.{all_sought, sought_by, words_with};

use ft_base::{Bytes, Fields, ListOf, NoMemory, Steps, TagPart};
use id_iters::{ListName, Lists};
use list_plan::{Planned, Sources, Wanted, plan_lists};
use query_merge::{is_set, marks_of_tags};
use std::sync::ledger::Ledger;

/// The documents that have one of the tags in a field.
pub fn plan_tags<T: Lists, L: Ledger>(
    sources: &Sources<T>,
    field: u16,
    parts: &ListOf<TagPart>,
    steps: &mut Steps<L>,
) -> Result<Planned, NoMemory>
    requires { KnownFit (T.held sources.now.lists.now) sources.now.after (place_of sources.now.known.now) }
    ensures set { IfOk result (λ planned.
        Tells sources.now.def.now (T.held sources.now.lists.now) (T.named sources.now.lists.now)
        (λ doc. (has_of sources.now.def.now doc).tags field parts.now)
        (ids_of (T.held sources.now.lists.now) planned)) }
    ensures ready { IfOk result (λ planned.
        Ready (T.held sources.now.lists.now) planned.iter (sources.now.after + 1)) }
    ensures placed { IfOk result (λ planned.
        AllOpen (T.held sources.now.lists.now) sources.now.after (leaves_of planned.iter)) }
    ensures free { IfOk result (λ planned.
        AllKnown (place_of sources.now.known.now) (leaves_of planned.iter) → steps.new ≡ steps.old) }
    ensures counts { steps.old ≤ steps.new }
{
    let tags = parts.as_slice();
    let marks = marks_of_tags(sources.alloc, tags)?;
    let found = tags_sought(sources, field, tags, marks.as_slice())?;
    let wanted = Wanted {
        fields: &Fields::All,
        low: 0,
        high: 0,
    };
    Ok(plan_lists(sources, found, &wanted, steps)?)
}

// The lists of the tags of a field that some marked part looks for.
fn tags_sought<T: Lists>(
    sources: &Sources<T>,
    field: u16,
    parts: &[TagPart],
    marks: &[bool],
) -> Result<Vec<ListName>, NoMemory>
    ensures { IfOk result (λ found. found.items
        ≡ map (λ tag. ListName.Tag field tag) (all_sought ((T.named sources.now.lists.now).tags field) (marked parts.now marks.now))) }
{
    let mut found = Vec::new(sources.alloc);
    'parts: for at in 0..parts.len() {
        if !is_set(marks, at) {
            continue;
        }
        add_sought(sources, field, &parts[at], &mut found)?;
    }
    Ok(found)
}

// The lists of the tags of a field that a part looks for go behind the others.
fn add_sought<T: Lists>(
    sources: &Sources<T>,
    field: u16,
    part: &TagPart,
    found: &mut Vec<ListName>,
) -> Result<(), NoMemory>
    ensures { OnOk result (found.new.items ≡ found.old.items
        ++ map (λ tag. ListName.Tag field tag) (sought_by ((T.named sources.now.lists.now).tags field) part.now)) }
{
    if part.prefix {
        return add_tags_with(sources, field, part.text.as_slice(), found);
    }
    sources.room.take_name(part.text.as_slice())?;
    let text = part.text.clone()?;
    found.push(ListName::Tag { field, text })?;
    Ok(())
}

// The lists of the tags of a field that begin with a text go behind the others.
fn add_tags_with<T: Lists>(
    sources: &Sources<T>,
    field: u16,
    text: &[u8],
    found: &mut Vec<ListName>,
) -> Result<(), NoMemory>
    ensures { OnOk result (found.new.items ≡ found.old.items
        ++ map (λ tag. ListName.Tag field tag) (words_with text.now ((T.named sources.now.lists.now).tags field))) }
{
    let mut after = None;
    'tags: while let Some(tag) = sources.lists.next_tag(field, text, after)? {
        add_tag(sources, field, tag, found)?;
        after = Some(tag);
    }
    Ok(())
}

// The list of a tag of a field goes behind the others.
fn add_tag<T>(
    sources: &Sources<T>,
    field: u16,
    tag: &[u8],
    found: &mut Vec<ListName>,
) -> Result<(), NoMemory>
    ensures { OnOk result (found.new.items ≡ found.old.items ++ ListName.Tag field tag.now ∷ []) }
{
    sources.room.take_name(tag)?;
    let text = Bytes::from_slice(sources.alloc, tag)?;
    found.push(ListName::Tag { field, text })?;
    Ok(())
}
