//! The tree of a query as a tree of iterators.
ghost use Rattle.std.specs.Prelude.{◌≡◌, ◌≤◌, ◌+◌, [], true, IfOk, OnOk};
ghost use Rattle.ft_base.specs.declared.query.Query.TheVariants as tree;
ghost use Rattle.ft_meaning.specs.Holds.{holds};
ghost use Rattle.id_iters.specs.Fitting.{leaves_of};
ghost use Rattle.id_iters.specs.Ready.{Ready};
ghost use Rattle.list_plan.specs.Known.{KnownFit, place_of};
ghost use Rattle.query_merge.specs.Merged.{marked};
ghost use Rattle.query_plan.specs.Plans.{AllKnown, AllOpen, AllPartsKnown, AllPartsOpen, AllPartsReady, AllTell, Tells, TellTogether, ids_of, part_has};
ghost use Rattle.query_plan.specs.Sought.{is_single};

use crate::phrases::{Phrase, plan_phrase};
use crate::ranges::plan_range;
use crate::tags::plan_tags;
use crate::words::{plan_prefix, plan_word};
use ft_base::{NoMemory, Query, Steps};
use id_iters::Lists;
use list_plan::{Part, Planned, Sources, add_part, every_part, some_part};
use query_merge::{is_set, marks_of};
use std::sync::ledger::Ledger;

/// The plan of a part of a query, or of the whole.
#[cycle(part)]
pub fn plan_part<T: Lists, L: Ledger>(
    sources: &Sources<T>,
    query: &Query,
    steps: &mut Steps<L>,
) -> Result<Part, NoMemory>
    requires { KnownFit (T.held sources.now.lists.now) sources.now.after (place_of sources.now.known.now) }
    ensures set { IfOk result (λ part.
        Tells sources.now.def.now (T.held sources.now.lists.now) (T.named sources.now.lists.now)
        (λ doc. holds query.now sources.now.def.now doc)
        (part_has (T.held sources.now.lists.now) part)) }
    ensures ready { IfOk result (λ part.
        Ready (T.held sources.now.lists.now) part.planned.iter (sources.now.after + 1)) }
    ensures placed { IfOk result (λ part.
        AllOpen (T.held sources.now.lists.now) sources.now.after (leaves_of part.planned.iter)) }
    ensures free { IfOk result (λ part.
        AllKnown (place_of sources.now.known.now) (leaves_of part.planned.iter) → steps.new ≡ steps.old) }
    ensures counts { steps.old ≤ steps.new }
{
    take_room(sources, query)?;
    match query {
        Query::And(parts) => plan_every(sources, parts.as_slice(), steps),
        Query::Or(parts) => plan_some(sources, parts.as_slice(), steps),
        Query::Not(part) => plan_other(sources, part.get(), steps),
        _ => plan_single(sources, query, steps),
    }
}

// Takes room for what a part needs beside its leaves and unions.
fn take_room<T>(sources: &Sources<T>, query: &Query) -> Result<(), NoMemory> {
    match query {
        Query::Not(_) => sources.room.take_part(),
        Query::Phrase { .. } => sources.room.take_part(),
        _ => Ok(()),
    }
}

// The plan of a part that asks nothing of others.
fn plan_single<T: Lists, L: Ledger>(
    sources: &Sources<T>,
    query: &Query,
    steps: &mut Steps<L>,
) -> Result<Part, NoMemory>
    requires known { KnownFit (T.held sources.now.lists.now) sources.now.after (place_of sources.now.known.now) }
    requires single { is_single query.now ≡ true }
    ensures set { IfOk result (λ part.
        Tells sources.now.def.now (T.held sources.now.lists.now) (T.named sources.now.lists.now)
        (λ doc. holds query.now sources.now.def.now doc)
        (part_has (T.held sources.now.lists.now) part)) }
    ensures ready { IfOk result (λ part.
        Ready (T.held sources.now.lists.now) part.planned.iter (sources.now.after + 1)) }
    ensures placed { IfOk result (λ part.
        AllOpen (T.held sources.now.lists.now) sources.now.after (leaves_of part.planned.iter)) }
    ensures free { IfOk result (λ part.
        AllKnown (place_of sources.now.known.now) (leaves_of part.planned.iter) → steps.new ≡ steps.old) }
    ensures counts { steps.old ≤ steps.new }
{
    let planned = plan_leaf(sources, query, steps)?;
    Ok(Part::new(planned))
}

// The ids of a part that asks nothing of others. An optional part asks for nothing at all.
fn plan_leaf<T: Lists, L: Ledger>(
    sources: &Sources<T>,
    query: &Query,
    steps: &mut Steps<L>,
) -> Result<Planned, NoMemory>
    requires known { KnownFit (T.held sources.now.lists.now) sources.now.after (place_of sources.now.known.now) }
    requires single { is_single query.now ≡ true }
    ensures set { IfOk result (λ planned.
        Tells sources.now.def.now (T.held sources.now.lists.now) (T.named sources.now.lists.now)
        (λ doc. holds query.now sources.now.def.now doc)
        (ids_of (T.held sources.now.lists.now) planned)) }
    ensures ready { IfOk result (λ planned.
        Ready (T.held sources.now.lists.now) planned.iter (sources.now.after + 1)) }
    ensures placed { IfOk result (λ planned.
        AllOpen (T.held sources.now.lists.now) sources.now.after (leaves_of planned.iter)) }
    ensures free { IfOk result (λ planned.
        AllKnown (place_of sources.now.known.now) (leaves_of planned.iter) → steps.new ≡ steps.old) }
    ensures counts { steps.old ≤ steps.new }
{
    match query {
        Query::Word { fields, text } => plan_word(sources, fields, text, steps),
        Query::Prefix { fields, text } => plan_prefix(sources, fields, text, steps),
        Query::Phrase {
            fields,
            words,
            slop,
            in_order,
        } => {
            let phrase = Phrase {
                fields,
                words: words.as_slice(),
                slop: *slop,
                in_order: *in_order,
            };
            plan_phrase(sources, &phrase, steps)
        }
        Query::Tags { field, tags } => plan_tags(sources, *field, tags, steps),
        Query::Range { field, low, high } => plan_range(sources, *field, *low, *high, steps),
        Query::Empty => Ok(Planned::none()),
        _ => Ok(Planned::all()),
    }
}

// The plan of parts that all have to be met.
#[cycle(part)]
fn plan_every<T: Lists, L: Ledger>(
    sources: &Sources<T>,
    queries: &[Query],
    steps: &mut Steps<L>,
) -> Result<Part, NoMemory>
    requires { KnownFit (T.held sources.now.lists.now) sources.now.after (place_of sources.now.known.now) }
    ensures set { IfOk result (λ part.
        Tells sources.now.def.now (T.held sources.now.lists.now) (T.named sources.now.lists.now)
        (λ doc. holds (tree.And queries.now) sources.now.def.now doc)
        (part_has (T.held sources.now.lists.now) part)) }
    ensures ready { IfOk result (λ part.
        Ready (T.held sources.now.lists.now) part.planned.iter (sources.now.after + 1)) }
    ensures placed { IfOk result (λ part.
        AllOpen (T.held sources.now.lists.now) sources.now.after (leaves_of part.planned.iter)) }
    ensures free { IfOk result (λ part.
        AllKnown (place_of sources.now.known.now) (leaves_of part.planned.iter) → steps.new ≡ steps.old) }
    ensures counts { steps.old ≤ steps.new }
{
    let parts = plan_parts(sources, queries, steps)?;
    Ok(every_part(sources.alloc, &sources.room, parts)?)
}

// The plan of parts one of which has to be met.
#[cycle(part)]
fn plan_some<T: Lists, L: Ledger>(
    sources: &Sources<T>,
    queries: &[Query],
    steps: &mut Steps<L>,
) -> Result<Part, NoMemory>
    requires { KnownFit (T.held sources.now.lists.now) sources.now.after (place_of sources.now.known.now) }
    ensures set { IfOk result (λ part.
        Tells sources.now.def.now (T.held sources.now.lists.now) (T.named sources.now.lists.now)
        (λ doc. holds (tree.Or queries.now) sources.now.def.now doc)
        (part_has (T.held sources.now.lists.now) part)) }
    ensures ready { IfOk result (λ part.
        Ready (T.held sources.now.lists.now) part.planned.iter (sources.now.after + 1)) }
    ensures placed { IfOk result (λ part.
        AllOpen (T.held sources.now.lists.now) sources.now.after (leaves_of part.planned.iter)) }
    ensures free { IfOk result (λ part.
        AllKnown (place_of sources.now.known.now) (leaves_of part.planned.iter) → steps.new ≡ steps.old) }
    ensures counts { steps.old ≤ steps.new }
{
    let parts = plan_parts(sources, queries, steps)?;
    Ok(some_part(sources.alloc, &sources.room, parts)?)
}

// The plan of a part that must not be met.
#[cycle(part)]
fn plan_other<T: Lists, L: Ledger>(
    sources: &Sources<T>,
    query: &Query,
    steps: &mut Steps<L>,
) -> Result<Part, NoMemory>
    requires { KnownFit (T.held sources.now.lists.now) sources.now.after (place_of sources.now.known.now) }
    ensures set { IfOk result (λ part.
        Tells sources.now.def.now (T.held sources.now.lists.now) (T.named sources.now.lists.now)
        (λ doc. holds (tree.Not query.now) sources.now.def.now doc)
        (part_has (T.held sources.now.lists.now) part)) }
    ensures ready { IfOk result (λ part.
        Ready (T.held sources.now.lists.now) part.planned.iter (sources.now.after + 1)) }
    ensures placed { IfOk result (λ part.
        AllOpen (T.held sources.now.lists.now) sources.now.after (leaves_of part.planned.iter)) }
    ensures free { IfOk result (λ part.
        AllKnown (place_of sources.now.known.now) (leaves_of part.planned.iter) → steps.new ≡ steps.old) }
    ensures counts { steps.old ≤ steps.new }
{
    let part = plan_part(sources, query, steps)?;
    Ok(part.other())
}

// The plans of some parts, of which equal ones count once.
#[cycle(part)]
fn plan_parts<T: Lists, L: Ledger>(
    sources: &Sources<T>,
    queries: &[Query],
    steps: &mut Steps<L>,
) -> Result<Vec<Part>, NoMemory>
    requires { KnownFit (T.held sources.now.lists.now) sources.now.after (place_of sources.now.known.now) }
    ensures set { IfOk result (λ parts.
        TellTogether sources.now.def.now (T.held sources.now.lists.now) (T.named sources.now.lists.now)
        queries.now parts.items) }
    ensures ready { IfOk result (λ parts.
        AllPartsReady (T.held sources.now.lists.now) parts.items (sources.now.after + 1)) }
    ensures placed { IfOk result (λ parts.
        AllPartsOpen (T.held sources.now.lists.now) sources.now.after parts.items) }
    ensures free { IfOk result (λ parts.
        AllPartsKnown (place_of sources.now.known.now) parts.items → steps.new ≡ steps.old) }
    ensures counts { steps.old ≤ steps.new }
{
    let marks = marks_of(sources.alloc, queries)?;
    let mut parts = Vec::new(sources.alloc);
    plan_each(sources, queries, marks.as_slice(), &mut parts, steps)?;
    Ok(parts)
}

// The plans of the marked parts, in their order, go into a vector that has none.
#[cycle(part)]
fn plan_each<T: Lists, L: Ledger>(
    sources: &Sources<T>,
    queries: &[Query],
    marks: &[bool],
    parts: &mut Vec<Part>,
    steps: &mut Steps<L>,
) -> Result<(), NoMemory>
    requires known { KnownFit (T.held sources.now.lists.now) sources.now.after (place_of sources.now.known.now) }
    requires empty { parts.old.items ≡ [] }
    ensures set { OnOk result
        (AllTell sources.now.def.now (T.held sources.now.lists.now) (T.named sources.now.lists.now)
        (marked queries.now marks.now) parts.new.items) }
    ensures ready { OnOk result
        (AllPartsReady (T.held sources.now.lists.now) parts.new.items (sources.now.after + 1)) }
    ensures placed { OnOk result
        (AllPartsOpen (T.held sources.now.lists.now) sources.now.after parts.new.items) }
    ensures free { OnOk result
        (AllPartsKnown (place_of sources.now.known.now) parts.new.items → steps.new ≡ steps.old) }
    ensures counts { steps.old ≤ steps.new }
{
    'queries: for at in 0..queries.len() {
        if !is_set(marks, at) {
            continue;
        }
        add_part(parts, plan_part(sources, &queries[at], steps))?;
    }
    Ok(())
}
