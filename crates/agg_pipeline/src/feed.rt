//! The rows of an aggregate while its documents come one by one. A row that must be held shares its document: none is copied.
ghost use Rattle.std.specs.Prelude.{◌≡◌, ◌<◌, ◌≤◌, ◌∷◌, ◌++◌, [], length, fold, option_to_list, IfOk, IfSome, OnOk};
ghost use Rattle.agg_pipeline.specs.declared.feed.Made.TheVariants.{First as AFirst, Groups as AGroups};
ghost use Rattle.agg_pipeline.specs.Feeding.{AreBehindGroup, AreBehindSort, EndsWith, Gains, Gives, Holds, IsBegun, TakesIn, first_count, first_other, first_steps, later_steps};
ghost use Rattle.agg_pipeline.specs.OneByOne.{rows_of};
ghost use Rattle.agg_pipeline.specs.Stream.{AreOfRows};
ghost use Rattle.agg_pipeline.specs.Table.{note_row};

use crate::pipeline::pipe;
use crate::ranking::{into_items, offer_doc};
use crate::row_steps::push_row;
use crate::step::{Load, Reducer, Step};
use crate::stream::{is_of_rows, made_cells, pipe_doc};
use crate::table::Groups;
use expr_eval::LentRow;
use ft_base::{Bytes, Doc, IndexDef, NoMemory, Row};
use row_sort::FirstRows;
use std::alloc::Global;

/// What was made of the documents that came, by LOAD and the first steps. The steps that take a row at a time are done as
/// a document comes, so that what a FILTER drops is never held; a GROUPBY behind them takes the row in at once, and a
/// SORTBY with MAX holds no more than twice MAX rows.
#[derive(Drop)]
pub struct Feed<'a> {
    alloc: Global,
    def: &'a IndexDef,
    load: &'a Load,
    first: &'a [Step],
    later: &'a [Step],
    made: Made,
}

/// The rows so far, their groups, or the first of them. Before the first row comes there are no first rows: the order of
/// the keys takes memory, and a new feed takes none.
#[derive(Drop)]
pub enum Made {
    Rows(Vec<Row>),
    Groups(Groups),
    First(Option<FirstRows<Row>>),
}

impl<'a> Feed<'a> {
    /// No document came yet. No memory is taken.
    pub fn new(alloc: Global, def: &'a IndexDef, load: &'a Load, steps: &'a [Step]) -> Feed<'a>
        ensures { Holds def.now load.now steps.now [] result }
    {
        let later = later_steps(steps);
        Feed {
            alloc,
            def,
            load,
            first: first_steps(steps),
            later,
            made: begin(alloc, later),
        }
    }

    /// Takes one more document in. After an `Err` the feed may only be dropped.
    pub fn note(&mut self, doc: &Doc) -> Result<(), NoMemory>
        ensures { OnOk result (TakesIn doc.now self.old self.new) }
    {
        match &mut self.made {
            Made::Rows(rows) => hold_doc(self.alloc, self.def, self.load, self.first, rows, doc),
            Made::Groups(groups) => {
                group_doc(
                    self.alloc, self.def, self.load, self.first, self.later, groups, doc,
                )
            }
            Made::First(held) => {
                sort_doc(
                    self.alloc, self.def, self.load, self.first, self.later, held, doc,
                )
            }
        }
    }

    /// What all the steps make of the documents that came.
    pub fn finish(self) -> Result<Vec<Row>, NoMemory>
        ensures { IfOk result (λ rows. Gives self.entry rows.items) }
    {
        let Feed {
            alloc,
            def,
            later,
            made,
            ..
        } = self;
        match made {
            Made::Rows(rows) => pipe(alloc, def, rows, later),
            Made::Groups(groups) => finish_groups(alloc, def, groups, later),
            Made::First(held) => finish_first(alloc, def, held, later),
        }
    }
}

/// What is held before a document comes.
fn begin(alloc: Global, later: &[Step]) -> Made
    ensures { IsBegun later.now result }
{
    match later.first() {
        Some(Step::Group { .. }) => Made::Groups(Groups::new(alloc)),
        Some(Step::Sort { max: Some(_), .. }) => Made::First(None),
        _ => Made::Rows(Vec::new(alloc)),
    }
}

/// Adds the row that the first steps make of a document, where they keep it.
fn hold_doc(
    alloc: Global,
    def: &IndexDef,
    load: &Load,
    first: &[Step],
    rows: &mut Vec<Row>,
    doc: &Doc,
) -> Result<(), NoMemory>
    ensures { OnOk result (AreOfRows first.now → rows.new.items
        ≡ rows.old.items ++ rows_of def.now load.now first.now (doc.now ∷ [])) }
{
    let made = pipe_doc(alloc, def, load, first, doc)?;
    hold_row(rows, made)
}

/// Adds a row, where there is one.
fn hold_row(rows: &mut Vec<Row>, made: Option<Row>) -> Result<(), NoMemory>
    ensures { OnOk result (rows.new.items ≡ rows.old.items ++ option_to_list made) }
{
    match made {
        Some(row) => push_row(rows, row),
        None => Ok(()),
    }
}

/// Takes a document into its group, where a GROUPBY comes behind the first steps.
fn group_doc(
    alloc: Global,
    def: &IndexDef,
    load: &Load,
    first: &[Step],
    later: &[Step],
    groups: &mut Groups,
    doc: &Doc,
) -> Result<(), NoMemory>
    ensures { OnOk result (AreOfRows first.now
        → Gains def.now later.now (rows_of def.now load.now first.now (doc.now ∷ [])) (AGroups groups.old) (AGroups groups.new)) }
{
    match later.first() {
        Some(Step::Group { by, reduce }) => {
            note_doc(
                alloc,
                def,
                load,
                first,
                by.as_slice(),
                reduce.as_slice(),
                groups,
                doc,
            )
        }
        // No feed holds groups for other steps.
        _ => Ok(()),
    }
}

/// Takes the row that the first steps make of a document into its group, where they keep it. The document is lent.
fn note_doc(
    alloc: Global,
    def: &IndexDef,
    load: &Load,
    first: &[Step],
    by: &[Bytes],
    reduce: &[Reducer],
    groups: &mut Groups,
    doc: &Doc,
) -> Result<(), NoMemory>
    ensures { OnOk result (AreOfRows first.now → groups.new
        ≡ fold (note_row def.now by.now reduce.now) groups.old (rows_of def.now load.now first.now (doc.now ∷ []))) }
{
    match made_cells(alloc, def, load, first, doc)? {
        Some(cells) => {
            let row = LentRow {
                cells: &cells,
                doc: Some(doc),
            };
            groups.note(def, by, reduce, row)
        }
        None => Ok(()),
    }
}

/// What the later steps make of the rows whose groups these are.
fn finish_groups(
    alloc: Global,
    def: &IndexDef,
    groups: Groups,
    later: &[Step],
) -> Result<Vec<Row>, NoMemory>
    ensures { IfOk result (λ made. EndsWith def.now later.now (AGroups groups) made.items) }
{
    let (reduce, behind) = group_and_behind(later);
    let rows = groups.finish(alloc, reduce)?;
    pipe(alloc, def, rows, behind)
}

/// The reducers of the GROUPBY that comes first, and the steps behind it.
fn group_and_behind(later: &[Step]) -> (&[Reducer], &[Step])
    ensures { AreBehindGroup later.now result.0.now result.1.now }
{
    match later.split_first() {
        Some((Step::Group { reduce, .. }, behind)) => (reduce.as_slice(), behind),
        // No feed holds groups for other steps.
        _ => (&[], &[]),
    }
}

/// Takes a document among the first rows, where a SORTBY with MAX comes behind the first steps.
fn sort_doc(
    alloc: Global,
    def: &IndexDef,
    load: &Load,
    first: &[Step],
    later: &[Step],
    held: &mut Option<FirstRows<Row>>,
    doc: &Doc,
) -> Result<(), NoMemory>
    ensures { OnOk result (AreOfRows first.now
        → Gains def.now later.now (rows_of def.now load.now first.now (doc.now ∷ [])) (AFirst held.old) (AFirst held.new)) }
{
    match later.first() {
        Some(
            Step::Sort {
                keys,
                max: Some(max),
            },
        ) => {
            offer_doc(
                alloc,
                def,
                load,
                first,
                keys.as_slice(),
                *max as usize,
                held,
                doc,
            )
        }
        // No feed holds first rows for other steps.
        _ => Ok(()),
    }
}

/// What the later steps make of the rows of which these are the first.
fn finish_first(
    alloc: Global,
    def: &IndexDef,
    held: Option<FirstRows<Row>>,
    later: &[Step],
) -> Result<Vec<Row>, NoMemory>
    ensures { IfOk result (λ made. EndsWith def.now later.now (AFirst held) made.items) }
{
    let rows = into_items(alloc, held)?;
    pipe(alloc, def, rows, behind_sort(later))
}

/// The steps behind the SORTBY that comes first.
fn behind_sort(later: &[Step]) -> &[Step]
    ensures { AreBehindSort later.now result.now }
{
    match later.split_first() {
        Some((_, behind)) => behind,
        // No feed holds first rows for no steps.
        None => &[],
    }
}

/// The first steps, which take a row at a time.
fn first_steps(steps: &[Step]) -> &[Step]
    ensures { result.now ≡ first_steps steps.now }
{
    &steps[..first_count(steps)]
}

/// The steps behind them.
fn later_steps(steps: &[Step]) -> &[Step]
    ensures { result.now ≡ later_steps steps.now }
{
    &steps[first_count(steps)..]
}

/// How many of the first steps take a row at a time.
fn first_count(steps: &[Step]) -> usize
    ensures count { result ≡ first_count steps.now }
    ensures within { result ≤ length steps.now }
{
    match first_other(steps) {
        Some(place) => place,
        None => steps.len(),
    }
}

/// The place of the first step that takes all rows at once.
fn first_other(steps: &[Step]) -> Option<usize>
    ensures place { result ≡ first_other steps.now }
    ensures within { IfSome result (λ place. place < length steps.now) }
{
    steps.iter().position(|step| !is_of_rows(step))
}
