//! What a new cursor is read from: a stream of the documents that its query finds, or rows that are made at once.
ghost use Rattle.std.specs.Prelude.{◌≡◌, ◌<◌, map, true, IfOk};
ghost use Rattle.std.specs.List.{list_all};
ghost use Rattle.agg_pipeline.specs.Stream.{is_of_rows};
ghost use Rattle.cmd_parse.specs.Aggregating.{aggregate_of};
ghost use Rattle.cursor_book.specs.declared.cursor.Body.TheVariants as body;
ghost use Rattle.ft_machine.specs.Opening.{body_of, cells_alone};
ghost use Rattle.ft_engine.specs.Reading.{HandsOut, IsReadable, rows_of};

use crate::indexes::ids::ids_found;
use agg_pipeline::{StreamSteps, are_of_rows};
use cmd_parse::AggregateSpec;
use cursor_book::{Body, RowsLeft};
use ft_base::{NoMemory, Query, Row, Steps};
use ft_index::FtIndex;
use hash_store::HashStore;
use search_exec::found_rows;
use std::alloc::Global;
use std::marker::Brand;
use std::sync::ledger::{Blank, Ledger};

/// What a new cursor is read from: documents one by one, or rows that are made at once.
pub fn new_body(
    store: &mut HashStore,
    index: &FtIndex,
    alloc: Global,
    query: Query,
    asked: AggregateSpec<'_>,
) -> Result<Body, NoMemory>
    requires readable { IsReadable index.now store.old.space }
    ensures body { IfOk result (λ made. made ≡ body_of (aggregate_of asked.entry) index.now.def query store.old.space) }
    ensures store { HandsOut store.old store.new }
{
    if are_of_rows(asked.steps.as_slice()) {
        return Ok(stream_body(alloc, query, asked));
    }
    let body = rows_body(store, index, alloc, &query, &asked);
    drop(query);
    drop(asked);
    body
}

/// A stream that begins with the first document.
fn stream_body(alloc: Global, query: Query, asked: AggregateSpec<'_>) -> Body
    requires { list_all is_of_rows asked.steps ≡ true }
    ensures { result ≡ body.Stream query (asked.entry.load, asked.entry.steps) 0 }
{
    let steps = StreamSteps::new(alloc, asked.load, asked.steps).unwrap();
    Body::Stream {
        query,
        steps,
        after: 0,
    }
}

/// The rows that all steps make of the documents found, for a cursor to keep.
fn rows_body(
    store: &mut HashStore,
    index: &FtIndex,
    alloc: Global,
    query: &Query,
    asked: &AggregateSpec<'_>,
) -> Result<Body, NoMemory>
    requires readable { IsReadable index.now store.old.space }
    ensures body { IfOk result (λ made. made
        ≡ body.Rows (map cells_alone (rows_of (aggregate_of asked.now) store.old.space index.now.def query.now))) }
    ensures store { HandsOut store.old store.new }
{
    let mut rows = all_rows::<Brand>(store, index, alloc, query, asked, Blank::new(1))?;
    keep_cells(rows.as_mut_slice());
    Ok(Body::Rows(RowsLeft::new(rows)))
}

/// The rows that all steps make of the documents found.
fn all_rows<L: Ledger>(
    store: &mut HashStore,
    index: &FtIndex,
    alloc: Global,
    query: &Query,
    asked: &AggregateSpec<'_>,
    blank: Blank,
) -> Result<Vec<Row>, NoMemory>
    requires name { blank.name ≡ L.name }
    requires parts { blank.parts ≡ L.parts }
    requires some { 0 < L.parts }
    requires readable { IsReadable index.now store.old.space }
    ensures rows { IfOk result (λ rows. rows.items ≡ rows_of (aggregate_of asked.now) store.old.space index.now.def query.now) }
    ensures store { HandsOut store.old store.new }
{
    let mut counter = Steps::<L>::new(blank);
    let mut iter = ids_found(store, index, alloc, query, &mut counter)?;
    let rows = found_rows(
        alloc,
        index.def(),
        index,
        store,
        &mut iter,
        &asked.load,
        asked.steps.as_slice(),
        &mut counter,
    );
    drop(iter);
    drop(counter);
    rows
}

/// Lets the documents of rows go: a row that waits to be read is kept for its cells alone.
fn keep_cells(rows: &mut [Row])
    ensures { rows.new ≡ map cells_alone rows.old }
{
    for row in rows.iter_mut() {
        keep_row(row);
    }
}

fn keep_row(row: &mut Row)
    ensures { row.new ≡ cells_alone row.old }
{
    row.doc = None;
}
