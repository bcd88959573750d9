//! A read of a cursor: the next of the rows that it kept, or those of the next documents that its query finds now.
ghost use Rattle.std.specs.Prelude.{◌≡◌, ◌<◌, ◌≤◌, ◌∷◌, ◌^◌, [], if◌then◌else◌, pos, take, IfOk, IsTrue};
ghost use Rattle.cursor_book.specs.declared.cursor.Taken.TheVariants as taken;
ghost use Rattle.ft_base.specs.Reply.{fits_wire};
ghost use Rattle.ft_base.specs.declared.reply.Reply.TheVariants.{Array, Number};
ghost use Rattle.ft_machine.specs.Parts.{Part, last_id, part, part_of, stream_part, stream_rows, stream_taken};
ghost use Rattle.ft_meaning.specs.Holds.{found_of};
ghost use Rattle.ft_engine.specs.Parts.{IsRead, IsTold};
ghost use Rattle.ft_engine.specs.Reading.{HandsOut, IsReadable};

use crate::indexes::ids::ids_behind;
use agg_pipeline::StreamSteps;
use cursor_book::{Body, RowsLeft, Taken};
use doc_reads::{StreamRead, read_stream};
use ft_base::{ListOf, NoMemory, Query, Reply, Steps};
use ft_index::FtIndex;
use hash_store::HashStore;
use id_iters::Hints;
use indexed_store::KeptPlaces;
use reply_buffer::ReplyBuffer;
use search_exec::{lent_rows_reply, rows_reply};
use std::alloc::Global;
use std::marker::Brand;
use std::sync::ledger::{Blank, Ledger};

/// What one read gives.
#[derive(Drop)]
pub struct PartRead {
    /// The rows, as they are replied.
    pub rows: Reply,
    /// What the read takes of the cursor.
    pub taken: Taken,
    /// Whether the cursor ends, as fewer rows came than were asked for.
    pub ends: bool,
}

/// Reads so many rows of the body of the cursor with an id. Of a stream `places` may have where its lists were left, and gets
/// where they are left now.
fn read_body(
    store: &mut HashStore,
    places: &mut KeptPlaces,
    index: &FtIndex,
    alloc: Global,
    body: &Body,
    count: u32,
    id: u64,
) -> Result<PartRead, NoMemory>
    requires readable { IsReadable index.now store.old.space }
    ensures read { IfOk result (λ read. IsRead (part_of index.now.def store.old.space count body.now) read) }
    ensures store { HandsOut store.old store.new }
{
    match body {
        Body::Rows(rows) => read_rows(alloc, rows, count),
        Body::Stream {
            query,
            steps,
            after,
        } => read_found(store, places, index, alloc, query, steps, *after, count, id),
    }
}

/// The first rows of those that are left. They stay where they are.
fn read_rows(alloc: Global, left: &RowsLeft, count: u32) -> Result<PartRead, NoMemory>
    ensures { IfOk result (λ read. IsRead (part count (take count left.now) (taken.Rows count)) read) }
{
    let left = left.as_slice();
    let number = left.len().min(count as usize);
    Ok(PartRead {
        rows: lent_rows_reply(alloc, &left[..number])?,
        taken: Taken::Rows(count as usize),
        ends: number < count as usize,
    })
}

/// The rows of the next documents that a query finds.
fn read_found(
    store: &mut HashStore,
    places: &mut KeptPlaces,
    index: &FtIndex,
    alloc: Global,
    query: &Query,
    steps: &StreamSteps,
    after: u64,
    count: u32,
    id: u64,
) -> Result<PartRead, NoMemory>
    requires readable { IsReadable index.now store.old.space }
    ensures read { IfOk result (λ read. IsRead (stream_part index.now.def steps.now after count
        (stream_taken index.now.def steps.now after count (found_of query.now index.now.def store.old.space))) read) }
    ensures store { HandsOut store.old store.new }
{
    let hints = places.take(id);
    let blank = Blank::new(1);
    let read = next_rows::<Brand>(
        store, index, alloc, query, steps, &hints, after, count, blank,
    );
    drop(hints);
    replied(places, alloc, read?, count, id)
}

/// The next rows as they are replied, and what they take. Where the lists are left is kept.
fn replied(
    places: &mut KeptPlaces,
    alloc: Global,
    read: StreamRead,
    count: u32,
    id: u64,
) -> Result<PartRead, NoMemory>
    ensures { IfOk result (λ made. IsRead (part count read.rows.items (taken.UpTo read.after)) made) }
{
    let StreamRead { rows, after, hints } = read;
    places.keep(id, hints);
    let ends = rows.len() < count as usize;
    Ok(PartRead {
        rows: rows_reply(alloc, rows)?,
        taken: Taken::UpTo(after),
        ends,
    })
}

/// Reads the next documents that a query finds, until there are so many rows.
fn next_rows<L: Ledger>(
    store: &mut HashStore,
    index: &FtIndex,
    alloc: Global,
    query: &Query,
    steps: &StreamSteps,
    hints: &Hints,
    after: u64,
    count: u32,
    blank: Blank,
) -> Result<StreamRead, NoMemory>
    requires name { blank.name ≡ L.name }
    requires parts { blank.parts ≡ L.parts }
    requires some { 0 < L.parts }
    requires readable { IsReadable index.now store.old.space }
    ensures rows { IfOk result (λ read. read.rows.items ≡ stream_rows index.now.def steps.now
        (stream_taken index.now.def steps.now after count (found_of query.now index.now.def store.old.space))) }
    ensures after { IfOk result (λ read. read.after ≡ last_id after
        (stream_taken index.now.def steps.now after count (found_of query.now index.now.def store.old.space))) }
    ensures store { HandsOut store.old store.new }
{
    let mut counter = Steps::<L>::new(blank);
    let iter = ids_behind(store, index, alloc, query, hints, after, &mut counter)?;
    let read = read_stream(
        alloc,
        index.def(),
        index,
        store,
        iter,
        steps,
        after,
        count,
        &mut counter,
    );
    drop(counter);
    read
}

/// What a read that was told takes of the cursor, and whether it ends it.
#[derive(Clone, Copy, Drop)]
pub struct PartTold {
    pub taken: Taken,
    pub ends: bool,
}

/// Reads so many rows of a cursor's body, and writes them with the cursor's id. None where memory runs out.
pub fn tell_part(
    store: &mut HashStore,
    places: &mut KeptPlaces,
    index: &FtIndex,
    alloc: Global,
    body: &Body,
    count: u32,
    id: u64,
    reply: &mut ReplyBuffer,
) -> Option<PartTold>
    requires id { id < 2 ^ 63 }
    requires readable { IsReadable index.now store.old.space }
    ensures told { IsTold (part_of index.now.def store.old.space count body.now) id result reply.new.bytes }
    ensures store { HandsOut store.old store.new }
    ensures room { reply.old.room ≤ reply.new.room }
{
    match read_body(store, places, index, alloc, body, count, id) {
        Ok(read) => write_part(alloc, read, id, reply),
        Err(_) => {
            reply.set_no_memory();
            None
        }
    }
}

/// Writes what was read, with the cursor's id.
fn write_part(alloc: Global, read: PartRead, id: u64, reply: &mut ReplyBuffer) -> Option<PartTold>
    requires fits { IsTrue (fits_wire read.rows) }
    requires id { id < 2 ^ 63 }
    ensures told { (part : Part) → IsRead part read → IsTold part id result reply.new.bytes }
    ensures room { reply.old.room ≤ reply.new.room }
{
    let told = PartTold {
        taken: read.taken,
        ends: read.ends,
    };
    if reply.set_if_made(part_reply(alloc, read.rows, id_left(id, told.ends))) {
        Some(told)
    } else {
        None
    }
}

/// The cursor's id; 0 where it ended.
fn id_left(id: u64, ends: bool) -> u64
    ensures left { result ≡ (if ends then 0 else id) }
    ensures most { result ≤ id }
{
    if ends { 0 } else { id }
}

/// The rows, and the cursor's id.
fn part_reply(alloc: Global, rows: Reply, id: u64) -> Result<Reply, NoMemory>
    requires fits { IsTrue (fits_wire rows) }
    requires id { id < 2 ^ 63 }
    ensures reply { IfOk result (λ reply. reply ≡ Array (rows ∷ Number (pos id) ∷ [])) }
    ensures fits { IfOk result (λ reply. IsTrue (fits_wire reply)) }
{
    let mut replies = Vec::with_capacity(alloc, 2)?;
    replies.push(rows)?;
    replies.push(Reply::Number(id as i64))?;
    Ok(Reply::Array(ListOf::from_vec(replies)))
}
