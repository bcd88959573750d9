//! What the parts of a scan, a scan of all lists and a collection of an index cost.
ghost use Rattle.std.specs.Prelude.{◌≡◌, IfOk, OnOk};
ghost use Rattle.ft_index.specs.Markers.{AreBefore};

use crate::clock::tell;
use crate::documents::{begun, shop_doc, span_doc, write};
use ft_base::{Doc, NoMemory};
use ft_index::FtIndex;
use inverted_list::Markers;
use std::alloc::Global;
use std::io;
use std::time::Instant;

/// So many parts are taken of each index, more than one round has.
const PARTS: u64 = 12;

/// Prints the figures of indexes of long lists and of short ones, and of a collection.
pub fn print(rt: &HostRuntime) -> io::Result<()> {
    print_parts(rt, 100_000, 0, 0, 20_000)?;
    print_parts(rt, 10, 1_000, 10_000, 5)?;
    print_parts(rt, 1_000, 1_000, 2_000, 1)?;
    print_parts(rt, 1_000, 1_000, 2_000, 500)?;
    print_collection(rt, 100_000)
}

// An index of so many documents, each of the words of a span, or of eight drawn ones where the span is empty. The first of them
// are dead.
fn print_parts(rt: &HostRuntime, docs: u64, first: u64, last: u64, dead: u64) -> io::Result<()> {
    let mut markers = Markers { event: 1, next: 0 };
    let mut index = begun(rt.alloc(), &mut markers)?;
    fill(rt.alloc(), &mut index, &mut markers, docs, first, last)?;
    print_rounds(rt, &mut index, &mut markers, dead)
}

fn fill(
    alloc: Global,
    index: &mut FtIndex,
    markers: &mut Markers,
    docs: u64,
    first: u64,
    last: u64,
) -> Result<(), NoMemory>
    requires last { index.old.table.last ≡ 0 }
    requires before { AreBefore markers.old index.old.lists }
    ensures { OnOk result (AreBefore markers.new index.new.lists) }
{
    'writing: for before in 0..docs {
        write(index, markers, &doc_of(alloc, before + 1, first, last)?)?;
    }
    Ok(())
}

fn doc_of(alloc: Global, id: u64, first: u64, last: u64) -> Result<Doc, NoMemory>
    ensures { IfOk result (λ doc. doc.id ≡ id) }
{
    if first < last {
        return span_doc(alloc, id, first, last);
    }
    shop_doc(alloc, id)
}

fn print_rounds(
    rt: &HostRuntime,
    index: &mut FtIndex,
    markers: &mut Markers,
    dead: u64,
) -> io::Result<()>
    requires { AreBefore markers.old index.old.lists }
{
    kill_first(index, dead);
    print_head(rt, index, dead)?;
    print_scan(rt, index)?;
    'parts: for _ in 0..PARTS {
        print_part(rt, index, markers)?;
    }
    println!(rt; "")
}

fn print_head(rt: &HostRuntime, index: &FtIndex, dead: u64) -> io::Result<()> {
    print!(rt; "index of {} documents and {dead} dead", index.docs())
}

fn kill_first(index: &mut FtIndex, dead: u64)
    ensures { index.new.lists ≡ index.old.lists }
{
    'ids: for before in 0..dead {
        index.kill(before + 1);
    }
}

fn print_scan(rt: &HostRuntime, index: &FtIndex) -> io::Result<()> {
    let start = Instant::now(rt)?;
    let whole = index.scan(9)?;
    tell(rt, "scan of all", start)?;
    print!(rt; " for {}, parts", whole.lists.len())
}

fn print_part(rt: &HostRuntime, index: &mut FtIndex, markers: &mut Markers) -> io::Result<()>
    requires { AreBefore markers.old index.old.lists }
    ensures { OnOk result (AreBefore markers.new index.new.lists) }
{
    let start = Instant::now(rt)?;
    let part = index.scan_next(9, markers)?;
    tell(rt, "", start)?;
    print!(rt; " for {}", part.lists.len())
}

// A collection of so many documents, of which half are dead.
fn print_collection(rt: &HostRuntime, docs: u64) -> io::Result<()> {
    let mut markers = Markers { event: 1, next: 0 };
    let mut index = begun(rt.alloc(), &mut markers)?;
    fill(rt.alloc(), &mut index, &mut markers, docs, 0, 0)?;
    collect_half(rt, &mut index, &mut markers, docs / 2)
}

fn collect_half(
    rt: &HostRuntime,
    index: &mut FtIndex,
    markers: &mut Markers,
    dead: u64,
) -> io::Result<()>
    requires { AreBefore markers.old index.old.lists }
{
    kill_first(index, dead);
    print_head(rt, index, dead)?;
    print_collected(rt, index, markers)
}

fn print_collected(rt: &HostRuntime, index: &mut FtIndex, markers: &mut Markers) -> io::Result<()>
    requires { AreBefore markers.old index.old.lists }
{
    let start = Instant::now(rt)?;
    index.collect(markers)?;
    tell(rt, "collection", start)?;
    println!(rt; "")
}
