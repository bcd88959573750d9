//! Scans of an index of documents: `scan DEAD COUNT:TEXT..`, where the ids of `DEAD` are taken out before the scan.
//!
//! Each picture is given in its place: the list's name, the number of its sealed blocks, that of the entries behind them, and
//! whether an entry is dead. A tag has its field before it, and a range too, whose low stands for its name. At the end stand the
//! numbers of those of the ids up to 9 that are live.
ghost use Rattle.std.specs.Prelude.{◌≡◌, ℕ, true};
ghost use Rattle.ft_index.specs.Index.{is_live};

use super::dead::ids_of;
use super::numbers::{put_found, put_name, put_number};
use super::plans::filled;
use crate::answer::Answer;
use crate::arguments::{rest, word};
use ft_base::NoMemory;
use ft_index::{AnyPicture, FtIndex, Snapshot};
use gc_splice::{Live, repair_here};
use id_iters::ListName;
use inverted_list::Picture;
use posting_block::Payload;
use std::alloc::Global;

/// Writes the answer of a call, and tells whether it is of this file.
pub fn put(alloc: Global, call: &str, words: &[Vec<u8>], out: &mut Answer) -> bool {
    if call != "scan" {
        return false;
    }
    let done = put_scan(alloc, words, out);
    out.note(done);
    true
}

fn put_scan(alloc: Global, words: &[Vec<u8>], out: &mut Answer) -> Result<(), NoMemory> {
    let Some(mut index) = filled(alloc, rest(words, 1), out)? else {
        return Ok(());
    };
    kill(alloc, &mut index, word(words, 0))?;
    put_snapshot(alloc, &index.scan(9)?, out)
}

/// Takes the documents of ids out.
pub fn kill(alloc: Global, index: &mut FtIndex, spans: &[u8]) -> Result<(), NoMemory>
    ensures lists { index.new.lists ≡ index.old.lists }
    ensures last { index.new.table.last ≡ index.old.table.last }
    ensures live { (id : ℕ) → is_live index.new id ≡ true → is_live index.old id ≡ true }
{
    'ids: for id in ids_of(alloc, spans)?.as_slice() {
        index.kill(*id);
    }
    Ok(())
}

fn put_snapshot(alloc: Global, snapshot: &Snapshot, out: &mut Answer) -> Result<(), NoMemory> {
    for named in snapshot.lists.as_slice() {
        put_list_name(&named.name, out);
        put_picture(alloc, snapshot, &named.picture, out)?;
    }
    out.put(b" live");
    'ids: for id in 1..10 {
        if snapshot.is_live(id) {
            put_found(Some(id), out);
        }
    }
    Ok(())
}

/// Writes a name behind a blank, that of a tag or a range with its field before it.
pub fn put_list_name(name: &ListName, out: &mut Answer) {
    match name {
        ListName::Word { text } => put_name(Some(text.as_slice()), out),
        ListName::Tag { field, text } => {
            put_found(Some(u64::from(*field)), out);
            put_name(Some(text.as_slice()), out);
        }
        ListName::Range { field, low } => {
            put_found(Some(u64::from(*field)), out);
            out.put(b" ");
            out.put_number(Some(*low));
        }
    }
}

fn put_picture(
    alloc: Global,
    snapshot: &Snapshot,
    picture: &AnyPicture,
    out: &mut Answer,
) -> Result<(), NoMemory> {
    match picture {
        AnyPicture::Word(picture) => put_parts(alloc, snapshot, picture, out),
        AnyPicture::Tag(picture) => put_parts(alloc, snapshot, picture, out),
        AnyPicture::Range(picture) => put_parts(alloc, snapshot, picture, out),
    }
}

fn put_parts<P: Payload>(
    alloc: Global,
    snapshot: &Snapshot,
    picture: &Picture<P>,
    out: &mut Answer,
) -> Result<(), NoMemory> {
    out.put(b" ");
    put_number(picture.sealed.len() as u64, out);
    out.put(b"+");
    put_number(picture.tail.len() as u64, out);
    if repair_here(alloc, picture, snapshot)?.is_some() {
        out.put(b" dead");
    }
    Ok(())
}
