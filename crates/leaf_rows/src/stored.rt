//! Calls of the store of documents: `store STEP ..`, the steps in order, each with what it answers.
ghost use Rattle.std.specs.Prelude.{◌≡◌, ◌<◌, ◌≤◌, Some, length, IfOk, OnOk};
ghost use Rattle.std.specs.Option.{option_map};

use crate::answer::Answer;
use crate::arguments::{count_of, word};
use ft_base::{Bytes, Doc, HashRec, HashView, NoMemory};
use hash_store::{DocWalk, HashStore, ReadyPut};
use row_text::split_words;
use std::alloc::Global;
use std::hash::RandomState;

/// Writes the answer of a call, and tells whether it is of this file.
pub fn put(
    alloc: Global,
    hashing: RandomState,
    call: &str,
    words: &[Vec<u8>],
    out: &mut Answer,
) -> bool {
    if call != "store" {
        return false;
    }
    let mut store = HashStore::new(alloc, hashing);
    let done = put_steps(alloc, &mut store, words, out);
    out.note(done);
    true
}

// What each step answers, with a blank before it.
fn put_steps(
    alloc: Global,
    store: &mut HashStore,
    steps: &[Vec<u8>],
    out: &mut Answer,
) -> Result<(), NoMemory>
    requires { store.old.last ≡ 0 }
{
    let mut last = 0;
    'steps: for step in steps {
        let words = split_words(alloc, step.as_slice())?;
        out.put(b" ");
        last = put_step(alloc, store, last, words.as_slice(), out)?;
    }
    Ok(())
}

// What a step answers. The greatest id that was ever prepared comes back.
fn put_step(
    alloc: Global,
    store: &mut HashStore,
    last: u64,
    words: &[Vec<u8>],
    out: &mut Answer,
) -> Result<u64, NoMemory>
    requires { store.old.last ≤ last }
    ensures { IfOk result (λ last. store.new.last ≤ last) }
{
    let step = std::str::from_utf8(word(words, 0)).unwrap_or("");
    if matches!(step, "put" | "prepare") {
        return put_written(alloc, store, last, words, out);
    }
    put_read(store, step, word(words, 1), out)?;
    Ok(last)
}

// `put ID KEY VALUE` is written, `put ID KEY VALUE OTHER` too, once the key OTHER is erased behind its preparation, and `prepare
// ID KEY VALUE` waits: the id that it replaces. An id that does not rise is told.
fn put_written(
    alloc: Global,
    store: &mut HashStore,
    last: u64,
    words: &[Vec<u8>],
    out: &mut Answer,
) -> Result<u64, NoMemory>
    requires { store.old.last ≤ last }
    ensures { IfOk result (λ last. store.new.last ≤ last) }
{
    let id = count_of(word(words, 1)) as u64;
    if id <= last {
        out.put(b"not rising");
        return Ok(last);
    }
    let ready = prepare(alloc, store, id, word(words, 2), word(words, 3))?;
    if word(words, 0) == b"prepare".as_slice() {
        out.put(b"ready");
        return Ok(id);
    }
    if let Some(other) = words.get(4) {
        store.erase(other.as_slice());
    }
    put_id(store.commit_put(ready), out);
    Ok(id)
}

fn prepare(
    alloc: Global,
    store: &mut HashStore,
    id: u64,
    key: &[u8],
    value: &[u8],
) -> Result<ReadyPut, NoMemory>
    requires rising { store.old.last < id }
    ensures last { OnOk result (store.new.last ≡ id) }
    ensures ready { IfOk result (λ put. option_map (λ doc. doc.id) store.new.ready ≡ Some put) }
{
    let hash = hash_of(alloc, value)?;
    store.prepare_put(Doc::new(alloc, id, key, hash)?)
}

fn hash_of(alloc: Global, value: &[u8]) -> Result<HashRec, NoMemory>
    ensures { IfOk result (λ hash. 0 < length hash) }
{
    let mut hash = HashRec::new(alloc);
    hash.set(b"field", Bytes::from_slice(alloc, value)?)?;
    Ok(hash)
}

fn put_id(id: Option<u64>, out: &mut Answer) {
    out.put_number(id.and_then(|id| i64::try_from(id).ok()));
}

fn id_of(found: Option<&Doc>) -> Option<u64> {
    Some(found?.id())
}

// What a step that reads or erases answers: an id or none, a value, or how many there are.
fn put_read(
    store: &mut HashStore,
    step: &str,
    name: &[u8],
    out: &mut Answer,
) -> Result<(), NoMemory>
    ensures { store.new.last ≡ store.old.last }
{
    match step {
        "value" => put_value(store, name, out),
        "outlives" => return put_shared(store, name, out),
        "clear" => store.clear(),
        "walk" => put_walk(store, out),
        "len" => out.put_count(store.len()),
        "reads" => out.put_count(store.reads() as usize),
        _ => put_id(id_by(store, step, name), out),
    }
    Ok(())
}

// The id that a step finds, which `erase` takes out.
fn id_by(store: &mut HashStore, step: &str, name: &[u8]) -> Option<u64>
    ensures { store.new.last ≡ store.old.last }
{
    match step {
        "get" => id_of(store.get(name)),
        "has" => store.has(name),
        "erase" => store.erase(name),
        "id" => id_of(store.get_by_id(count_of(name) as u64)),
        _ => id_of(store.get_by_id(u64::MAX)),
    }
}

fn put_value(store: &mut HashStore, key: &[u8], out: &mut Answer)
    ensures { store.new.last ≡ store.old.last }
{
    match store.get(key) {
        Some(doc) => put_field(doc.hash(), out),
        None => out.put(b"none"),
    }
}

fn put_field(hash: HashView<'_>, out: &mut Answer) {
    out.put_word(hash.get(b"field").unwrap_or(b""));
}

// The value of a key's document that is shared before its row goes, and whether the store still has the row.
fn put_shared(store: &mut HashStore, key: &[u8], out: &mut Answer) -> Result<(), NoMemory>
    ensures { store.new.last ≡ store.old.last }
{
    let Some(doc) = share(store, key)? else {
        out.put(b"none");
        return Ok(());
    };
    store.erase(key);
    put_field(doc.hash(), out);
    out.put(b" ");
    out.put_truth(store.has(key).is_some());
    Ok(())
}

// One more owner of the document of a key.
fn share(store: &mut HashStore, key: &[u8]) -> Result<Option<Doc>, NoMemory>
    ensures { store.new.last ≡ store.old.last }
{
    match store.get(key) {
        Some(doc) => Ok(Some(doc.share()?)),
        None => Ok(None),
    }
}

// The ids of all documents in order, and whether the walk stays at its end behind as many as were counted for it.
fn put_walk(store: &mut HashStore, out: &mut Answer)
    ensures { store.new.last ≡ store.old.last }
{
    let before = store.reads();
    let read = store.read_all();
    let counted = store.reads().saturating_sub(before);
    put_docs(store.walk(read), counted, out);
}

fn put_docs(walk: DocWalk<'_>, count: u64, out: &mut Answer) {
    let mut walk = walk;
    for _ in 0..count {
        put_id(id_of(walk.next()), out);
        out.put(b" ");
    }
    out.put_truth(walk.next().is_none() && walk.next().is_none());
}
