//! A load from its first command to its last.
ghost use Rattle.std.specs.Prelude.{◌≡◌, ◌≤◌, ◌++◌, IfOk, OnOk};
ghost use Rattle.load_maker.specs.Load.{begun, collecting, counting, creating, documents, grouping, last_commands, load, searching, sorting};
ghost use Rattle.resp_wire.specs.Request.{request, requests};

use crate::documents::put_documents;
use crate::drawing::begin;
use crate::requests::put_command;
use ft_base::NoMemory;
use std::alloc::Global;

/// The requests of the load of a seed and a number of documents. Where room runs out there is none.
#[tactic(auto, unfolding(crate::specs::Load::load))]
pub fn make(alloc: Global, seed: u64, docs: u32) -> Result<Vec<u8>, NoMemory>
    requires some { 1 ≤ docs }
    requires few { docs ≤ 100000 }
    ensures { IfOk result (λ bytes. bytes.items ≡ requests (load seed docs)) }
{
    let mut out = Vec::new(alloc);
    put_creating(&mut out)?;
    put_all_documents(alloc, &mut out, seed, docs)?;
    put_last_commands(&mut out)?;
    Ok(out)
}

/// The command that creates the index.
const CREATING: &[&[u8]] = &[
    b"FT.CREATE",
    b"load",
    b"SCHEMA",
    b"body",
    b"TEXT",
    b"tag",
    b"TAG",
    b"n",
    b"NUMERIC",
];

/// A search for a word, of which only the number of documents is asked.
const SEARCHING: &[&[u8]] = &[b"FT.SEARCH", b"load", b"w1", b"LIMIT", b"0", b"0"];

/// A search for a range of numbers, sorted.
const SORTING: &[&[u8]] = &[b"FT.SEARCH", b"load", b"@n:[0 499]", b"SORTBY", b"n"];

/// The command that collects old entries.
const COLLECTING: &[&[u8]] = &[b"FT.DEBUG", b"GC_FORCEINVOKE", b"load"];

/// The command that counts the documents of each tag.
const GROUPING: &[&[u8]] = &[
    b"FT.AGGREGATE",
    b"load",
    b"*",
    b"GROUPBY",
    b"1",
    b"@tag",
    b"REDUCE",
    b"COUNT",
    b"0",
    b"AS",
    b"c",
];

/// The command that counts the keys.
const COUNTING: &[&[u8]] = &[b"DBSIZE"];

/// Appends the first request.
fn put_creating(out: &mut Vec<u8>) -> Result<(), NoMemory>
    ensures { OnOk result (out.new.items ≡ out.old.items ++ request creating) }
{
    put_command(out, CREATING)
}

/// Appends the requests of all documents.
fn put_all_documents(alloc: Global, out: &mut Vec<u8>, seed: u64, docs: u32) -> Result<(), NoMemory>
    requires { docs ≤ 100000 }
    ensures { OnOk result (out.new.items ≡ out.old.items ++ requests (documents docs 1 (begun seed))) }
{
    let mut rng = begin(seed);
    let mut text = Vec::new(alloc);
    put_documents(out, &mut text, &mut rng, docs)
}

/// Appends the last requests.
fn put_last_commands(out: &mut Vec<u8>) -> Result<(), NoMemory>
    ensures { OnOk result (out.new.items ≡ out.old.items ++ requests last_commands) }
{
    put_command(out, SEARCHING)?;
    put_command(out, SORTING)?;
    put_command(out, COLLECTING)?;
    put_command(out, GROUPING)?;
    put_command(out, COUNTING)
}
