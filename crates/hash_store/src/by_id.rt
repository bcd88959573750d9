//! The documents by their ids, of which the last may wait.
ghost use Rattle.std.specs.Prelude.{◌≡◌, ◌∷◌, ◌++◌, [], Some, nat_eq, IfOk, OnOk, OnErr};
ghost use Rattle.std.specs.Option.{option_copied, option_eq};
ghost use Rattle.std.specs.Map.{lookup, remove_entry};
ghost use Rattle.ft_base.specs.Rows.{Below, live_rows, WaitsLast};
ghost use Rattle.hash_store.specs.Rows.{id_from};

use crate::by_key::ByKey;
use ft_base::{Doc, NoMemory};
use id_rows::IdRows;

// Whether the document of the id waits.
fn waits(pending: &Option<ByKey>, id: u64) -> bool
    ensures { result ≡ option_eq nat_eq (id_from pending.now) (Some id) }
{
    match pending {
        Some(waiting) => waiting.doc().id() == id,
        None => false,
    }
}

/// The document of the id, unless it waits.
pub fn live_doc<'a>(docs: &'a IdRows<Doc>, pending: &Option<ByKey>, id: u64) -> Option<&'a Doc>
    requires last { WaitsLast (id_from pending.now) docs.now }
    ensures { option_copied result ≡ lookup (nat_eq id) (live_rows (id_from pending.now) docs.now) }
{
    if waits(pending, id) {
        return None; // It isn't written yet.
    }
    docs.get(id)
}

/// Takes a document in, behind all others, and shares it.
pub fn push_shared(docs: &mut IdRows<Doc>, doc: Doc) -> Result<ByKey, NoMemory>
    requires { Below doc.id docs.old }
    ensures ok { OnOk result (docs.new ≡ docs.old ++ (doc.id, doc) ∷ []) }
    ensures shared { IfOk result (λ waiting. waiting ≡ doc) }
    ensures err { OnErr result (docs.new ≡ docs.old) }
{
    let waiting = ByKey::of(doc.share()?);
    docs.push(doc)?;
    Ok(waiting)
}

/// Takes the row of the id out, where there is one.
pub fn drop_row(docs: &mut IdRows<Doc>, id: u64)
    ensures { docs.new ≡ remove_entry (nat_eq id) docs.old }
{
    docs.remove(id);
}

/// Takes the row that waits out, where there is one.
pub fn drop_waiting(docs: &mut IdRows<Doc>, pending: &Option<ByKey>)
    ensures { docs.new ≡ live_rows (id_from pending.now) docs.old }
{
    if let Some(waiting) = pending {
        drop_row(docs, waiting.doc().id());
    }
}
