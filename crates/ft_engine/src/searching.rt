//! A search, which changes nothing.
ghost use Rattle.std.specs.Prelude.{◌≡◌, ◌<◌, ◌≤◌, false, length};
ghost use Rattle.cmd_parse.specs.Asked.{Search};
ghost use Rattle.cmd_parse.specs.Seen.{search_of};
ghost use Rattle.ft_base.specs.declared.limits.TheConstants.{MAX_WORD_BYTES};
ghost use Rattle.ft_machine.specs.Step.{last_number};
ghost use Rattle.ft_engine.specs.Exactness.{ReadsRows};
ghost use Rattle.indexed_store.specs.Changing.{is_write};
ghost use Rattle.indexed_store.specs.Preparing.{Prepares};

use crate::indexes::search::answer_search;
use cmd_parse::SearchSpec;
use indexed_store::{Change, IndexedStore};
use reply_buffer::ReplyBuffer;

/// Answers a search in this event, writes the reply, and answers that nothing changes.
pub fn prepare_search<'a>(
    held: &mut IndexedStore,
    search: SearchSpec<'a>,
    reply: &mut ReplyBuffer,
) -> Change<'a>
    requires number { held.old.next < last_number }
    requires query { length search.query.now ≤ MAX_WORD_BYTES }
    ensures prepares { Prepares (Search (search_of search.entry)) held.old held.new reply.new.bytes result }
    ensures reads { ReadsRows (search_of search.entry) reply.new.bytes held.old.reads held.new.reads }
    ensures quiet { is_write result ≡ false }
    ensures room { reply.old.room ≤ reply.new.room }
{
    answer_search(held, &search, reply);
    Change::Nothing
}
