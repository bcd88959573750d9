//! The replies of commands, written to a buffer, most of them without memory.
//!
//! A buffer has room for 64 bytes at the least, which a number, a refusal or the text for out of memory always fits.
//! Read `buffer.rt` first, then `short_reply.rt`, `refusals.rt` for the texts of refusals and `made_reply.rt` for longer
//! replies.
#![tactic(auto)]

mod buffer;
mod made_reply;
mod message;
mod refusals;
mod short_reply;

/// One reply after another.
pub use buffer::ReplyBuffer;
/// Replies of any length.
pub use made_reply::put_made;
/// Why words ask nothing, and why a text is no query.
pub use refusals::{put_query_refusal, put_refusal, put_schema_refusal};
/// Replies for which there is always room.
pub use short_reply::{
    SHORT_REPLY, put_fault, put_flag, put_kind, put_no_memory, put_number, put_short, put_signed,
};
