//! The words of FT.CREATE and FT.ALTER: a schema, or the first word at which they are none.
//!
//! FT.CREATE reads `name [option ..] SCHEMA field ..`, and a field is `name [AS alias] KIND option ..`.
//! FT.ALTER reads `name SCHEMA ADD field ..`. Words are read from the left, and the first fault is the
//! answer. Read first `specs/Schema.antt`, then `specs/Options.antt` and `specs/Fields.antt`, which are
//! the grammar, then `schema.rt`.
#![tactic(auto)]

mod alias_set;
mod extension;
mod fault;
mod field_list;
mod field_options;
mod fields;
mod index_options;
mod laws;
mod limits;
mod names;
mod reading;
mod schema;

/// An index with more fields.
pub use extension::extend;
/// Why words are no schema.
pub use fault::SchemaFault;
/// Laws of the two commands: what is defined is spelled by words, and read back from them.
pub use laws::{added_fields_are_read_back, definition_is_read_back, what_is_read_is_spellable};
/// What an index takes.
pub use limits::{MAX_FIELDS, MAX_TEXT_FIELDS};
/// What the words of the two commands say.
pub use schema::{read_alter, read_create};
