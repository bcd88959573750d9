//! What a search shows, once its names are looked up in the index's definition: so none is looked up for a document.
ghost use Rattle.std.specs.Prelude.{◌≡◌, ◌∷◌, ◌++◌, [], map, option_and_then, Some, IfOk, OnOk};
ghost use Rattle.std.specs.List.{flat_map};
ghost use Rattle.std.specs.Option.{option_map};
ghost use Rattle.cmd_parse.specs.Seen.{search_of, sort_of};
ghost use Rattle.ft_base.specs.declared.reply.Reply.TheVariants.{Array, Bulk};
ghost use Rattle.ft_machine.specs.Shown.{bare_name, field_named};
ghost use Rattle.doc_reads.specs.Shapes.{IsShapeOf, column_for, column_named, fields_with, key_for, key_of_field, key_seen, pair_of, resolved, row_by, shown_in};

use cmd_parse::{SearchSpec, SortSpec};
use ft_base::{
    Bytes, Doc, Field, HashView, IndexDef, ListOf, NoMemory, Reply, Schema, Words, in_turn,
};
use ft_meaning::keeps_number;
use row_sort::Direction;
use std::alloc::Global;

/// A field that is shown.
#[derive(Clone, Copy)]
pub struct ShownField<'a> {
    /// The name as the search gives it.
    pub name: &'a [u8],
    /// The hash's field that it stands for.
    pub field: &'a [u8],
}

/// The field by which documents are sorted.
#[derive(Clone, Copy)]
pub struct SortKey<'a> {
    /// The hash's field.
    pub field: &'a [u8],
    /// Whether values are compared as numbers.
    pub numeric: bool,
    /// The column of sorting vectors with its numbers, if the index keeps them.
    pub column: Option<usize>,
    pub by: Direction,
}

/// What is shown of the documents that count, and in which order.
#[derive(Drop)]
pub struct Shape<'a> {
    /// Whether documents are shown by their keys alone.
    pub no_content: bool,
    /// The fields that are shown, where they are named.
    pub fields: Option<Vec<ShownField<'a>>>,
    pub sort: Option<SortKey<'a>>,
    /// The place of the first row that is shown, counted from 0.
    pub offset: usize,
    /// How many rows are shown at the most.
    pub num: usize,
}

impl<'a> Shape<'a> {
    /// What a search shows, with its names looked up.
    pub fn resolve(
        alloc: Global,
        def: &'a IndexDef,
        search: &SearchSpec<'a>,
    ) -> Result<Shape<'a>, NoMemory>
        ensures { IfOk result (λ shape. IsShapeOf (search_of search.now) def.now shape) }
    {
        let fields = match &search.fields {
            Some(names) => Some(shown_fields(alloc, &def.fields, names)?),
            None => None,
        };
        Ok(Shape {
            no_content: search.no_content,
            fields,
            sort: sort_key(&def.fields, &search.sort),
            offset: search.offset as usize,
            num: search.num as usize,
        })
    }
}

/// The fields that names stand for, each looked up once.
fn shown_fields<'a>(
    alloc: Global,
    fields: &'a Schema,
    names: &Words<'a>,
) -> Result<Vec<ShownField<'a>>, NoMemory>
    ensures { IfOk result (λ shown. map pair_of shown.items ≡ map (resolved fields.now) names.now) }
{
    let mut shown = Vec::with_capacity(alloc, names.len())?;
    'names: for i in 0..names.len() {
        let name = names.word(i);
        let field = field_named(fields, bare_name(name));
        shown.push(ShownField { name, field })?;
    }
    Ok(shown)
}

/// A name without the `@` that it may begin with.
fn bare_name(name: &[u8]) -> &[u8]
    ensures { result.now ≡ bare_name name.now }
{
    match name {
        [b'@', bare @ ..] => bare,
        _ => name,
    }
}

/// The hash's field that a name stands for: that of the alias, else the one of this very name.
fn field_named<'a>(fields: &'a Schema, name: &'a [u8]) -> &'a [u8]
    ensures { result.now ≡ field_named fields.now name.now }
{
    match fields.get(name) {
        Some(field) => field.name.as_slice(),
        None => name,
    }
}

/// The key by which documents are sorted, where a search names one of the index's fields.
fn sort_key<'a>(fields: &'a Schema, sort: &Option<SortSpec<'a>>) -> Option<SortKey<'a>>
    ensures seen { option_map key_seen result ≡ key_for (option_map sort_of sort.now) fields.now }
    ensures column { option_and_then (λ key. key.column) result ≡ column_for (option_map sort_of sort.now) fields.now }
{
    match sort {
        Some(sort) => key_named(fields, sort),
        None => None,
    }
}

/// The key by which a field of the index sorts.
fn key_named<'a>(fields: &'a Schema, sort: &SortSpec<'a>) -> Option<SortKey<'a>>
    ensures seen { option_map key_seen result ≡ key_for (Some (sort_of sort.now)) fields.now }
    ensures column { option_and_then (λ key. key.column) result ≡ column_named sort.now.field.now fields.now }
{
    let column = column_named(fields.as_slice(), sort.field);
    match fields.get(sort.field) {
        Some(field) => Some(key_of_field(field, column, sort.descending)),
        None => None,
    }
}

/// The column of sorting vectors with the numbers of the field of an alias, if the index keeps them.
fn column_named(fields: &[Field], alias: &[u8]) -> Option<usize>
    ensures { result ≡ column_named alias.now fields.now }
{
    let mut column = 0;
    'fields: for field in fields {
        let kept = keeps_number(field);
        if alias == field.alias.as_slice() {
            return if kept { Some(column) } else { None };
        }
        column += usize::from(kept);
    }
    None
}

/// A field as a key. Texts are compared with A to Z lowered unless the field is UNF.
fn key_of_field(field: &Field, column: Option<usize>, descending: bool) -> SortKey<'_>
    ensures seen { key_seen result ≡ key_of_field descending field.now }
    ensures column { result.column ≡ column }
{
    SortKey {
        field: field.name.as_slice(),
        numeric: field.kind.is_numeric(),
        column,
        by: Direction {
            descending,
            lower: !field.unf,
        },
    }
}

/// Shows a document: its key, and behind it its fields unless they are left out.
pub fn push_row(
    alloc: Global,
    shape: &Shape<'_>,
    doc: &Doc,
    rows: &mut Vec<Reply>,
) -> Result<(), NoMemory>
    ensures row { OnOk result (rows.new.items ≡ rows.old.items ++ row_by shape.now doc.now) }
{
    push_key(alloc, doc.key(), rows)?;
    if !shape.no_content {
        rows.push(fields_shown(alloc, &shape.fields, &doc.hash())?)?;
    }
    Ok(())
}

/// Shows a document by its key alone.
pub fn push_key(alloc: Global, key: &[u8], rows: &mut Vec<Reply>) -> Result<(), NoMemory>
    ensures { OnOk result (rows.new.items ≡ rows.old.items ++ Bulk key.now ∷ []) }
{
    rows.push(Reply::Bulk(Bytes::from_slice(alloc, key)?))?;
    Ok(())
}

/// The fields of a hash that are shown, and their values.
fn fields_shown(
    alloc: Global,
    fields: &Option<Vec<ShownField<'_>>>,
    hash: &HashView<'_>,
) -> Result<Reply, NoMemory>
    ensures { IfOk result (λ reply. reply
        ≡ Array (fields_with (option_map (λ shown. shown.items) fields.now) hash.now)) }
{
    match fields {
        Some(shown) => named_fields(alloc, shown.as_slice(), hash),
        None => in_turn(alloc, hash),
    }
}

/// The fields that are named and there, in the order in which they are named.
fn named_fields(
    alloc: Global,
    shown: &[ShownField<'_>],
    hash: &HashView<'_>,
) -> Result<Reply, NoMemory>
    ensures { IfOk result (λ reply. reply ≡ Array (flat_map (shown_in hash.now) shown.now)) }
{
    // Each takes two places at the most, so the vector does not grow.
    let mut replies = Vec::with_capacity(alloc, shown.len() * 2)?;
    'fields: for field in shown {
        push_field(alloc, field, hash, &mut replies)?;
    }
    Ok(Reply::Array(ListOf::from_vec(replies)))
}

/// Shows a field by the name that the search gives it and its value, where it is there.
fn push_field(
    alloc: Global,
    shown: &ShownField<'_>,
    hash: &HashView<'_>,
    replies: &mut Vec<Reply>,
) -> Result<(), NoMemory>
    ensures { OnOk result (replies.new.items ≡ replies.old.items ++ shown_in hash.now shown.now) }
{
    if let Some(value) = hash.get(shown.field) {
        replies.push(Reply::Bulk(Bytes::from_slice(alloc, shown.name)?))?;
        replies.push(Reply::Bulk(Bytes::from_slice(alloc, value)?))?;
    }
    Ok(())
}
