//! SORTBY.
ghost use Rattle.std.specs.Prelude.{◌≡◌, [], ◌∷◌, ◌++◌, map, take, IfOk, OnOk};
ghost use Rattle.expr_eval.specs.Properties.{property_value};
ghost use Rattle.row_sort.specs.Order.{row_order};
ghost use Rattle.row_sort.specs.Sorting.{sorted};
ghost use Rattle.expr_eval.specs.Lending.{row_of};
ghost use Rattle.agg_pipeline.specs.Ranking.{items_of, offered, ranked};
ghost use Rattle.agg_pipeline.specs.Steps.{directions, first_rows, key_values, keys_order};

use crate::step::SortKey;
use expr_eval::LentRow;
use ft_base::{IndexDef, ListOf, NoMemory, Row, Value};
use row_sort::{Direction, FirstRows, Ranked, order_rows};
use std::alloc::Global;

/// The rows in order, and no more than `max` of them where it is given.
pub fn sort_rows(
    alloc: Global,
    def: &IndexDef,
    keys: &[SortKey],
    max: Option<u64>,
    rows: Vec<Row>,
) -> Result<Vec<Row>, NoMemory>
    ensures { IfOk result (λ made. made.items
        ≡ first_rows max (sorted (keys_order def.now keys.now) rows.items)) }
{
    match max {
        None => sort_all(alloc, def, keys, rows),
        Some(max) => sort_first(alloc, def, keys, max as usize, rows),
    }
}

fn sort_all(
    alloc: Global,
    def: &IndexDef,
    keys: &[SortKey],
    rows: Vec<Row>,
) -> Result<Vec<Row>, NoMemory>
    ensures { IfOk result (λ made. made.items ≡ sorted (keys_order def.now keys.now) rows.items) }
{
    let mut ranked = rank_all(alloc, def, keys, rows)?;
    put_in_order(alloc, keys, &mut ranked)?;
    items_of(alloc, ranked)
}

fn put_in_order(
    alloc: Global,
    keys: &[SortKey],
    ranked: &mut Vec<Ranked<Row>>,
) -> Result<(), NoMemory>
    ensures { OnOk result (ranked.new.items
        ≡ sorted (row_order (directions keys.now)) ranked.old.items) }
{
    let by = directions(alloc, keys)?;
    order_rows(ranked, by.as_slice())
}

/// The first rows. Up to twice as many are held with their values.
fn sort_first(
    alloc: Global,
    def: &IndexDef,
    keys: &[SortKey],
    most: usize,
    rows: Vec<Row>,
) -> Result<Vec<Row>, NoMemory>
    ensures { IfOk result (λ made. made.items
        ≡ take most (sorted (keys_order def.now keys.now) rows.items)) }
{
    let mut first = FirstRows::new(alloc, directions(alloc, keys)?, most);
    offer_all(alloc, def, keys, &mut first, rows)?;
    items_of(alloc, first.into_rows()?)
}

/// Offers the rows one by one.
fn offer_all(
    alloc: Global,
    def: &IndexDef,
    keys: &[SortKey],
    first: &mut FirstRows<Row>,
    rows: Vec<Row>,
) -> Result<(), NoMemory>
    ensures { OnOk result (first.new ≡ record first.old {
      rows = offered first.old.by first.old.most first.old.rows
          (map (ranked def.now keys.now) rows.items);
    }) }
{
    for row in rows {
        first.offer(rank(alloc, def, keys, row)?)?;
    }
    Ok(())
}

fn rank_all(
    alloc: Global,
    def: &IndexDef,
    keys: &[SortKey],
    rows: Vec<Row>,
) -> Result<Vec<Ranked<Row>>, NoMemory>
    ensures { IfOk result (λ made. made.items ≡ map (ranked def.now keys.now) rows.items) }
{
    let mut made = Vec::with_capacity(alloc, rows.len())?;
    for row in rows {
        made.push_reserved(rank(alloc, def, keys, row)?);
    }
    Ok(made)
}

/// A row with its values of the keys.
fn rank(alloc: Global, def: &IndexDef, keys: &[SortKey], row: Row) -> Result<Ranked<Row>, NoMemory>
    ensures { IfOk result (λ made. made ≡ ranked def.now keys.now row) }
{
    let values = key_values(alloc, def, keys, LentRow::of(&row))?;
    Ok(Ranked { values, item: row })
}

/// A row's values of the keys. The row is lent, so that it need not be made for them.
pub fn key_values(
    alloc: Global,
    def: &IndexDef,
    keys: &[SortKey],
    row: LentRow<'_>,
) -> Result<ListOf<Value>, NoMemory>
    ensures { IfOk result (λ values. values ≡ key_values def.now keys.now (row_of row.entry)) }
{
    let mut values = ListOf::new(alloc);
    for key in keys {
        push_value(alloc, &mut values, def, key.name.as_slice(), row)?;
    }
    Ok(values)
}

fn push_value(
    alloc: Global,
    values: &mut ListOf<Value>,
    def: &IndexDef,
    name: &[u8],
    row: LentRow<'_>,
) -> Result<(), NoMemory>
    ensures { OnOk result (values.new
        ≡ values.old ++ property_value name.now (row_of row.entry) def.now ∷ []) }
{
    let value = row.property(name, def).own(alloc)?;
    values.push(value)
}

/// How each key orders; texts are compared by their bytes.
pub fn directions(alloc: Global, keys: &[SortKey]) -> Result<ListOf<Direction>, NoMemory>
    ensures { IfOk result (λ by. by ≡ directions keys.now) }
{
    let mut by = ListOf::new(alloc);
    for key in keys {
        by.push(Direction {
            descending: key.descending,
            lower: false,
        })?;
    }
    Ok(by)
}

/// The rows without their values.
pub fn items_of(alloc: Global, ranked: Vec<Ranked<Row>>) -> Result<Vec<Row>, NoMemory>
    ensures { IfOk result (λ rows. rows.items ≡ items_of ranked.items) }
{
    let mut rows = Vec::with_capacity(alloc, ranked.len())?;
    for row in ranked {
        rows.push(row.item)?;
    }
    Ok(rows)
}
