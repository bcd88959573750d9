//! The rows of an aggregate as they are replied. Their names and texts go into the reply as they are, with no copy, unless
//! the rows are lent.
ghost use Rattle.std.specs.Prelude.{◌≡◌, ◌<◌, ◌^◌, ◌++◌, ◌∷◌, [], None, map, pos, IfOk, IsTrue, OnOk};
ghost use Rattle.std.specs.Fmt.{signed_decimal};
ghost use Rattle.std.specs.List.{flat_map};
ghost use Rattle.ft_base.specs.Reply.{fits_wire};
ghost use Rattle.ft_base.specs.declared.reply.Reply.TheVariants.{Array, Bulk, Number};
ghost use Rattle.ft_machine.specs.Aggregating.{cell_replies, row_reply, rows_reply, value_reply};

use ft_base::{Bytes, Cell, ListOf, NoMemory, Reply, Row, Value, put_int};
use std::alloc::Global;

/// The number of rows and the rows, each as names and values in turn. The rows' memory goes into the reply.
pub fn rows_reply(alloc: Global, rows: Vec<Row>) -> Result<Reply, NoMemory>
    ensures reply { IfOk result (λ reply. reply ≡ rows_reply rows.items) }
    ensures fits { IfOk result (λ reply. IsTrue (fits_wire reply)) }
{
    let mut replies = counted(alloc, rows.len() as u64, rows.len() + 1)?;
    'showing: for row in rows {
        push_row(alloc, &mut replies, row)?;
    }
    Ok(Reply::Array(ListOf::from_vec(replies)))
}

/// The same of rows that are lent, whose names and texts are copied.
pub fn lent_rows_reply(alloc: Global, rows: &[Row]) -> Result<Reply, NoMemory>
    ensures reply { IfOk result (λ reply. reply ≡ rows_reply rows.now) }
    ensures fits { IfOk result (λ reply. IsTrue (fits_wire reply)) }
{
    let number = rows.len();
    let mut replies = counted(alloc, number as u64, number + 1)?;
    'showing: for row in rows {
        push_copy(alloc, &mut replies, row)?;
    }
    Ok(Reply::Array(ListOf::from_vec(replies)))
}

/// A number, with room for so many replies in all.
pub(crate) fn counted(alloc: Global, number: u64, room: usize) -> Result<Vec<Reply>, NoMemory>
    requires { number < 2 ^ 63 }
    ensures { IfOk result (λ replies. replies.items ≡ Number (pos number) ∷ []) }
{
    let mut replies = Vec::with_capacity(alloc, room)?;
    replies.push(Reply::Number(number as i64))?;
    Ok(replies)
}

/// Adds a copy of a row.
fn push_copy(alloc: Global, replies: &mut Vec<Reply>, row: &Row) -> Result<(), NoMemory>
    ensures { OnOk result (replies.new.items ≡ replies.old.items ++ row_reply row.now ∷ []) }
{
    let cells = copy_cells(alloc, row.cells.as_slice())?;
    push_reply(replies, cells_reply(alloc, cells)?)
}

fn copy_cells(alloc: Global, cells: &[Cell]) -> Result<Vec<Cell>, NoMemory>
    ensures { IfOk result (λ copy. copy.items ≡ cells.now) }
{
    let mut copy = Vec::with_capacity(alloc, cells.len())?;
    'copying: for cell in cells {
        copy.push(copy_cell(alloc, cell)?)?;
    }
    Ok(copy)
}

fn copy_cell(alloc: Global, cell: &Cell) -> Result<Cell, NoMemory>
    ensures { IfOk result (λ copy. copy ≡ cell.now) }
{
    let name = Bytes::from_slice(alloc, cell.name.as_slice())?;
    Ok(Cell {
        name,
        value: cell.value.copy(alloc)?,
    })
}

/// Adds a row. The document that it may still have is let go.
fn push_row(alloc: Global, replies: &mut Vec<Reply>, row: Row) -> Result<(), NoMemory>
    ensures { OnOk result (replies.new.items ≡ replies.old.items ++ row_reply row ∷ []) }
{
    push_reply(replies, cells_reply(alloc, row.cells.into_vec())?)
}

/// The names and the values of cells in turn.
fn cells_reply(alloc: Global, cells: Vec<Cell>) -> Result<Reply, NoMemory>
    ensures { IfOk result (λ reply. reply ≡ Array (flat_map cell_replies cells.items)) }
{
    // Each takes two places, so the vector does not grow.
    let mut replies = Vec::with_capacity(alloc, cells.len() * 2)?;
    'showing: for cell in cells {
        push_cell(alloc, &mut replies, cell)?;
    }
    Ok(Reply::Array(ListOf::from_vec(replies)))
}

/// Adds a cell: its name and its value.
fn push_cell(alloc: Global, replies: &mut Vec<Reply>, cell: Cell) -> Result<(), NoMemory>
    ensures { OnOk result (replies.new.items ≡ replies.old.items ++ cell_replies cell) }
{
    push_reply(replies, Reply::Bulk(cell.name))?;
    push_value(alloc, replies, cell.value)
}

/// Adds a value: a Null as the bulk that is not there, a number as its spelling, a list as the array of its values.
#[cycle(show)]
fn push_value(alloc: Global, replies: &mut Vec<Reply>, value: Value) -> Result<(), NoMemory>
    ensures { OnOk result (replies.new.items ≡ replies.old.items ++ value_reply value ∷ []) }
{
    match value {
        Value::Null => push_reply(replies, Reply::NullBulk),
        Value::Num(number) => push_number(alloc, replies, number),
        Value::Text(text) => push_reply(replies, Reply::Bulk(text)),
        Value::List(values) => push_values(alloc, replies, values),
    }
}

/// Adds an array of values.
#[cycle(show)]
fn push_values(
    alloc: Global,
    replies: &mut Vec<Reply>,
    values: ListOf<Value>,
) -> Result<(), NoMemory>
    ensures { OnOk result (replies.new.items ≡ replies.old.items ++ Array (map value_reply values) ∷ []) }
{
    let values = values.into_vec();
    let mut shown = Vec::with_capacity(alloc, values.len())?;
    'showing: for value in values {
        push_value(alloc, &mut shown, value)?;
    }
    push_reply(replies, Reply::Array(ListOf::from_vec(shown)))
}

/// Adds a number as the bulk of its spelling.
fn push_number(alloc: Global, replies: &mut Vec<Reply>, number: i64) -> Result<(), NoMemory>
    ensures { OnOk result (replies.new.items ≡ replies.old.items ++ Bulk (signed_decimal number) ∷ []) }
{
    let mut text = Vec::new(alloc);
    put_int(&mut text, number)?;
    push_reply(replies, Reply::Bulk(Bytes::from_vec(text)))
}

/// Adds a reply. Out of memory, it is dropped.
fn push_reply(replies: &mut Vec<Reply>, reply: Reply) -> Result<(), NoMemory>
    ensures { OnOk result (replies.new.items ≡ replies.old.items ++ reply ∷ []) }
{
    replies.push(reply)?;
    Ok(())
}
