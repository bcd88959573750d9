//! Calls of expressions: `expression TEXT`, and `value TEXT FIELDS WORD ..` in the row that the words make.
//!
//! A tree is written in parentheses, as `(+ 1 (* @n 2))`; `not`, `neg`, `and`, `or` and functions go by their
//! names, and a text stands in quotes. FIELDS are those of the index, as FT.CREATE has them; of the words the first,
//! `.NAME=VALUE`, are cells of the row, and the others, `FIELD=VALUE`, the fields of its document, which it has where
//! there are some. A cell's value is `null`, a number, a text, or a list, as `[1 a`.
use crate::answer::Answer;
use crate::arguments::{halves, hash_of, rest, word};
use crate::schemas::index_of;
use expr_eval::{Expr, ExprFault, Func, LentRow, Op, eval, parse_expr};
use ft_base::{Cell, Doc, ListOf, NamedList, NoMemory, Row, Value, read_int};
use std::alloc::Global;

/// The fields of an index of which nothing is asked.
const NO_FIELDS: &[u8] = b"other TEXT";

/// Writes the answer of a call, and tells whether it is of this file.
pub fn put(alloc: Global, call: &str, words: &[Vec<u8>], out: &mut Answer) -> bool {
    if !matches!(call, "expression" | "value") {
        return false;
    }
    match parse_expr(alloc, word(words, 0)) {
        Ok(tree) => put_parsed(alloc, call, &tree, words, out),
        Err(fault) => put_fault(fault, out),
    }
    true
}

fn put_parsed(alloc: Global, call: &str, tree: &Expr, words: &[Vec<u8>], out: &mut Answer) {
    if call == "expression" {
        return put_tree(tree, out);
    }
    let done = put_worth(alloc, tree, word(words, 1), rest(words, 2), out);
    out.note(done);
}

fn put_fault(fault: ExprFault, out: &mut Answer) {
    match fault {
        ExprFault::Syntax { at } => out.put_at(b"Syntax", at),
        ExprFault::TooDeep { at } => out.put_at(b"TooDeep", at),
        ExprFault::NoMemory => out.fail(),
    }
}

// The value of an expression in the row that words make.
fn put_worth(
    alloc: Global,
    tree: &Expr,
    fields: &[u8],
    words: &[Vec<u8>],
    out: &mut Answer,
) -> Result<(), NoMemory> {
    let row = row_of(alloc, words, out)?;
    put_in(alloc, tree, &row, fields, out)
}

fn put_in(
    alloc: Global,
    tree: &Expr,
    row: &Row,
    fields: &[u8],
    out: &mut Answer,
) -> Result<(), NoMemory> {
    let fields = if fields.is_empty() { NO_FIELDS } else { fields };
    let def = index_of(alloc, b"", fields, out)?;
    let value = eval(alloc, tree, LentRow::of(row), &def)?;
    put_value(&value, out);
    Ok(())
}

// ---- trees and values as they are written

// Writes a tree.
#[cycle(tree)]
fn put_tree(tree: &Expr, out: &mut Answer) {
    match tree {
        Expr::Num(number) => out.put_int(*number),
        Expr::Text(text) => out.put_quoted(text.as_slice()),
        Expr::Prop(name) => {
            out.put(b"@");
            out.put(name.as_slice());
        }
        Expr::Call { func, arg } => put_part(name_of(*func), arg.get(), out),
        Expr::Not(arg) => put_part(b"(not ", arg.get(), out),
        Expr::Neg(arg) => put_part(b"(neg ", arg.get(), out),
        Expr::Binary { op, left, right } => {
            out.put(sign_of(*op));
            put_tree(left.get(), out);
            put_part(b" ", right.get(), out);
        }
    }
}

// The last part of what a parenthesis opened.
#[cycle(tree)]
fn put_part(before: &[u8], part: &Expr, out: &mut Answer) {
    out.put(before);
    put_tree(part, out);
    out.put(b")");
}

fn name_of(func: Func) -> &'static [u8] {
    match func {
        Func::Lower => b"(lower ",
        Func::Upper => b"(upper ",
        Func::Strlen => b"(strlen ",
        Func::Abs => b"(abs ",
        Func::Exists => b"(exists ",
    }
}

fn sign_of(op: Op) -> &'static [u8] {
    match op {
        Op::Or => b"(or ",
        Op::And => b"(and ",
        Op::Equal => b"(== ",
        Op::Differ => b"(!= ",
        Op::AtMost => b"(<= ",
        Op::AtLeast => b"(>= ",
        Op::Below => b"(< ",
        Op::Above => b"(> ",
        Op::Plus => b"(+ ",
        Op::Minus => b"(- ",
        Op::Times => b"(* ",
    }
}

#[cycle(value)]
fn put_value(value: &Value, out: &mut Answer) {
    match value {
        Value::Null => out.put(b"null"),
        Value::Num(number) => out.put_int(*number),
        Value::Text(text) => out.put_quoted(text.as_slice()),
        Value::List(values) => put_list(values.as_slice(), out),
    }
}

#[cycle(value)]
fn put_list(values: &[Value], out: &mut Answer) {
    out.put(b"[");
    for value in values {
        out.put(b" ");
        put_value(value, out);
    }
    out.put(b" ]");
}

// ---- the row that words make

fn row_of(alloc: Global, words: &[Vec<u8>], out: &mut Answer) -> Result<Row, NoMemory> {
    let of_hash = words.iter().position(|word| !word.starts_with(b"."));
    let (cells, fields) = words.split_at(of_hash.unwrap_or(words.len()).min(words.len()));
    let cells = cells_of(alloc, cells, out);
    let doc = doc_of(alloc, fields, out)?;
    Ok(Row { doc, cells })
}

fn doc_of(alloc: Global, fields: &[Vec<u8>], out: &mut Answer) -> Result<Option<Doc>, NoMemory> {
    if fields.is_empty() {
        return Ok(None);
    }
    let doc = Doc::new(alloc, 1, b"", hash_of(alloc, fields, out))?;
    Ok(Some(doc))
}

fn cells_of(alloc: Global, words: &[Vec<u8>], out: &mut Answer) -> NamedList<Cell> {
    let mut cells = NamedList::new(alloc);
    for word in words {
        let cell = cell_of(alloc, word.as_slice(), out);
        out.note(cells.push(cell));
    }
    cells
}

// The cell of a dot, a name, an equals sign and a value.
fn cell_of(alloc: Global, word: &[u8], out: &mut Answer) -> Cell {
    let (name, value) = halves(word);
    let name = out.bytes(alloc, &name[1.min(name.len())..]);
    let value = value_of(alloc, value, out);
    Cell { name, value }
}

fn value_of(alloc: Global, text: &[u8], out: &mut Answer) -> Value {
    match text {
        b"null" => Value::Null,
        [b'[', items @ ..] => Value::List(items_of(alloc, items, out)),
        _ => item_of(alloc, text, out),
    }
}

fn item_of(alloc: Global, text: &[u8], out: &mut Answer) -> Value {
    match read_int(text) {
        Some(number) => Value::Num(number),
        None => Value::Text(out.bytes(alloc, text)),
    }
}

// Values with a blank between each two.
fn items_of(alloc: Global, text: &[u8], out: &mut Answer) -> ListOf<Value> {
    let mut items = ListOf::new(alloc);
    for item in text.split(|byte| *byte == b' ') {
        let item = item_of(alloc, item, out);
        out.note(items.push(item));
    }
    items
}
