//! Reducers, fed value by value.
ghost use Rattle.std.specs.Prelude.{◌≡◌, ◌+◌, length, pos, OnOk, IfOk};
ghost use Rattle.ft_base.specs.declared.row.Value.TheVariants.{List as ListOfValues, Num};
ghost use Rattle.expr_eval.specs.Values.{num_or_null, whole};
ghost use Rattle.agg_pipeline.specs.Made.{add_spelling, add_value, finished, keep_first, start, step};
ghost use Rattle.agg_pipeline.specs.Reduce.{added, greater, is_some_value, lesser, number};
ghost use Rattle.agg_pipeline.specs.Seen.{seen};

use crate::distinct::Distinct;
use crate::seen::Seen;
use crate::spellings::Spellings;
use crate::step::ReduceKind;
use ft_base::{NoMemory, Value};
use std::alloc::Global;

/// What a reducer made of the values so far.
pub enum State {
    Count(u64),
    Differing(Spellings),
    Sum(i128),
    Least(Option<i64>),
    Greatest(Option<i64>),
    Many(Distinct),
    First(Option<Value>),
}

// Written out, it is one step for whoever drops a state, where a derived one has an arm for each reducer.
impl Drop for State {
    fn drop(self) {
        match self {
            State::Count(_) => {}
            State::Differing(spellings) => drop(spellings),
            State::Sum(_) => {}
            State::Least(_) => {}
            State::Greatest(_) => {}
            State::Many(values) => drop(values),
            State::First(first) => drop(first),
        }
    }
}

impl State {
    /// Nothing was made yet.
    pub fn new(alloc: Global, kind: ReduceKind) -> State
        ensures { result ≡ start kind }
    {
        match kind {
            ReduceKind::Count => State::Count(0),
            ReduceKind::CountDistinct => State::Differing(Spellings::new(alloc)),
            ReduceKind::Sum => State::Sum(0),
            ReduceKind::Min => State::Least(None),
            ReduceKind::Max => State::Greatest(None),
            ReduceKind::ToList => State::Many(Distinct::new(alloc)),
            ReduceKind::FirstValue => State::First(None),
        }
    }

    /// Takes one more value in. A number that would pass 128 bits, which takes more rows than any memory holds, is
    /// refused as if memory ran out.
    pub fn step(&mut self, value: Seen<'_>, room: &mut Vec<u8>) -> Result<(), NoMemory>
        ensures { OnOk result (self.new ≡ step self.old (seen value.entry)) }
    {
        match self {
            State::Count(n) => add_one(n),
            State::Differing(spellings) => add_spelling(spellings, value, room),
            State::Sum(sum) => add_number(sum, value),
            State::Least(n) => {
                *n = lesser(*n, number(value));
                Ok(())
            }
            State::Greatest(n) => {
                *n = greater(*n, number(value));
                Ok(())
            }
            State::Many(values) => add_value(values, value, room),
            State::First(first) => keep_first(first, value, *room.allocator()),
        }
    }

    /// What the reducer gives. A count that would pass 64 bits is refused as if memory ran out.
    pub fn finish(self) -> Result<Value, NoMemory>
        ensures { IfOk result (λ value. value ≡ finished self) }
    {
        match self {
            State::Count(n) => counted(n),
            State::Differing(spellings) => differing(spellings),
            State::Sum(sum) => Ok(num_or_null(whole(sum))),
            State::Least(n) => Ok(num_or_null(n)),
            State::Greatest(n) => Ok(num_or_null(n)),
            State::Many(values) => listed(values),
            State::First(first) => Ok(first.unwrap_or(Value::Null)),
        }
    }
}

fn add_one(n: &mut u64) -> Result<(), NoMemory>
    ensures { OnOk result (n.new ≡ n.old + 1) }
{
    *n = n.checked_add(1).ok_or(NoMemory)?;
    Ok(())
}

/// Adds the number of a Num.
fn add_number(sum: &mut i128, value: Seen<'_>) -> Result<(), NoMemory>
    ensures { OnOk result (sum.new ≡ added sum.old (seen value.entry)) }
{
    let number = i128::from(number(value).unwrap_or(0));
    *sum = sum.checked_add(number).ok_or(NoMemory)?;
    Ok(())
}

/// Adds a value that isn't Null, where it is not there.
fn add_value(values: &mut Distinct, value: Seen<'_>, room: &mut Vec<u8>) -> Result<(), NoMemory>
    ensures { OnOk result (values.new ≡ add_value values.old (seen value.entry)) }
{
    if is_some_value(value) {
        values.add(value, room)
    } else {
        Ok(())
    }
}

/// Adds the spelling of a value that isn't Null, where it is not there.
fn add_spelling(
    spellings: &mut Spellings,
    value: Seen<'_>,
    room: &mut Vec<u8>,
) -> Result<(), NoMemory>
    ensures { OnOk result (spellings.new ≡ add_spelling spellings.old (seen value.entry)) }
{
    if is_some_value(value) {
        spellings.add(value, room)
    } else {
        Ok(())
    }
}

/// Keeps the first value.
fn keep_first(first: &mut Option<Value>, value: Seen<'_>, alloc: Global) -> Result<(), NoMemory>
    ensures { OnOk result (first.new ≡ keep_first first.old (seen value.entry)) }
{
    if first.is_none() {
        *first = Some(value.own(alloc)?);
    }
    Ok(())
}

fn is_some_value(value: Seen<'_>) -> bool
    ensures { result ≡ is_some_value (seen value.entry) }
{
    value.is_there()
}

/// The number of a Num.
fn number(value: Seen<'_>) -> Option<i64>
    ensures { result ≡ number (seen value.entry) }
{
    value.number()
}

fn lesser(so_far: Option<i64>, number: Option<i64>) -> Option<i64>
    ensures { result ≡ lesser so_far number }
{
    match (so_far, number) {
        (Some(m), Some(n)) => Some(if n < m { n } else { m }),
        (Some(m), None) => Some(m),
        (None, n) => n,
    }
}

fn greater(so_far: Option<i64>, number: Option<i64>) -> Option<i64>
    ensures { result ≡ greater so_far number }
{
    match (so_far, number) {
        (Some(m), Some(n)) => Some(if m < n { n } else { m }),
        (Some(m), None) => Some(m),
        (None, n) => n,
    }
}

fn counted(n: u64) -> Result<Value, NoMemory>
    ensures { IfOk result (λ value. value ≡ Num (pos n)) }
{
    match i64::try_from(n) {
        Ok(n) => Ok(Value::Num(n)),
        Err(_) => Err(NoMemory),
    }
}

fn differing(spellings: Spellings) -> Result<Value, NoMemory>
    ensures { IfOk result (λ value. value ≡ Num (pos (length spellings))) }
{
    let count = spellings.len() as u64;
    drop(spellings);
    counted(count)
}

fn listed(values: Distinct) -> Result<Value, NoMemory>
    ensures { IfOk result (λ value. value ≡ ListOfValues values) }
{
    Ok(Value::List(values.into_list()?))
}

/// A sum, where it has 64 bits.
fn whole(sum: i128) -> Option<i64>
    ensures { result ≡ whole sum }
{
    match i64::try_from(sum) {
        Ok(n) => Some(n),
        Err(_) => None,
    }
}

/// A number as a Num, and none as Null.
fn num_or_null(number: Option<i64>) -> Value
    ensures { result ≡ num_or_null number }
{
    match number {
        Some(n) => Value::Num(n),
        None => Value::Null,
    }
}
