//! The numbers of one document that searches sort by.
ghost use Rattle.std.specs.Prelude.{◌≡◌, ◌++◌, ◌∷◌, [], None, slice_index_or, IfOk, OnOk};
ghost use Rattle.doc_table.specs.Forms.{numbers_of};

use ft_base::{ListOf, NoMemory};
use std::alloc::Global;
use std::marker::Model;
use std::mem;

/// The numbers of one document that searches sort by, in the order of their fields. One number, as most indexes keep, takes no
/// memory of its own.
#[derive(Drop)]
pub struct SortingVector {
    form: Form,
}

#[derive(Drop)]
enum Form {
    Empty,
    One(i64),
    // Two and more, or one that is missing.
    Many(Box<ListOf<Option<i64>>>),
}

impl Model for SortingVector {
    ghost use Rattle.doc_table.specs.Table.{Vector};

    ghost Value = { Vector };

    ghost use Rattle.doc_table.specs.Forms.{numbers_of};

    ghost view = { λ v. numbers_of v.form };
}

impl SortingVector {
    /// No numbers, and no memory taken.
    pub fn new() -> SortingVector
        ensures { result ≡ [] }
    {
        SortingVector { form: Form::Empty }
    }

    /// Adds the number of the next field, or that there is none. After an `Err` it may only be dropped.
    pub fn push(&mut self, alloc: Global, number: Option<i64>) -> Result<(), NoMemory>
        ensures { OnOk result (self.new ≡ self.old ++ number ∷ []) }
    {
        let form = mem::replace(&mut self.form, Form::Empty);
        self.form = longer(alloc, form, number)?;
        Ok(())
    }

    /// The number at a place, and none behind the end.
    #[inline]
    pub fn number(&self, place: usize) -> Option<i64>
        ensures { result ≡ slice_index_or self.now place None }
    {
        match &self.form {
            Form::One(number) if place == 0 => Some(*number),
            Form::Many(numbers) => *numbers.as_slice().get(place)?,
            Form::Empty | Form::One(_) => None,
        }
    }
}

// A form with one more number behind its own.
fn longer(alloc: Global, form: Form, number: Option<i64>) -> Result<Form, NoMemory>
    ensures { IfOk result (λ longer. numbers_of longer ≡ numbers_of form ++ number ∷ []) }
{
    if let (Form::Empty, Some(number)) = (&form, number) {
        return Ok(Form::One(number));
    }
    let mut numbers = listed(alloc, form)?;
    numbers.push(number)?;
    Ok(Form::Many(numbers))
}

// The numbers of a form in memory of their own.
fn listed(alloc: Global, form: Form) -> Result<Box<ListOf<Option<i64>>>, NoMemory>
    ensures { IfOk result (λ numbers. numbers.value ≡ numbers_of form) }
{
    let items = match form {
        Form::Empty => Vec::new(alloc),
        Form::One(number) => vec![in alloc; Some(number)]?,
        Form::Many(numbers) => return Ok(numbers),
    };
    Ok(Box::new(alloc, ListOf::from_vec(items))?)
}
