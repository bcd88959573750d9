//! Places that a reader had reached, by the lists that they are in.
use crate::list_name::ListName;
use ft_base::ListOf;
use inverted_list::Place;

/// A list and a place that was reached in it.
#[derive(Drop)]
pub struct Hint {
    pub list: ListName,
    pub place: Place,
}

/// The places that a reader had reached.
#[derive(Drop)]
pub struct Hints(pub ListOf<Hint>);
