//! A row: a thing, or what keeps its place.
ghost use Rattle.std.specs.Prelude.{◌≡◌};
ghost use Rattle.std.specs.Option.{option_copied};
ghost use Rattle.id_rows.specs.IdRows.{row_id, thing_of, is_empty_row};

use ft_base::HasId;

/// A thing, or the id of one that is gone: so ids that followed one another still do, and the
/// place of a thing is known from its id.
#[derive(Drop)]
pub enum Row<T: HasId> {
    Full(T),
    Empty(u64),
}

impl<T: HasId> Row<T> {
    /// The id, also of a thing that is gone.
    #[inline(always)]
    pub fn id(&self) -> u64
        ensures { result ≡ row_id T.id_of self.now }
    {
        match self {
            Row::Full(thing) => thing.id(),
            Row::Empty(id) => *id,
        }
    }

    /// Whether the thing is gone.
    #[inline(always)]
    pub fn is_empty(&self) -> bool
        ensures { result ≡ is_empty_row self.now }
    {
        match self {
            Row::Full(_) => false,
            Row::Empty(_) => true,
        }
    }

    /// The thing, unless it is gone.
    #[inline(always)]
    pub fn thing(&self) -> Option<&T>
        ensures { option_copied result ≡ thing_of self.now }
    {
        match self {
            Row::Full(thing) => Some(thing),
            Row::Empty(_) => None,
        }
    }

    /// The thing, unless it is gone.
    pub fn into_thing(self) -> Option<T>
        ensures { result ≡ thing_of self }
    {
        match self {
            Row::Full(thing) => Some(thing),
            Row::Empty(_) => None,
        }
    }
}
