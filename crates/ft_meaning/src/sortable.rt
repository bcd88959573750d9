//! The fields whose numbers an index keeps to sort by.
ghost use Rattle.std.specs.Prelude.{◌≡◌};
ghost use Rattle.ft_meaning.specs.Sortable.{keeps_number};

use ft_base::Field;

/// Whether an index keeps a field's numbers to sort by: it is NUMERIC and SORTABLE.
pub fn keeps_number(field: &Field) -> bool
    ensures { result ≡ keeps_number field.now }
{
    field.sortable && field.kind.is_numeric()
}
