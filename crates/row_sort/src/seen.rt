//! What a key sees of a value, lent, so that no text is copied to be compared.
ghost use Rattle.std.specs.Prelude.{◌≡◌};
ghost use Rattle.row_sort.specs.Order.{key_of, first_value, later_values};
ghost use Rattle.row_sort.specs.Seen.{key_seen};

use ft_base::Value;

/// A number or a text. Of a Null or a List nothing is seen.
#[derive(Clone, Copy)]
pub enum Seen<'a> {
    Num(i64),
    Text(&'a [u8]),
    Neither,
}

impl<'a> Seen<'a> {
    /// What is seen of a value.
    pub fn of(value: &'a Value) -> Seen<'a>
        ensures { key_seen result ≡ key_of value.now }
    {
        match value {
            Value::Null => Seen::Neither,
            Value::Num(number) => Seen::Num(*number),
            Value::Text(text) => Seen::Text(text.as_slice()),
            Value::List(_) => Seen::Neither,
        }
    }

    /// What is seen of the first of some values.
    pub fn of_first(values: &'a [Value]) -> Seen<'a>
        ensures { key_seen result ≡ key_of (first_value values.now) }
    {
        match values.split_first() {
            Some((value, _)) => Seen::of(value),
            None => Seen::Neither,
        }
    }
}

/// The values behind the first.
pub fn later_values(values: &[Value]) -> &[Value]
    ensures { result.now ≡ later_values values.now }
{
    match values.split_first() {
        Some((_, later)) => later,
        None => values,
    }
}
