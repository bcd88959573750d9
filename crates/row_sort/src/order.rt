//! The order of two values by one key.
ghost use Rattle.std.specs.Prelude.{◌≡◌};
ghost use Rattle.row_sort.specs.Order.{turned, key_order, value_order};
ghost use Rattle.row_sort.specs.Seen.{key_seen};

use crate::seen::Seen;
use crate::texts::compare_texts;
use ft_base::Value;
use std::cmp::Ordering;

/// How rows are ordered by one value.
#[derive(Clone, Copy)]
pub struct Direction {
    /// Texts fall, and then Nums fall. Null and Lists come last all the same.
    pub descending: bool,
    /// Texts are compared with A to Z lowered.
    pub lower: bool,
}

/// The order of two values by one key. It takes no memory.
pub fn compare(left: &Value, right: &Value, by: Direction) -> Ordering
    ensures { result ≡ value_order by left.now right.now }
{
    compare_seen(Seen::of(left), Seen::of(right), by)
}

/// The order of two values by what the key sees of them.
pub fn compare_seen(left: Seen<'_>, right: Seen<'_>, by: Direction) -> Ordering
    ensures { result ≡ key_order by (key_seen left.entry) (key_seen right.entry) }
{
    match (left, right) {
        (Seen::Neither, Seen::Neither) => Ordering::Equal,
        (Seen::Neither, _) => Ordering::Greater,
        (_, Seen::Neither) => Ordering::Less,
        (Seen::Num(left), Seen::Num(right)) => turned(left.cmp(&right), by.descending),
        (Seen::Num(_), Seen::Text(_)) => turned(Ordering::Less, by.descending),
        (Seen::Text(_), Seen::Num(_)) => turned(Ordering::Greater, by.descending),
        (Seen::Text(left), Seen::Text(right)) => {
            turned(compare_texts(left, right, by.lower), by.descending)
        }
    }
}

fn turned(order: Ordering, descending: bool) -> Ordering
    ensures { result ≡ turned descending order }
{
    if descending { order.reverse() } else { order }
}
