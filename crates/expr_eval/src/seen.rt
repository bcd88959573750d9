//! What operators and functions see of a value, without the value.
ghost use Rattle.std.specs.Prelude.{◌≡◌};
ghost use Rattle.expr_eval.specs.Lending.{operand_seen};
ghost use Rattle.expr_eval.specs.RightSides.{operand_number};
ghost use Rattle.expr_eval.specs.Values.{number_of, is_true};

/// Nothing of a Null, and of a List only that it is one. It is as large as a slice and a half and holds no memory, so a
/// chain of numbers is worked out without values that would have to be dropped.
#[derive(Clone, Copy)]
pub enum Seen<'a> {
    Nothing,
    Number(i64),
    Bytes(&'a [u8]),
    Several,
}

impl<'a> Seen<'a> {
    /// What is seen of a number, or of Null for none.
    pub fn of_number(number: Option<i64>) -> Seen<'a>
        ensures { operand_seen result ≡ operand_number number }
    {
        match number {
            Some(n) => Seen::Number(n),
            None => Seen::Nothing,
        }
    }

    /// The number of a Num.
    pub fn number(self) -> Option<i64>
        ensures { result ≡ number_of (operand_seen self.entry) }
    {
        match self {
            Seen::Number(n) => Some(n),
            Seen::Nothing | Seen::Bytes(_) | Seen::Several => None,
        }
    }

    /// Whether it is a Num other than 0.
    pub fn is_true(self) -> bool
        ensures { result ≡ is_true (operand_seen self.entry) }
    {
        match self {
            Seen::Number(n) => n != 0,
            Seen::Nothing | Seen::Bytes(_) | Seen::Several => false,
        }
    }
}
