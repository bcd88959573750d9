//! The number of a value.
ghost use Rattle.std.specs.Prelude.{◌≡◌};
ghost use Rattle.field_text.specs.Numbers.{number_of};

/// The whole number that a text spells: a sign or none, and then digits, of which the first may be
/// zeros. `None` where it spells none from -2^63 to 2^63 - 1.
pub fn number(text: &[u8]) -> Option<i64>
    ensures { result ≡ number_of text.now }
{
    let Ok(digits) = std::str::from_utf8(text) else {
        return None;
    };
    let Ok(number) = digits.parse::<i64>() else {
        return None;
    };
    Some(number)
}
