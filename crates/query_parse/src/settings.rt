//! The values that attributes may have, by their names.
ghost use Rattle.std.specs.Prelude.{◌≡◌};
ghost use Rattle.query_grammar.specs.Faults.{is_known};
ghost use Rattle.query_grammar.specs.Grammar.{is_attribute};
ghost use Rattle.query_grammar.specs.Values.{fits_attribute, flag_of, slop_of};

use crate::params::Params;
use crate::values::{is_value, value_of};
use ft_base::{is_name, is_weight, read_int};
use query_lex::LexKind;

/// Whether a lexeme may be the value of an attribute of this name.
pub fn is_attribute(params: &Params<'_>, name: &[u8], kind: &LexKind) -> bool
    ensures { result ≡ is_attribute params.now name.now kind.now }
{
    if !is_value(kind) {
        return false;
    }
    match value_of(params, kind) {
        Some(value) => fits_attribute(name, value),
        None => true,
    }
}

/// Whether an attribute of this name may have a value. An unknown one may have any.
fn fits_attribute(name: &[u8], value: &[u8]) -> bool
    ensures { result ≡ fits_attribute name.now value.now }
{
    if name == b"slop".as_slice() {
        slop_of(value).is_some()
    } else if name == b"inorder".as_slice() {
        flag_of(value).is_some()
    } else if name == b"weight".as_slice() {
        is_weight(value)
    } else {
        true
    }
}

/// The slop that a value spells.
pub fn slop_of(value: &[u8]) -> Option<u32>
    ensures { result ≡ slop_of value.now }
{
    match read_int(value) {
        Some(number) => u32::try_from(number).ok(),
        None => None,
    }
}

/// The truth value that a value spells.
pub fn flag_of(value: &[u8]) -> Option<bool>
    ensures { result ≡ flag_of value.now }
{
    if is_name(value, b"true") {
        Some(true)
    } else if is_name(value, b"false") {
        Some(false)
    } else {
        None
    }
}

/// Whether an attribute of this name means something.
pub fn is_known(name: &[u8]) -> bool
    ensures { result ≡ is_known name.now }
{
    name == b"slop".as_slice() || name == b"inorder".as_slice() || name == b"weight".as_slice()
}
