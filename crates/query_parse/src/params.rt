//! The parameters of a text, so kept that one is found by its name without a walk over them.
ghost use Rattle.std.specs.Prelude.{◌≡◌, IfOk, option_map};
ghost use Rattle.query_grammar.specs.Values.{param_of};

use ft_base::{NoMemory, Param};
use std::alloc::Global;
use std::collections::BTreeMap;
use std::marker::Model;

/// Parameters, and the place among them of the first of each name. Contracts see the list of them.
#[derive(Drop)]
pub struct Params<'p> {
    list: &'p [Param],
    places: BTreeMap<&'p [u8], usize>,
}

impl<'p> Model for Params<'p> {
    ghost use Rattle.std.specs.Prelude.{List};
    ghost use Rattle.ft_base.specs.declared.query.Param.{Param};
    ghost use Rattle.query_parse.specs.Places.{IsIndexOf};

    ghost Value = { List Param };

    ghost view = { λ p. p.list.now };

    ghost invariant = { λ p. IsIndexOf p.list.now p.places };
}

impl<'p> Params<'p> {
    /// Where there are no parameters no memory is taken.
    pub fn new(alloc: Global, list: &'p [Param]) -> Result<Params<'p>, NoMemory>
        ensures { IfOk result (λ params. params ≡ list.now) }
    {
        let mut places = BTreeMap::new(alloc);
        // From the last to the first, so that the first of a name stays.
        for place in (0..list.len()).rev() {
            places.insert(list[place].name.as_slice(), place)?;
        }
        Ok(Params { list, places })
    }

    /// The value of a name, where the command gives it one.
    pub fn get(&self, name: &[u8]) -> Option<&[u8]>
        ensures { option_map (λ v. v.now) result ≡ param_of self.now name.now }
    {
        match self.places.get(name) {
            Some(place) => Some(self.list[*place].value.as_slice()),
            None => None,
        }
    }
}
