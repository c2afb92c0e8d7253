//! The values that can be used while other values are computed.

use crate::checks::has_value;
use crate::constant::Constant;
use crate::constants::Constants;
use crate::module::Module;
use asn1_syntax::{Endpoint, Item, NamedNumber, Refusal};

const UNDEFINED: &str = "a value that this module defines or imports";

/// A module, with the values of the module that are already computed.
#[derive(Clone, Copy)]
pub struct Scope<'s, 'a> {
    /// The module.
    pub module: &'s Module<'a>,
    /// The values that are already computed.
    pub known: &'s Constants<'a>,
}

impl<'s, 'a> Scope<'s, 'a> {
    /// Returns the value with this name. `None` if that value is not computed yet. Fails if the
    /// name is not defined.
    pub fn find(&self, name: Item<'a>) -> Result<Option<&'s Constant>, Refusal<'a>> {
        match self.known.find(name.text) {
            Some(constant) => Ok(Some(constant)),
            None if has_value(self.module, name.text) => Ok(None),
            None => Err(Refusal::of(name, UNDEFINED)),
        }
    }

    /// Returns the number that a name stands for. The name is one of the named `numbers` of a type,
    /// or the name of a value of the module. `None` if that value is not computed yet. Fails if the
    /// name is not defined, or stands for a value that is not a number.
    pub fn number_named(
        &self,
        numbers: &Vec<NamedNumber<'a>>,
        name: Item<'a>,
    ) -> Result<Option<Endpoint<'a>>, Refusal<'a>> {
        for named in numbers.iter() {
            if named.name.text == name.text {
                return self.number(name, named.number);
            }
        }
        self.value_number(name)
    }

    // The number of a named number.
    fn number(
        &self,
        name: Item<'a>,
        number: Option<Endpoint<'a>>,
    ) -> Result<Option<Endpoint<'a>>, Refusal<'a>> {
        match number {
            Some(Endpoint::Name(of)) => self.value_number(of),
            Some(number) => Ok(Some(number)),
            None => Err(Refusal::of(name, "the name of a number")),
        }
    }

    /// Returns the value with this name, which must be a number. `None` if that value is not
    /// computed yet. Fails if the name is not defined, or if the value is not a number.
    pub fn value_number(&self, name: Item<'a>) -> Result<Option<Endpoint<'a>>, Refusal<'a>> {
        let Some(constant) = self.find(name)? else {
            return Ok(None);
        };
        match constant.number() {
            Some(number) => Ok(Some(number)),
            None => Err(Refusal::of(name, "the name of a number")),
        }
    }
}
