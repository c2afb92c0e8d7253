//! DEFAULT values that are numbers.

use super::default_place::DefaultPlace;
use super::defaults::{DefaultType, OwnDefault};
use super::numbers::bounds;
use super::template::{Places, filled};
use super::values::{push_list, push_octets};
use asn1_check::{Module, RustType, range_at};
use asn1_syntax::{Endpoint, Failure, ItemKind, NamedNumber, Refusal, Value, ValueForm};
use asn1_table::integer_octets;
use std::alloc::{AllocError, Global};
use std::fmt::Write;

const IN_RANGE: &str = "
/// The default of a field: @I.
pub struct @N;

impl DefaultOf<@T> for @N {
    ghost default_contents = { integer_octets false @I };

    fn default_value() -> @T {
        <@T>::known(@I)
    }
}
";

const OF_ANY_SIZE: &str = "
/// The default of a field: @S@I.
pub struct @N;

impl<'a> DefaultOf<@T> for @N {
    ghost default_contents = { @A };

    fn default_value() -> @T {
        <@T>::formed(&[@O])
    }
}
";

const NO_NUMBER: &str =
    "a number, or the name of one, from -18446744073709551615 to 18446744073709551615";

/// Returns the number for which a DEFAULT value stands. Fails if the value is not a number, or if
/// the number is not in the range of its type.
pub fn check_range<'a>(
    module: &Module<'a>,
    place: &DefaultPlace<'_>,
    numbers: &Vec<NamedNumber<'a>>,
    value: &Value<'a>,
) -> Result<Endpoint<'a>, Refusal<'a>> {
    let Some(number) = number_of(module, numbers, value) else {
        return Err(Refusal::of(value.item, NO_NUMBER));
    };
    if !range_at(module, place.index).has(number) {
        return Err(Refusal::of(value.item, "a number in the range of its type"));
    }
    Ok(number)
}

/// The Rust type of a field whose DEFAULT value is a number.
pub fn integer<'a>(
    alloc: Global,
    module: &Module<'a>,
    place: &DefaultPlace<'_>,
    numbers: &Vec<NamedNumber<'a>>,
    value: &Value<'a>,
) -> Result<DefaultType, Failure<'a>> {
    let number = check_range(module, place, numbers, value)?;
    match (bounds(module, place.index), number) {
        (None, Endpoint::Number(number)) if place.is_word => {
            let text = format!(in alloc; "WithDefault<IntegerOf<u64>, DefaultU64<{number}>>")?;
            Ok(DefaultType {
                of: RustType::element(alloc, text),
                own: None,
            })
        }
        (Some((low, high)), _) => {
            let of = format!(in alloc; "IntegerIn<{low}, {high}>")?;
            number_default(alloc, place.name, of.as_str(), number, IN_RANGE)
        }
        _ => number_default(alloc, place.name, "IntRef<'a>", number, OF_ANY_SIZE),
    }
}

// A default that is a number.
#[derive(Drop)]
struct NumberDefault<'t> {
    // The name of the type that stands for it.
    name: &'t str,
    // The type of the number.
    of: &'t str,
    number: Endpoint<'t>,
    octets: Vec<u8>,
}

impl<'t> Places for NumberDefault<'t> {
    fn push_place(&self, out: &mut String, letter: char) -> Result<(), AllocError> {
        match (letter, self.number) {
            ('N', _) => out.push_str(self.name),
            ('T', _) => out.push_str(self.of),
            ('S', Endpoint::Negative(_)) => out.push('-'),
            ('I', Endpoint::Number(number) | Endpoint::Negative(number)) => {
                write!(out, "{number}")
            }
            ('A', _) => push_list(out, &self.octets),
            ('O', _) => push_octets(out, &self.octets),
            _ => Ok(()),
        }
    }
}

// The type of a field whose default is this number of the type `of`, with the text of its default.
fn number_default<'a>(
    alloc: Global,
    name: &str,
    of: &str,
    number: Endpoint<'_>,
    template: &str,
) -> Result<DefaultType, Failure<'a>> {
    let text = NumberDefault {
        name,
        of,
        number,
        octets: integer_octets(alloc, number)?,
    };
    Ok(DefaultType {
        of: RustType::element(alloc, filled(alloc, "WithDefault<@T, @N>", &text)?),
        own: Some(OwnDefault {
            name: String::from_str(alloc, name)?,
            text: filled(alloc, template, &text)?,
        }),
    })
}

/// The number for which a value stands. The value may be a number, the name of a named number, or
/// the name of a value of the module. `None` if it is none of these.
pub fn number_of<'a>(
    module: &Module<'a>,
    numbers: &Vec<NamedNumber<'a>>,
    value: &Value<'a>,
) -> Option<Endpoint<'a>> {
    match (&value.form, value.item.kind) {
        (ValueForm::Negative(number), _) => Some(Endpoint::Negative(*number)),
        (ValueForm::Item, ItemKind::Number) => match value.item.text.parse::<u64>() {
            Ok(number) => Some(Endpoint::Number(number)),
            Err(_) => None,
        },
        (ValueForm::Item, ItemKind::LowerName) => match named(numbers, value.item.text) {
            Some(number) => Some(number),
            None => assigned(module, value.item.text),
        },
        _ => None,
    }
}

/// The number with this name among the named `numbers` of a type; `None` if there is none.
pub fn named<'a>(numbers: &Vec<NamedNumber<'a>>, name: &str) -> Option<Endpoint<'a>> {
    for named in numbers.iter() {
        if named.name.text == name {
            return named.number;
        }
    }
    None
}

// The number that a value of the module is, or one that it imports.
fn assigned<'a>(module: &Module<'a>, name: &str) -> Option<Endpoint<'a>> {
    module.constants.find(name)?.number()
}
