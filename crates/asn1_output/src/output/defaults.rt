//! Rust types of fields with a DEFAULT.

use super::default_place::DefaultPlace;
use super::directive::own_type;
use super::enumeration::{number_of_item, variant_names};
use super::lists::list_field;
use super::number_default::{check_range, integer, named, number_of};
use super::numbers::OPEN;
use super::tagged::{after_tag, after_tags, end_of, leaf_of};
use super::template::{Places, filled};
use asn1_check::{Module, RustKind, RustType, base_form, base_of};
use asn1_syntax::{Failure, NamedNumber, Refusal, SimpleType, TypeForm, Value, ValueForm};
use std::alloc::{AllocError, Global};
use std::fmt::Write;

/// The Rust type of a field that has a DEFAULT.
#[derive(Drop)]
pub struct DefaultType {
    /// The type of the field.
    pub of: RustType,
    /// The Rust type that stands for the default value, if the compiler has to write this type.
    /// `None` if the library has a type for the default value.
    pub own: Option<OwnDefault>,
}

impl DefaultType {
    /// The type of a field for whose default value no Rust type has to be written.
    pub fn plain(alloc: Global, of: &RustType) -> Result<Self, AllocError> {
        Ok(DefaultType {
            of: of.copy(alloc)?,
            own: None,
        })
    }
}

/// A Rust type that the compiler writes to stand for the default value of one field.
#[derive(Drop)]
pub struct OwnDefault {
    /// The name of the type.
    pub name: String,
    /// The Rust text that defines the type.
    pub text: String,
}

const ITEM: &str = "
/// The default of a field: [`@E::@V`].
pub struct @N;

impl DefaultOf<@T> for @N {
    ghost default_contents = { integer_octets false @I };

    fn default_value() -> @T {
        <@T>::new(@E::@V)
    }
}
";

const OPEN_ITEM: &str = "
/// The default of a field: the number of `@V`.
pub struct @N;

impl DefaultOf<@T> for @N {
    ghost default_contents = { integer_octets false @I };

    fn default_value() -> @T {
        EnumeratedOf { number: @I }
    }
}
";

const NO_ITEM: &str = "the name of a number of this type";

/// The Rust type of a field with this DEFAULT value. Fails if the value is not valid for its type,
/// or is not supported.
pub fn default_type<'a>(
    alloc: Global,
    module: &Module<'a>,
    types: &Vec<RustType>,
    place: &DefaultPlace<'_>,
    value: &Value<'a>,
) -> Result<DefaultType, Failure<'a>> {
    let leaf = leaf_of(module, place.index);
    if own_type(module, base_of(module, leaf)).is_some() {
        return Ok(DefaultType::plain(alloc, place.of)?);
    }
    let DefaultType { of, own } = inside_type(alloc, module, types, place, value)?;
    let Some(text) = after_tags(alloc, module, place.index, of.text)? else {
        return Err(not_written(value));
    };
    let text = match place.numbered {
        Some(prefix) => after_tag(alloc, prefix, text.as_str())?,
        None => text,
    };
    Ok(DefaultType {
        of: RustType::new(alloc, text.as_str(), place.of.kind)?,
        own,
    })
}

// The type of the field after all tags.
fn inside_type<'a>(
    alloc: Global,
    module: &Module<'a>,
    types: &Vec<RustType>,
    place: &DefaultPlace<'_>,
    value: &Value<'a>,
) -> Result<DefaultType, Failure<'a>> {
    let index = end_of(module, place.index);
    let text = text_at(types, index);
    match base_form(module, place.index) {
        Some(TypeForm::Simple(SimpleType::Boolean)) => boolean(alloc, value),
        Some(TypeForm::Enumerated(items)) if named(items, value.item.text).is_some() => {
            item_default(alloc, module, place, text, items, value)
        }
        Some(TypeForm::Integer(items)) if text.starts_with("NamedInteger") => {
            check_range(module, place, items, value)?;
            item_default(alloc, module, place, text, items, value)
        }
        Some(TypeForm::Integer(numbers)) => integer(alloc, module, place, numbers, value),
        Some(TypeForm::SequenceOf(_) | TypeForm::SetOf(_)) if is_empty(value) => {
            list_default(alloc, module, index, text, value)
        }
        Some(TypeForm::Enumerated(_)) => Err(Failure::Refused(Refusal::of(value.item, NO_ITEM))),
        _ => Err(not_written(value)),
    }
}

fn text_at(types: &Vec<RustType>, index: usize) -> &str {
    match types.get(index) {
        Some(found) => found.text.as_str(),
        None => "",
    }
}

// Whether a value is braces with nothing between them.
fn is_empty(value: &Value<'_>) -> bool {
    match &value.form {
        ValueForm::Braces(items) => items.is_empty(),
        _ => false,
    }
}

// The type of a list whose default is the empty one.
fn list_default<'a>(
    alloc: Global,
    module: &Module<'a>,
    index: usize,
    text: &str,
    value: &Value<'a>,
) -> Result<DefaultType, Failure<'a>> {
    if list_field(module, index).is_some() || !text.contains("Of<") {
        return Err(not_written(value));
    }
    let text = format!(in alloc; "WithDefault<{text}, DefaultEmpty>")?;
    Ok(DefaultType {
        of: RustType::element(alloc, text),
        own: None,
    })
}

// A default that is an item of an enumeration.
#[derive(Drop)]
struct ItemDefault<'t> {
    // The name of the type that stands for it.
    name: &'t str,
    // The type of the item.
    of: &'t str,
    // The enumeration.
    enumeration: &'t str,
    // The name of the item.
    variant: String,
    // Its number.
    number: u64,
}

impl<'t> Places for ItemDefault<'t> {
    fn push_place(&self, out: &mut String, letter: char) -> Result<(), AllocError> {
        match letter {
            'N' => out.push_str(self.name),
            'T' => out.push_str(self.of),
            'E' => out.push_str(self.enumeration),
            'V' => out.push_str(self.variant.as_str()),
            'I' => write!(out, "{}", self.number),
            _ => Ok(()),
        }
    }
}

// The type of a field with this default.
fn with_item<'a>(alloc: Global, text: &ItemDefault<'_>) -> Result<DefaultType, Failure<'a>> {
    Ok(DefaultType {
        of: RustType::element(alloc, filled(alloc, "WithDefault<@T, @N>", text)?),
        own: Some(OwnDefault {
            name: String::from_str(alloc, text.name)?,
            text: filled(alloc, if text.of == OPEN { OPEN_ITEM } else { ITEM }, text)?,
        }),
    })
}

// The type of a field whose default is an item of an enumeration.
fn item_default<'a>(
    alloc: Global,
    module: &Module<'a>,
    place: &DefaultPlace<'_>,
    of: &str,
    items: &Vec<NamedNumber<'a>>,
    value: &Value<'a>,
) -> Result<DefaultType, Failure<'a>> {
    let Some(enumeration) = inside_of(of) else {
        return Err(not_written(value));
    };
    if of.starts_with("EnumeratedRef") {
        return Err(not_written(value));
    }
    let names = variant_names(alloc, items)?;
    for (item, name) in items.iter().zip(names.iter()) {
        if is_item(module, items, item, value) {
            let text = ItemDefault {
                name: place.name,
                of,
                enumeration,
                variant: String::from_str(alloc, name.as_str())?,
                number: number_of_item(item)?,
            };
            return with_item(alloc, &text);
        }
    }
    Err(Failure::Refused(Refusal::of(value.item, NO_ITEM)))
}

// Whether a value is this item, by its name or its number.
fn is_item<'a>(
    module: &Module<'a>,
    items: &Vec<NamedNumber<'a>>,
    item: &NamedNumber<'a>,
    value: &Value<'a>,
) -> bool {
    if named(items, value.item.text).is_some() {
        return item.name.text == value.item.text;
    }
    match (number_of(module, items, value), item.number) {
        (Some(number), Some(of)) => number.is_same(of),
        _ => false,
    }
}

// What is between `<` and `>`.
fn inside_of(text: &str) -> Option<&str> {
    let (_, inside) = text.split_once('<')?;
    inside.strip_suffix(">")
}

fn not_written<'a>(value: &Value<'a>) -> Failure<'a> {
    Failure::Unsupported(Refusal::of(value.item, "a default for which the compiler has a form"))
}

fn boolean<'a>(alloc: Global, value: &Value<'a>) -> Result<DefaultType, Failure<'a>> {
    let text = match value.item.text {
        "FALSE" => "BooleanRef<'a>",
        "TRUE" => "WithDefault<BooleanRef<'a>, DefaultTrue>",
        _ => return Err(Failure::Refused(Refusal::of(value.item, "TRUE or FALSE"))),
    };
    Ok(DefaultType {
        of: RustType::new(alloc, text, RustKind::Element)?,
        own: None,
    })
}
