//! The Rust text for a SEQUENCE OF or SET OF that is a Rust struct of its own.

use super::directive::{FIELD, directive};
use super::sequence::ITEM;
use super::template::{Places, fill};
use asn1_check::Module;
use std::alloc::AllocError;

const LIST: &str = "@D#[derive(Clone, Copy, Debug, Drop, PartialEq, Eq)]
pub struct @N<'a> {
    /// The items, as a @W OF.
    pub @F: @T,
}

// The list of which the value consists.
type Items<'a> = @T;

impl<'a> FromFields<Items<'a>> for @N<'a> {
    ghost fields = { λ v. v.@F };

    fn from_fields(@F: Items<'a>) -> Self {
        @N { @F }
    }
}

";

const SEQUENCE: &str = "impl<'a> Sequence for @N<'a> {
    ghost meaning = { renamed ⟦<Items<'a> as Described>⟧.element (λ v. v.@F) };

    ghost fits = { (refl, refl) };
}

";

const SET: &str = "impl<'a> Described for @N<'a> {
    ghost element = { renamed ⟦<Items<'a> as Described>⟧.element (λ v. v.@F) };
}

impl<'a> FixedTag for @N<'a> {
    ghost tag_is = { Set };

    const TAG: Tag = Tag::Set;

    fn fixed_tag() -> Tag
        ensures { result ≡ Set }
    {
        Tag::Set
    }
}

impl<'a> ReadValue for @N<'a> {
    ghost valid = { ⟦<@N<'a> as Described>⟧.element.valid };

    ghost takes = { ⟦<@N<'a> as Described>⟧.element.takes };

    ghost value_levels = { ⟦<@N<'a> as Described>⟧.element.levels };

    ghost allocates = { false };

    ghost takes_valid = { ⟦<@N<'a> as Described>⟧.element.holds refl };
}

impl<'a> WrittenValue for @N<'a> {
    ghost contents = { ⟦<@N<'a> as Described>⟧.element.contents };

    ghost writable = { ⟦<@N<'a> as Described>⟧.element.valid };
}

impl<'a> Lawful for @N<'a> {
    ghost lawful = { ⟦<@N<'a> as Described>⟧.element.lawful refl };
}

";

const BOTH: &str = "/// Decodes the list. The errors are those of decoding a [`@O`].
impl<'a, R: Lends<Borrowed = &'a [u8]>> DecodeValue<R> for @N<'a> {
    type Error = Error;

    ghost decode_value_answers = { λ h s result t.
        ⟦<Items<'a> as DecodeValue<SliceReader<'a>>>⟧.decode_value_answers h s
        (map_ok (λ v. v.@F) result) t };

    fn decode_value(alloc: Global, reader: &mut R, header: Header) -> Result<Self, Error>
    where
        R: Reader,
    {
        decode_wrapped::<R, Items<'a>, Self>(alloc, reader, header)
    }
}

impl<'a> IsValue for @N<'a> {
    fn is_value(&self) {
        self.@F.is_value();
    }
}

/// Writes the list. The errors are those of writing a [`@O`].
impl<'a> EncodeValue for @N<'a> {
    ghost value_size = { λ v. ⟦<Items<'a> as EncodeValue>⟧.value_size v.@F };

    ghost encode_value_answers = { λ v. ⟦<Items<'a> as EncodeValue>⟧.encode_value_answers v.@F };

    fn value_len(&self) -> Result<Length, Error> {
        self.@F.value_len()
    }

    fn encode_value<W: Writer>(&self, writer: &mut W) -> Result<(), Error> {
        self.@F.encode_value(writer)
    }

    fn value_len_before(&self) -> Option<u32> {
        self.@F.value_len_before()
    }

    fn encode_value_before(&self, buf: &mut [u8], end: u32) -> u32 {
        self.@F.encode_value_before(buf, end)
    }
}
";

/// A Rust struct for a SEQUENCE OF or SET OF. Its only field is the list.
#[derive(Clone, Copy)]
pub struct ListText<'t> {
    /// The lines of the doc comment of the struct.
    pub doc: &'t str,
    /// The name of the struct.
    pub name: &'t str,
    /// The name of the only field of the struct.
    pub field: &'t str,
    /// The Rust type of the list, which is the type of the field.
    pub list: &'t str,
}

impl<'t> ListText<'t> {
    /// Appends the text of the struct and of its implementations.
    pub fn push_body(&self, out: &mut String) -> Result<(), AllocError> {
        fill(out, LIST, self)?;
        fill(out, if self.is_set() { SET } else { SEQUENCE }, self)?;
        fill(out, BOTH, self)?;
        fill(out, ITEM, self)
    }

    fn is_set(&self) -> bool {
        self.list.starts_with("SetOf")
    }
}

impl<'t> Places for ListText<'t> {
    fn push_place(&self, out: &mut String, letter: char) -> Result<(), AllocError> {
        match letter {
            'D' => out.push_str(self.doc),
            'N' => out.push_str(self.name),
            'F' => out.push_str(self.field),
            'T' => out.push_str(self.list),
            'W' => out.push_str(if self.is_set() { "SET" } else { "SEQUENCE" }),
            'O' => out.push_str(if self.is_set() { "SetOf" } else { "SequenceOf" }),
            'L' => out.push_str("<'a>"),
            _ => Ok(()),
        }
    }
}

/// The name of the field that holds the items, if the SEQUENCE OF or SET OF with the index `index`
/// becomes a Rust struct. A comment `Rust field: NAME` above the type in the module gives this name.
/// Without this comment, the list becomes a struct only if it is the item of another list; the field
/// is `items` then. `None` if the list does not become a struct.
pub fn list_field<'a>(module: &Module<'a>, index: usize) -> Option<&'a str> {
    if let Some(assigned) = module.assignment(index)
        && let Some(field) = directive(assigned.name.comments, FIELD)
    {
        return Some(field);
    }
    match module.list_items.get(index) {
        Some(true) => Some("items"),
        _ => None,
    }
}
