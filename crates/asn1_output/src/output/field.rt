//! Fields of a Rust struct.

use super::defaults::OwnDefault;
use super::template::{Items, Places, Tuples, fill, push_tuple};
use asn1_check::RustType;
use std::alloc::AllocError;
use std::fmt::Write;

/// Whether the component of a field may be absent from an encoding.
#[derive(Drop)]
pub enum FieldPresence {
    /// The component must be present.
    Required,
    /// The component may be absent.
    Optional,
    /// The component is absent if its value is the default value. The Rust type of the field has
    /// the default value.
    Defaulted,
    /// The component is absent if its value is the default value. The Rust type with this name
    /// stands for the default value. It is written by hand.
    DefaultedTo(String),
    /// The field stands for any number of components: all that the SEQUENCE does not describe.
    Additions,
}

/// A field of a Rust struct, for a component of a SEQUENCE.
#[derive(Drop)]
pub struct Field {
    /// The name of the field.
    pub name: String,
    /// The lines of the doc comment of the field. They come from the comment in the module, or else
    /// have the name in the module.
    pub doc: String,
    /// The Rust type of the field, without what OPTIONAL or DEFAULT adds.
    pub of: RustType,
    /// Whether the component of the field may be absent.
    pub presence: FieldPresence,
    /// The Rust type that the compiler writes for the default value of the field. `None` if no type
    /// has to be written.
    pub own: Option<OwnDefault>,
}

const DEFAULTED_TO: &str =
    "(defaulted_to ⟦<@O as DefaultOf<@T>>⟧.default_contents ⟦<@T as Described>⟧.element (λ v. v.0))";

const CHECK_OPTIONAL: &str = "        if let Some(value) = &self.@N.0 {
            value.is_value();
        }
";

const CHECK_OPTIONAL_CHOICE: &str = "        if let Some(value) = &self.@N.0 {
            match value {
@A}
        }
";

impl Field {
    /// How much work the field is for the proof checker. A required field counts as 1.
    pub fn weight(&self) -> usize {
        match &self.presence {
            FieldPresence::Required => 1,
            FieldPresence::Optional if self.of.text.contains("Tagged<") => 3,
            FieldPresence::Optional | FieldPresence::Additions => 2,
            FieldPresence::Defaulted if self.of.text.contains("WithDefault<NamedInteger<") => 14,
            FieldPresence::Defaulted if self.of.text.contains("WithDefault<Enumerated<") => 14,
            FieldPresence::Defaulted if self.of.text.contains("WithDefault") => 5,
            FieldPresence::Defaulted | FieldPresence::DefaultedTo(_) => 3,
        }
    }

    /// Appends the type of the field, including what OPTIONAL or DEFAULT adds.
    pub fn push_whole_type(&self, out: &mut String) -> Result<(), AllocError> {
        let text = self.of.text.as_str();
        match &self.presence {
            FieldPresence::Required | FieldPresence::Additions => out.push_str(text),
            FieldPresence::Optional => write!(out, "Optional<{text}>"),
            FieldPresence::Defaulted => write!(out, "Defaulted<{text}>"),
            FieldPresence::DefaultedTo(default) => {
                let default = default.as_str();
                write!(out, "DefaultedTo<{text}, {default}>")
            }
        }
    }

    /// A template for a term in a contract. The term describes the encodings of the field.
    pub fn meaning(&self) -> &'static str {
        match self.presence {
            FieldPresence::Required => "(field @M)",
            FieldPresence::Optional => "(optional @M)",
            FieldPresence::Defaulted => "(defaulted ⟦<@T as DefaultValue>⟧.is_default @M)",
            FieldPresence::DefaultedTo(_) => DEFAULTED_TO,
            FieldPresence::Additions => "⟦<@T as DescribedField>⟧.field",
        }
    }

    /// A template for a Rust statement. The statement checks whether the value of the field is a
    /// valid value of its type.
    pub fn check(&self) -> &'static str {
        match (self.of.arms.is_empty(), &self.presence) {
            (true, FieldPresence::Optional) => CHECK_OPTIONAL,
            (true, _) => "        self.@N@I.is_value();\n",
            (false, FieldPresence::Optional) => CHECK_OPTIONAL_CHOICE,
            (false, _) => "        match &self.@N@I {\n@A}\n",
        }
    }

    // Where the value is in the field.
    fn inside(&self) -> &'static str {
        match self.presence {
            FieldPresence::Defaulted | FieldPresence::DefaultedTo(_) => ".0",
            _ => "",
        }
    }

    // The type that stands for the default, if it is written by hand.
    fn own_default(&self) -> &str {
        match &self.presence {
            FieldPresence::DefaultedTo(default) => default.as_str(),
            _ => "",
        }
    }
}

impl Places for Field {
    fn push_place(&self, out: &mut String, letter: char) -> Result<(), AllocError> {
        match letter {
            'N' => out.push_str(self.name.as_str()),
            'D' => out.push_str(self.doc.as_str()),
            'T' => out.push_str(self.of.text.as_str()),
            'A' => out.push_str(self.of.arms.as_str()),
            'M' => self.of.push_alternative(out),
            'O' => out.push_str(self.own_default()),
            'I' => out.push_str(self.inside()),
            'W' => self.push_whole_type(out),
            _ => Ok(()),
        }
    }
}

/// The lifetime parameter of a struct with these fields, as Rust text. Empty if the struct needs
/// none.
pub fn lifetime_of(fields: &[Field]) -> &'static str {
    for field in fields {
        if field.of.has_lifetime {
            return "<'a>";
        }
    }
    ""
}

/// What a tuple has as the member for each field of a struct.
#[derive(Clone, Copy)]
pub enum Row {
    /// The member is the type of the field.
    Types,
    /// The member is the name of the field.
    Names,
    /// The member is the value of the field in the struct value `v`.
    Values,
    /// The member is the term for a contract that describes the encodings of the field.
    Meaning,
}

impl Row {
    /// The text in front of the first member of a tuple with `count` members.
    pub fn open(self, count: usize) -> &'static str {
        match self {
            Row::Meaning => meaning_of(count),
            _ => "(",
        }
    }

    /// The text between two members of a tuple.
    pub fn between(self) -> &'static str {
        match self {
            Row::Meaning => " ",
            _ => ", ",
        }
    }
}

// Some fields, and what is written of each.
#[derive(Clone, Copy)]
struct FieldRow<'f> {
    fields: &'f [Field],
    row: Row,
}

impl<'f> Items for FieldRow<'f> {
    fn push_item(&self, out: &mut String, index: usize) -> Result<(), AllocError> {
        let Some(field) = self.fields.get(index) else {
            return Ok(());
        };
        match self.row {
            Row::Types => field.push_whole_type(out),
            Row::Names => out.push_str(field.name.as_str()),
            Row::Values => fill(out, "v.@N", field),
            Row::Meaning => fill(out, field.meaning(), field),
        }
    }
}

impl<'f> Tuples for FieldRow<'f> {
    fn open(&self, count: usize) -> &'static str {
        self.row.open(count)
    }

    fn between(&self) -> &'static str {
        self.row.between()
    }
}

// The word for what so many fields mean in sequence.
fn meaning_of(count: usize) -> &'static str {
    match count {
        2 => "(two_fields ",
        3 => "(three_fields ",
        4 => "(four_fields ",
        5 => "(five_fields ",
        6 => "(six_fields ",
        7 => "(seven_fields ",
        8 => "(eight_fields ",
        9 => "(nine_fields ",
        10 => "(ten_fields ",
        11 => "(eleven_fields ",
        _ => "(twelve_fields ",
    }
}

/// Appends a tuple with one member for each of these fields. `row` says what the members are.
pub fn push_row(out: &mut String, fields: &[Field], row: Row) -> Result<(), AllocError> {
    push_tuple(out, &FieldRow { fields, row }, fields.len())
}

/// Appends the template once for each of these fields. Its placeholders are replaced by the
/// properties of the field.
pub fn push_fields(out: &mut String, fields: &[Field], template: &str) -> Result<(), AllocError> {
    for field in fields {
        fill(out, template, field)?;
    }
    Ok(())
}

/// Appends a Rust statement for each of these fields. The statement checks whether the value of the
/// field is a valid value of its type.
pub fn push_checks(out: &mut String, fields: &[Field]) -> Result<(), AllocError> {
    for field in fields {
        fill(out, field.check(), field)?;
    }
    Ok(())
}
