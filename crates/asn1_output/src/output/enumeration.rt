//! The Rust text for an ENUMERATED, and for the named bits of a BIT STRING.

use super::directive::variant_name;
use super::taken::{ALONE, Taken};
use super::template::{Places, fill};
use asn1_syntax::{Endpoint, Failure, NamedNumber, Refusal};
use std::alloc::{AllocError, Global};
use std::fmt::Write;

const ENUM: &str = "@D#[derive(Clone, Copy, Debug, PartialEq, Eq)]
pub enum @N {
@F}
";

const ENUMERATION: &str = "
impl Enumeration for @N {
    ghost item_of = { λ n. @INone };

    ghost number_of = { elim [
@V    ] };

    fn from_number(number: u32) -> Option<Self> {
        match number {
@P            _ => None,
        }
    }

    fn to_number(self) -> u32 {
        self as u32
    }
}
";

// An enum that is written.
#[derive(Drop)]
struct EnumText<'t> {
    doc: &'t str,
    name: &'t str,
    variants: Vec<Variant>,
}

#[derive(Drop)]
struct Variant {
    name: String,
    number: u64,
}

// A variant, for which a line is written.
#[derive(Clone, Copy)]
struct Line<'t> {
    of: &'t str,
    variant: &'t Variant,
}

impl<'t> EnumText<'t> {
    // Adds a template for each variant.
    fn push_lines(&self, out: &mut String, template: &str) -> Result<(), AllocError> {
        for variant in self.variants.iter() {
            let line = Line {
                of: self.name,
                variant,
            };
            fill(out, template, &line)?;
        }
        Ok(())
    }
}

impl<'t> Places for EnumText<'t> {
    fn push_place(&self, out: &mut String, letter: char) -> Result<(), AllocError> {
        match letter {
            'D' => out.push_str(self.doc),
            'N' => out.push_str(self.name),
            'F' => self.push_lines(out, "    @V = @I,\n"),
            'I' => self.push_lines(out, "if n == @I then Some variant.@V else "),
            'V' => self.push_lines(out, "      | variant.@V ↦ @I\n"),
            'P' => self.push_lines(out, "            @I => Some(@N::@V),\n"),
            _ => Ok(()),
        }
    }
}

impl<'t> Places for Line<'t> {
    fn push_place(&self, out: &mut String, letter: char) -> Result<(), AllocError> {
        match letter {
            'N' => out.push_str(self.of),
            'V' => out.push_str(self.variant.name.as_str()),
            'I' => write!(out, "{}", self.variant.number),
            _ => Ok(()),
        }
    }
}

/// Appends the text of a Rust enum with these items. If `is_enumerated` is true, they are the items
/// of an ENUMERATED, and what an ENUMERATED needs is appended, too.
pub fn push_enumeration<'a>(
    alloc: Global,
    out: &mut String,
    doc: &str,
    name: &str,
    items: &Vec<NamedNumber<'a>>,
    is_enumerated: bool,
) -> Result<(), Failure<'a>> {
    let text = EnumText {
        doc,
        name,
        variants: variants_of(alloc, items)?,
    };
    fill(out, ENUM, &text)?;
    if is_enumerated {
        fill(out, ENUMERATION, &text)?;
    }
    Ok(())
}

fn variants_of<'a>(
    alloc: Global,
    items: &Vec<NamedNumber<'a>>,
) -> Result<Vec<Variant>, Failure<'a>> {
    let mut variants = Vec::new(alloc);
    let names = variant_names(alloc, items)?;
    for (item, name) in items.iter().zip(names.iter()) {
        variants.push(Variant {
            name: String::from_str(alloc, name.as_str())?,
            number: number_of_item(item)?,
        })?;
    }
    Ok(variants)
}

/// The Rust names of the variants for these items, in the order of the items.
pub fn variant_names(
    alloc: Global,
    items: &Vec<NamedNumber<'_>>,
) -> Result<Vec<String>, AllocError> {
    let mut names = Vec::new(alloc);
    let mut taken = Taken::new(alloc);
    for item in items.iter() {
        let name = variant_name(alloc, item.name)?;
        names.push(taken.take_free(alloc, name.as_str(), ALONE, "")?)?;
    }
    Ok(names)
}

/// The number of an item. Fails if it is not from 0 to 4294967295.
pub fn number_of_item<'a>(item: &NamedNumber<'a>) -> Result<u64, Failure<'a>> {
    match item.number {
        Some(Endpoint::Number(number)) if number < 4294967296 => Ok(number),
        _ => {
            let refusal = Refusal::of(item.name, "a number from 0 to 4294967295");
            Err(Failure::Unsupported(refusal))
        }
    }
}
