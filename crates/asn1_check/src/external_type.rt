//! Types that other crates contain.

use crate::rust_type::RustType;
use crate::tag_set::TagSet;
use asn1_syntax::{NamedNumber, Range, TypeForm};
use std::alloc::{AllocError, Global};

/// A type that is compiled in another crate.
#[derive(Drop)]
pub struct ExternalType<'a> {
    /// The name of the crate in which the type is compiled.
    pub krate: String,
    /// The ASN.1 name of the type.
    pub name: &'a str,
    /// The name of the Rust type.
    pub rust_name: String,
    /// The Rust type for this ASN.1 type.
    pub of: RustType,
    /// The tags that values of the type may begin with.
    pub tags: TagSet,
    /// Whether the type has no tag of its own. Only a CHOICE and ANY have none.
    pub has_no_tag: bool,
    /// Whether a SEQUENCE OF or SET OF of this crate can have items of the type. The other crate
    /// then has the trait implementations that items need.
    pub is_item: bool,
    /// The range of numbers that the type allows. It has a meaning only for an INTEGER.
    pub range: Range<'a>,
    /// The form of the type, without its components, alternatives and items. If the type is a
    /// reference or has tags, it is the form of the type behind them.
    pub form: TypeForm<'a>,
}

impl<'a> ExternalType<'a> {
    /// A copy of this type.
    pub fn copy(&self, alloc: Global) -> Result<Self, AllocError> {
        let mut tags = TagSet::empty(alloc);
        tags.add(&self.tags)?;
        Ok(ExternalType {
            krate: String::from_str(alloc, self.krate.as_str())?,
            name: self.name,
            rust_name: String::from_str(alloc, self.rust_name.as_str())?,
            of: self.of.copy(alloc)?,
            tags,
            has_no_tag: self.has_no_tag,
            is_item: self.is_item,
            range: self.range,
            form: bare_form(alloc, &self.form)?,
        })
    }
}

/// A copy of the form of a type. The copy has no components, alternatives and items.
pub fn bare_form<'a>(alloc: Global, form: &TypeForm<'a>) -> Result<TypeForm<'a>, AllocError> {
    match form {
        TypeForm::Simple(simple) => Ok(TypeForm::Simple(*simple)),
        TypeForm::Integer(numbers) => Ok(TypeForm::Integer(copies(alloc, numbers)?)),
        TypeForm::Enumerated(numbers) => Ok(TypeForm::Enumerated(copies(alloc, numbers)?)),
        TypeForm::BitString(numbers) => Ok(TypeForm::BitString(copies(alloc, numbers)?)),
        TypeForm::Choice(_) => Ok(TypeForm::Choice(Vec::new(alloc))),
        TypeForm::SequenceOf(_) => Ok(TypeForm::SequenceOf(usize::MAX)),
        TypeForm::SetOf(_) => Ok(TypeForm::SetOf(usize::MAX)),
        TypeForm::Tagged(prefix, _) => Ok(TypeForm::Tagged(*prefix, usize::MAX)),
        TypeForm::Reference => Ok(TypeForm::Reference),
        TypeForm::Sequence(_) => Ok(TypeForm::Sequence(Vec::new(alloc))),
        TypeForm::Set(_) => Ok(TypeForm::Set(Vec::new(alloc))),
    }
}

fn copies<'a>(
    alloc: Global,
    numbers: &Vec<NamedNumber<'a>>,
) -> Result<Vec<NamedNumber<'a>>, AllocError> {
    let mut copy = Vec::new(alloc);
    for number in numbers.iter() {
        copy.push(*number)?;
    }
    Ok(copy)
}
