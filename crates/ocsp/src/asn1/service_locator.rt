//! Written by asn1_compile from the module OCSP: change the module instead.
//!
//! ServiceLocator.
ghost use Rattle.std.specs.Prelude.{◌≡◌};
ghost use Rattle.std.proofs.Common.{refl};
ghost use Rattle.der.specs.Prelude.{map_ok};
ghost use Rattle.der_asn1.specs.Meaning.{alternative, field, is_lawful_item, optional, sequence, sequence_item, two_fields};

use der::{
    Decode, DecodeValue, Encode, Error, FieldsCall, FromFields, HasFields, Header, IsValue, Lends,
    Reader, Sequence, SliceReader, decode_sequence, field_refs,
};
use der_asn1::{Described, Item, LawfulItem, Optional};
use std::alloc::Global;
use x509::{AuthorityInfoAccessSyntax, Name};

/// To which other responder a responder may pass on a request (RFC 6960, 4.4.6), borrowed from the
/// input.
#[derive(Clone, Copy, Debug, Drop, PartialEq, Eq)]
pub struct ServiceLocator<'a> {
    /// The issuer of the certificate.
    pub issuer: Name<'a>,
    /// Where the responder of this issuer is found, if present.
    pub locator: Optional<AuthorityInfoAccessSyntax<'a>>,
}

/// The fields of [`ServiceLocator`] as one type, in the order in which they are encoded.
pub type ServiceLocatorFields<'a> = (Name<'a>, Optional<AuthorityInfoAccessSyntax<'a>>);

impl<'a> FromFields<ServiceLocatorFields<'a>> for ServiceLocator<'a> {
    ghost fields = { λ v. (v.issuer, v.locator) };

    fn from_fields(fields: ServiceLocatorFields<'a>) -> Self {
        let (issuer, locator) = fields;
        ServiceLocator { issuer, locator }
    }
}

impl<'a> Sequence for ServiceLocator<'a> {
    ghost meaning = { sequence (two_fields (field (alternative ⟦<Name<'a> as Described>⟧.element))
        (optional (alternative ⟦<AuthorityInfoAccessSyntax<'a> as Described>⟧.element)))
        ⟦<ServiceLocator<'a> as FromFields<ServiceLocatorFields<'a>>>⟧.fields };

    ghost fits = { (refl, refl) };
}

/// Decodes the fields, first to last. The errors are those that [`Sequence`] lists.
impl<'a, R: Lends<Borrowed = &'a [u8]>> DecodeValue<R> for ServiceLocator<'a> {
    type Error = Error;

    ghost decode_value_answers = { λ h s result t.
        ⟦<ServiceLocatorFields<'a> as Decode<SliceReader<'a>>>⟧.decode_answers s (map_ok
        ⟦<ServiceLocator<'a> as FromFields<ServiceLocatorFields<'a>>>⟧.fields result) t };

    fn decode_value(alloc: Global, reader: &mut R, header: Header) -> Result<Self, Error>
    where
        R: Reader,
    {
        decode_sequence::<R, ServiceLocatorFields<'a>, Self>(alloc, reader, header)
    }
}

impl<'a> IsValue for ServiceLocator<'a> {
    fn is_value(&self) {
        self.issuer.is_value();
        if let Some(value) = &self.locator.0 {
            value.is_value();
        }
    }
}

/// Writes the fields, first to last. The errors are those that [`Sequence`] lists.
impl<'a> HasFields for ServiceLocator<'a> {
    ghost fields_size = { λ v. ⟦<ServiceLocatorFields<'a> as Encode>⟧.size
        (⟦<ServiceLocator<'a> as FromFields<ServiceLocatorFields<'a>>>⟧.fields v) };

    ghost fields_answers = { λ v. ⟦<ServiceLocatorFields<'a> as Encode>⟧.encode_answers
        (⟦<ServiceLocator<'a> as FromFields<ServiceLocatorFields<'a>>>⟧.fields v) };

    fn call_fields<S, C: FieldsCall<S>>(
        &self,
        call: &C,
        state: &mut S,
        buf: &mut [u8],
    ) -> C::Output {
        call.call(&field_refs!(self, (issuer, locator)), state, buf)
    }
}

impl<'a> Item for ServiceLocator<'a> {
    ghost item = { sequence_item ⟦<ServiceLocator<'a> as Described>⟧.element };
}

impl<'a> LawfulItem for ServiceLocator<'a> {
    ghost is_lawful_item = { is_lawful_item ⟦<ServiceLocator<'a> as Described>⟧.element refl };
}
