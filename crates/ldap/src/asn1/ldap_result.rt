//! Written by asn1_compile from the module Lightweight-Directory-Access-Protocol-V3: change the module instead.
//!
//! LdapResult.
ghost use Rattle.std.specs.Prelude.{◌≡◌};
ghost use Rattle.std.proofs.Common.{refl};
ghost use Rattle.der.specs.Prelude.{map_ok};
ghost use Rattle.der_asn1.specs.Meaning.{alternative, field, is_lawful_item, optional, sequence, sequence_item};
ghost use Rattle.der_asn1.specs.TupleFields.{four_fields};

use crate::asn1::ldap_string::LdapString;
use crate::asn1::ldapdn::Ldapdn;
use crate::asn1::referral::Referral;
use der::{
    Decode, DecodeValue, Encode, Error, FieldsCall, FromFields, HasFields, Header, IsValue, Lends,
    Reader, Sequence, SliceReader, decode_sequence, field_refs,
};
use der_asn1::{Described, EnumeratedOf, Implicit, Item, LawfulItem, Optional};
use std::alloc::Global;

/// The result of an operation (RFC 4511, 4.1.9).
#[derive(Clone, Copy, Debug, Drop, PartialEq, Eq)]
pub struct LdapResult<'a> {
    /// Whether the operation succeeded, or why it failed.
    pub result_code: EnumeratedOf<i64>,
    /// The last entry that was found when the requested name was looked up.
    pub matched_dn: Ldapdn<'a>,
    /// A message for people. It may be empty.
    pub diagnostic_message: LdapString<'a>,
    /// Other servers at which the operation may be tried again, if present.
    pub referral: Optional<Implicit<Referral<'a>, 3>>,
}

/// The fields of [`LdapResult`] as one type, in the order in which they are encoded.
pub type LdapResultFields<'a> = (
    EnumeratedOf<i64>,
    Ldapdn<'a>,
    LdapString<'a>,
    Optional<Implicit<Referral<'a>, 3>>,
);

impl<'a> FromFields<LdapResultFields<'a>> for LdapResult<'a> {
    ghost fields = { λ v. (v.result_code, v.matched_dn, v.diagnostic_message, v.referral) };

    fn from_fields(fields: LdapResultFields<'a>) -> Self {
        let (result_code, matched_dn, diagnostic_message, referral) = fields;
        LdapResult {
            result_code,
            matched_dn,
            diagnostic_message,
            referral,
        }
    }
}

impl<'a> Sequence for LdapResult<'a> {
    ghost meaning = { sequence (four_fields (field (alternative
        ⟦<EnumeratedOf<i64> as Described>⟧.element)) (field (alternative
        ⟦<Ldapdn<'a> as Described>⟧.element)) (field (alternative
        ⟦<LdapString<'a> as Described>⟧.element)) (optional (alternative
        ⟦<Implicit<Referral<'a>, 3> as Described>⟧.element)))
        ⟦<LdapResult<'a> as FromFields<LdapResultFields<'a>>>⟧.fields };

    ghost fits = { (refl, refl) };
}

/// Decodes the fields, first to last. The errors are those that [`Sequence`] lists.
impl<'a, R: Lends<Borrowed = &'a [u8]>> DecodeValue<R> for LdapResult<'a> {
    type Error = Error;

    ghost decode_value_answers = { λ h s result t.
        ⟦<LdapResultFields<'a> as Decode<SliceReader<'a>>>⟧.decode_answers s (map_ok
        ⟦<LdapResult<'a> as FromFields<LdapResultFields<'a>>>⟧.fields result) t };

    fn decode_value(alloc: Global, reader: &mut R, header: Header) -> Result<Self, Error>
    where
        R: Reader,
    {
        decode_sequence::<R, LdapResultFields<'a>, Self>(alloc, reader, header)
    }
}

impl<'a> IsValue for LdapResult<'a> {
    fn is_value(&self) {
        self.result_code.is_value();
        self.matched_dn.is_value();
        self.diagnostic_message.is_value();
        if let Some(value) = &self.referral.0 {
            value.is_value();
        }
    }
}

/// Writes the fields, first to last. The errors are those that [`Sequence`] lists.
impl<'a> HasFields for LdapResult<'a> {
    ghost fields_size = { λ v. ⟦<LdapResultFields<'a> as Encode>⟧.size
        (⟦<LdapResult<'a> as FromFields<LdapResultFields<'a>>>⟧.fields v) };

    ghost fields_answers = { λ v. ⟦<LdapResultFields<'a> as Encode>⟧.encode_answers
        (⟦<LdapResult<'a> as FromFields<LdapResultFields<'a>>>⟧.fields v) };

    fn call_fields<S, C: FieldsCall<S>>(
        &self,
        call: &C,
        state: &mut S,
        buf: &mut [u8],
    ) -> C::Output {
        call.call(
            &field_refs!(
                self,
                (result_code, matched_dn, diagnostic_message, referral)
            ),
            state,
            buf,
        )
    }
}

impl<'a> Item for LdapResult<'a> {
    ghost item = { sequence_item ⟦<LdapResult<'a> as Described>⟧.element };
}

impl<'a> LawfulItem for LdapResult<'a> {
    ghost is_lawful_item = { is_lawful_item ⟦<LdapResult<'a> as Described>⟧.element refl };
}
