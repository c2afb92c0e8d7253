//! Extensions on keys, policies and names (RFC 5280, 4.2.1).
ghost use Rattle.std.specs.Prelude.{◌≡◌, ◌∷◌, []};
ghost use Rattle.der_asn1.specs.Arcs.{oid_octets};

use crate::asn1::{self, values};
use crate::find::KnownExtension;
use der_asn1::ObjectIdentifierRef;

/// authorityKeyIdentifier (RFC 5280, 4.2.1.1, 5.2.1): which key signed the certificate or the list.
pub struct AuthorityKeyIdentifier;

impl<'a> KnownExtension<'a> for AuthorityKeyIdentifier {
    type Value = asn1::AuthorityKeyIdentifier<'a>;

    ghost id_octets = { oid_octets (2 ∷ 5 ∷ 29 ∷ 35 ∷ []) };

    fn identifier() -> ObjectIdentifierRef<'static>
        ensures { result.octets.now ≡ oid_octets (2 ∷ 5 ∷ 29 ∷ 35 ∷ []) }
    {
        values::id_ce_authority_key_identifier()
    }
}

/// subjectKeyIdentifier (RFC 5280, 4.2.1.2): which key the certificate is for.
pub struct SubjectKeyIdentifier;

impl<'a> KnownExtension<'a> for SubjectKeyIdentifier {
    type Value = asn1::SubjectKeyIdentifier<'a>;

    ghost id_octets = { oid_octets (2 ∷ 5 ∷ 29 ∷ 14 ∷ []) };

    fn identifier() -> ObjectIdentifierRef<'static>
        ensures { result.octets.now ≡ oid_octets (2 ∷ 5 ∷ 29 ∷ 14 ∷ []) }
    {
        values::id_ce_subject_key_identifier()
    }
}

/// keyUsage (RFC 5280, 4.2.1.3): what the key may be used for.
pub struct KeyUsage;

impl<'a> KnownExtension<'a> for KeyUsage {
    type Value = asn1::KeyUsage<'a>;

    ghost id_octets = { oid_octets (2 ∷ 5 ∷ 29 ∷ 15 ∷ []) };

    fn identifier() -> ObjectIdentifierRef<'static>
        ensures { result.octets.now ≡ oid_octets (2 ∷ 5 ∷ 29 ∷ 15 ∷ []) }
    {
        values::id_ce_key_usage()
    }
}

/// certificatePolicies (RFC 5280, 4.2.1.4): under which policies the certificate was issued.
pub struct CertificatePolicies;

impl<'a> KnownExtension<'a> for CertificatePolicies {
    type Value = asn1::CertificatePolicies<'a>;

    ghost id_octets = { oid_octets (2 ∷ 5 ∷ 29 ∷ 32 ∷ []) };

    fn identifier() -> ObjectIdentifierRef<'static>
        ensures { result.octets.now ≡ oid_octets (2 ∷ 5 ∷ 29 ∷ 32 ∷ []) }
    {
        values::id_ce_certificate_policies()
    }
}

/// policyMappings (RFC 5280, 4.2.1.5): which policies of two authorities are equivalent.
pub struct PolicyMappings;

impl<'a> KnownExtension<'a> for PolicyMappings {
    type Value = asn1::PolicyMappings<'a>;

    ghost id_octets = { oid_octets (2 ∷ 5 ∷ 29 ∷ 33 ∷ []) };

    fn identifier() -> ObjectIdentifierRef<'static>
        ensures { result.octets.now ≡ oid_octets (2 ∷ 5 ∷ 29 ∷ 33 ∷ []) }
    {
        values::id_ce_policy_mappings()
    }
}

/// subjectAltName (RFC 5280, 4.2.1.6): further names of the subject.
pub struct SubjectAltName;

impl<'a> KnownExtension<'a> for SubjectAltName {
    type Value = asn1::GeneralNames<'a>;

    ghost id_octets = { oid_octets (2 ∷ 5 ∷ 29 ∷ 17 ∷ []) };

    fn identifier() -> ObjectIdentifierRef<'static>
        ensures { result.octets.now ≡ oid_octets (2 ∷ 5 ∷ 29 ∷ 17 ∷ []) }
    {
        values::id_ce_subject_alt_name()
    }
}

/// issuerAltName (RFC 5280, 4.2.1.7, 5.2.2): further names of the issuer.
pub struct IssuerAltName;

impl<'a> KnownExtension<'a> for IssuerAltName {
    type Value = asn1::GeneralNames<'a>;

    ghost id_octets = { oid_octets (2 ∷ 5 ∷ 29 ∷ 18 ∷ []) };

    fn identifier() -> ObjectIdentifierRef<'static>
        ensures { result.octets.now ≡ oid_octets (2 ∷ 5 ∷ 29 ∷ 18 ∷ []) }
    {
        values::id_ce_issuer_alt_name()
    }
}

/// subjectDirectoryAttributes (RFC 5280, 4.2.1.8): attributes of the subject.
pub struct SubjectDirectoryAttributes;

impl<'a> KnownExtension<'a> for SubjectDirectoryAttributes {
    type Value = asn1::SubjectDirectoryAttributes<'a>;

    ghost id_octets = { oid_octets (2 ∷ 5 ∷ 29 ∷ 9 ∷ []) };

    fn identifier() -> ObjectIdentifierRef<'static>
        ensures { result.octets.now ≡ oid_octets (2 ∷ 5 ∷ 29 ∷ 9 ∷ []) }
    {
        values::id_ce_subject_directory_attributes()
    }
}
