//! Extensions that limit certification paths or the use of keys, or that say where further
//! information is (RFC 5280, 4.2.1, 4.2.2; RFC 6962, 3.3).
ghost use Rattle.std.specs.Prelude.{◌≡◌, ◌∷◌, []};
ghost use Rattle.der_asn1.specs.Arcs.{oid_octets};

use crate::asn1::{self, values};
use crate::find::KnownExtension;
use der_asn1::ObjectIdentifierRef;

/// basicConstraints (RFC 5280, 4.2.1.9): whether the subject is a certification authority, and how
/// many certificates of further authorities may follow in a path.
pub struct BasicConstraints;

impl<'a> KnownExtension<'a> for BasicConstraints {
    type Value = asn1::BasicConstraints<'a>;

    ghost id_octets = { oid_octets (2 ∷ 5 ∷ 29 ∷ 19 ∷ []) };

    fn identifier() -> ObjectIdentifierRef<'static>
        ensures { result.octets.now ≡ oid_octets (2 ∷ 5 ∷ 29 ∷ 19 ∷ []) }
    {
        values::id_ce_basic_constraints()
    }
}

/// nameConstraints (RFC 5280, 4.2.1.10): which names are allowed in the later certificates of a
/// path.
pub struct NameConstraints;

impl<'a> KnownExtension<'a> for NameConstraints {
    type Value = asn1::NameConstraints<'a>;

    ghost id_octets = { oid_octets (2 ∷ 5 ∷ 29 ∷ 30 ∷ []) };

    fn identifier() -> ObjectIdentifierRef<'static>
        ensures { result.octets.now ≡ oid_octets (2 ∷ 5 ∷ 29 ∷ 30 ∷ []) }
    {
        values::id_ce_name_constraints()
    }
}

/// policyConstraints (RFC 5280, 4.2.1.11). Its value limits the later certificates of a path: after
/// how many certificates an acceptable policy is required, and after how many no policies may be
/// mapped.
pub struct PolicyConstraints;

impl<'a> KnownExtension<'a> for PolicyConstraints {
    type Value = asn1::PolicyConstraints<'a>;

    ghost id_octets = { oid_octets (2 ∷ 5 ∷ 29 ∷ 36 ∷ []) };

    fn identifier() -> ObjectIdentifierRef<'static>
        ensures { result.octets.now ≡ oid_octets (2 ∷ 5 ∷ 29 ∷ 36 ∷ []) }
    {
        values::id_ce_policy_constraints()
    }
}

/// extKeyUsage (RFC 5280, 4.2.1.12): for which purposes the key may be used.
pub struct ExtKeyUsage;

impl<'a> KnownExtension<'a> for ExtKeyUsage {
    type Value = asn1::ExtKeyUsageSyntax<'a>;

    ghost id_octets = { oid_octets (2 ∷ 5 ∷ 29 ∷ 37 ∷ []) };

    fn identifier() -> ObjectIdentifierRef<'static>
        ensures { result.octets.now ≡ oid_octets (2 ∷ 5 ∷ 29 ∷ 37 ∷ []) }
    {
        values::id_ce_ext_key_usage()
    }
}

/// cRLDistributionPoints (RFC 5280, 4.2.1.13): where revocation lists can be found.
pub struct CrlDistributionPoints;

impl<'a> KnownExtension<'a> for CrlDistributionPoints {
    type Value = asn1::CrlDistributionPoints<'a>;

    ghost id_octets = { oid_octets (2 ∷ 5 ∷ 29 ∷ 31 ∷ []) };

    fn identifier() -> ObjectIdentifierRef<'static>
        ensures { result.octets.now ≡ oid_octets (2 ∷ 5 ∷ 29 ∷ 31 ∷ []) }
    {
        values::id_ce_c_rl_distribution_points()
    }
}

/// inhibitAnyPolicy (RFC 5280, 4.2.1.14). Its value is the number of certificates of a path after
/// which the policy anyPolicy no longer counts as a match for other policies.
pub struct InhibitAnyPolicy;

impl<'a> KnownExtension<'a> for InhibitAnyPolicy {
    type Value = asn1::InhibitAnyPolicy<'a>;

    ghost id_octets = { oid_octets (2 ∷ 5 ∷ 29 ∷ 54 ∷ []) };

    fn identifier() -> ObjectIdentifierRef<'static>
        ensures { result.octets.now ≡ oid_octets (2 ∷ 5 ∷ 29 ∷ 54 ∷ []) }
    {
        values::id_ce_inhibit_any_policy()
    }
}

/// freshestCRL (RFC 5280, 4.2.1.15, 5.2.6): where delta revocation lists can be found. A delta list
/// contains only changes.
pub struct FreshestCrl;

impl<'a> KnownExtension<'a> for FreshestCrl {
    type Value = asn1::FreshestCrl<'a>;

    ghost id_octets = { oid_octets (2 ∷ 5 ∷ 29 ∷ 46 ∷ []) };

    fn identifier() -> ObjectIdentifierRef<'static>
        ensures { result.octets.now ≡ oid_octets (2 ∷ 5 ∷ 29 ∷ 46 ∷ []) }
    {
        values::id_ce_freshest_crl()
    }
}

/// authorityInfoAccess (RFC 5280, 4.2.2.1, 5.2.7): where information about the issuer can be found.
pub struct AuthorityInfoAccess;

impl<'a> KnownExtension<'a> for AuthorityInfoAccess {
    type Value = asn1::AuthorityInfoAccessSyntax<'a>;

    ghost id_octets = { oid_octets (1 ∷ 3 ∷ 6 ∷ 1 ∷ 5 ∷ 5 ∷ 7 ∷ 1 ∷ 1 ∷ []) };

    fn identifier() -> ObjectIdentifierRef<'static>
        ensures { result.octets.now ≡ oid_octets (1 ∷ 3 ∷ 6 ∷ 1 ∷ 5 ∷ 5 ∷ 7 ∷ 1 ∷ 1 ∷ []) }
    {
        values::id_pe_authority_info_access()
    }
}

/// subjectInfoAccess (RFC 5280, 4.2.2.2): where information about the subject can be found.
pub struct SubjectInfoAccess;

impl<'a> KnownExtension<'a> for SubjectInfoAccess {
    type Value = asn1::SubjectInfoAccessSyntax<'a>;

    ghost id_octets = { oid_octets (1 ∷ 3 ∷ 6 ∷ 1 ∷ 5 ∷ 5 ∷ 7 ∷ 1 ∷ 11 ∷ []) };

    fn identifier() -> ObjectIdentifierRef<'static>
        ensures { result.octets.now ≡ oid_octets (1 ∷ 3 ∷ 6 ∷ 1 ∷ 5 ∷ 5 ∷ 7 ∷ 1 ∷ 11 ∷ []) }
    {
        values::id_pe_subject_info_access()
    }
}

/// SignedCertificateTimestampList (RFC 6962, 3.3): the timestamps by which logs promise to include
/// the certificate, in the encoding of TLS.
pub struct SignedCertificateTimestamps;

impl<'a> KnownExtension<'a> for SignedCertificateTimestamps {
    type Value = asn1::SignedCertificateTimestampList<'a>;

    ghost id_octets = { oid_octets (1 ∷ 3 ∷ 6 ∷ 1 ∷ 4 ∷ 1 ∷ 11129 ∷ 2 ∷ 4 ∷ 2 ∷ []) };

    fn identifier() -> ObjectIdentifierRef<'static>
        ensures { result.octets.now ≡ oid_octets (1 ∷ 3 ∷ 6 ∷ 1 ∷ 4 ∷ 1 ∷ 11129 ∷ 2 ∷ 4 ∷ 2 ∷ []) }
    {
        values::id_sct_list()
    }
}
