//! Comparison of general names.
ghost use Rattle.std.specs.Prelude.{◌↔◌, IsTrue};
ghost use Rattle.x509_names.specs.GeneralNames.{GeneralNamesMatch, IsPartlyWithinBase, IsWithinBase, OtherNamesMatch};

use crate::matching::attribute::elements_match;
use crate::matching::name::{is_name_within, names_match};
use crate::matching::utf8_mailbox::is_utf8_mail_within;
use crate::{
    are_all_below_host, is_address_within, is_mail_within, is_same_host, is_some_below_host,
    is_uri_within, mailboxes_match,
};
use std::alloc::Global;
use x509::{GeneralName, OtherName};

/// Whether two general names have the same form and match (RFC 5280, 7.2 to 7.5). The function does
/// not use `alloc`.
///
/// - dNSNames are compared ignoring the case of ASCII letters.
/// - rfc822Names are compared in two parts: the local parts octet by octet, and the hosts ignoring
///   the case of ASCII letters.
/// - directoryNames are compared by [`names_match`](crate::matching::names_match).
/// - Names of other forms, also URIs, are compared octet by octet. Two ediPartyNames never match.
pub fn general_names_match(alloc: Global, first: &GeneralName<'_>, second: &GeneralName<'_>) -> bool
    ensures { IsTrue result ↔ GeneralNamesMatch first.now second.now }
{
    match (first, second) {
        (GeneralName::OtherName(v), GeneralName::OtherName(w)) => other_names_match(&v.0, &w.0),
        (GeneralName::Rfc822Name(v), GeneralName::Rfc822Name(w)) => {
            mailboxes_match(v.0.octets(), w.0.octets())
        }
        (GeneralName::DnsName(v), GeneralName::DnsName(w)) => {
            is_same_host(v.0.octets(), w.0.octets())
        }
        (GeneralName::X400Address(v), GeneralName::X400Address(w)) => {
            v.0.octets() == w.0.octets()
        }
        (GeneralName::DirectoryName(v), GeneralName::DirectoryName(w)) => {
            names_match(alloc, &v.0, &w.0)
        }
        (GeneralName::UniformResourceIdentifier(v), GeneralName::UniformResourceIdentifier(w)) => v
            .0
            .octets()
            == w.0.octets(),
        (GeneralName::IpAddress(v), GeneralName::IpAddress(w)) => v.0.octets() == w.0.octets(),
        (GeneralName::RegisteredId(v), GeneralName::RegisteredId(w)) => {
            v.0.octets() == w.0.octets()
        }
        _ => false,
    }
}

fn other_names_match(first: &OtherName<'_>, second: &OtherName<'_>) -> bool
    ensures { IsTrue result ↔ OtherNamesMatch first.now second.now }
{
    first.type_id.octets() == second.type_id.octets()
        && elements_match(&first.value.0, &second.value.0)
}

/// Whether `name` is within the subtree with the base `base` (RFC 5280, 4.2.1.10). A dNSName with an
/// asterisk as its first label is within it if all names for which it stands are (RFC 9525, 6.3). A
/// SmtpUTF8Mailbox, which is an otherName, is compared with the base of an rfc822Name (RFC 9598, 6).
///
/// False if `base` and `name` have different forms otherwise. Also false for other otherNames,
/// x400Addresses, ediPartyNames and registeredIDs, for which the RFCs have no constraints. The
/// function does not use `alloc`.
pub fn is_within_base(alloc: Global, base: &GeneralName<'_>, name: &GeneralName<'_>) -> bool
    ensures { IsTrue result ↔ IsWithinBase base.now name.now }
{
    match (base, name) {
        (GeneralName::Rfc822Name(base), GeneralName::Rfc822Name(name)) => {
            is_mail_within(base.0.octets(), name.0.octets())
        }
        (GeneralName::Rfc822Name(base), GeneralName::OtherName(name)) => {
            is_utf8_mail_within(base.0.octets(), &name.0)
        }
        (GeneralName::DnsName(base), GeneralName::DnsName(name)) => {
            are_all_below_host(base.0.octets(), name.0.octets())
        }
        (GeneralName::DirectoryName(base), GeneralName::DirectoryName(name)) => {
            is_name_within(alloc, &base.0, &name.0)
        }
        (
            GeneralName::UniformResourceIdentifier(base),
            GeneralName::UniformResourceIdentifier(name),
        ) => is_uri_within(base.0.octets(), name.0.octets()),
        (GeneralName::IpAddress(base), GeneralName::IpAddress(name)) => {
            is_address_within(base.0.octets(), name.0.octets())
        }
        _ => false,
    }
}

/// Whether `name` is within the subtree with the base `base`, or, if it is a dNSName with an
/// asterisk as its first label, whether one of the names for which it stands is (RFC 9525, 6.3).
/// See [`is_within_base`]. The function does not use `alloc`.
pub fn is_partly_within_base(alloc: Global, base: &GeneralName<'_>, name: &GeneralName<'_>) -> bool
    ensures { IsTrue result ↔ IsPartlyWithinBase base.now name.now }
{
    match (base, name) {
        (GeneralName::DnsName(base), GeneralName::DnsName(name)) => {
            is_some_below_host(base.0.octets(), name.0.octets())
        }
        _ => is_within_base(alloc, base, name),
    }
}
