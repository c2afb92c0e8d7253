//! The value of a GeneralName, if the name has a given form.
ghost use Rattle.std.specs.Prelude.{◌≡◌, MatchOption};
ghost use Rattle.x509.specs.NameForms.{directory_name, dns_octets, ip_octets, mail_octets};
ghost use Rattle.x509.specs.NameForms.{uri_octets};

use crate::asn1::{GeneralName, Name};
use der_asn1::{Ia5StringRef, OctetStringRef};

impl<'a> GeneralName<'a> {
    /// The mail address, if the name is an rfc822Name; otherwise `None`.
    pub fn mail_name(&self) -> Option<Ia5StringRef<'a>>
        ensures { MatchOption result (mail_octets self.now ≡ None)
            (λ v. mail_octets self.now ≡ Some v.octets.now) }
    {
        match self {
            GeneralName::Rfc822Name(name) => Some(name.0),
            _ => None,
        }
    }

    /// The name of a host, if the name is a dNSName; otherwise `None`.
    pub fn dns_name(&self) -> Option<Ia5StringRef<'a>>
        ensures { MatchOption result (dns_octets self.now ≡ None)
            (λ v. dns_octets self.now ≡ Some v.octets.now) }
    {
        match self {
            GeneralName::DnsName(name) => Some(name.0),
            _ => None,
        }
    }

    /// The distinguished name, if the name is a directoryName; otherwise `None`.
    pub fn directory_name(self) -> Option<Name<'a>>
        ensures { result ≡ directory_name self.entry }
    {
        match self {
            GeneralName::DirectoryName(name) => Some(name.0),
            _ => None,
        }
    }

    /// The URI, if the name is a uniformResourceIdentifier; otherwise `None`.
    pub fn uri(&self) -> Option<Ia5StringRef<'a>>
        ensures { MatchOption result (uri_octets self.now ≡ None)
            (λ v. uri_octets self.now ≡ Some v.octets.now) }
    {
        match self {
            GeneralName::UniformResourceIdentifier(name) => Some(name.0),
            _ => None,
        }
    }

    /// The octets of the address, if the name is an iPAddress; otherwise `None`.
    pub fn ip_address(&self) -> Option<OctetStringRef<'a>>
        ensures { MatchOption result (ip_octets self.now ≡ None)
            (λ v. ip_octets self.now ≡ Some v.octets.now) }
    {
        match self {
            GeneralName::IpAddress(name) => Some(name.0),
            _ => None,
        }
    }
}
