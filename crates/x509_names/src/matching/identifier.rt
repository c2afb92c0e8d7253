//! Hosts and addresses compared with the names of a certificate.
ghost use Rattle.std.specs.Prelude.{◌↔◌, IsTrue};
ghost use Rattle.x509_names.specs.Identifiers.{IsAddressOf, IsDnsHost, IsHostOf, PresentsAddress, PresentsHost};

use crate::forms::{host_matches, is_address, is_domain_name, is_plain_host};
use std::alloc::Global;
use x509::{GeneralName, GeneralNames};

/// Whether one of the names, those of a subjectAltName, is a dNSName that matches the host (RFC 9525,
/// 6.3). The case of letters of ASCII does not matter. An asterisk that is the whole first label of a
/// dNSName stands for exactly one label; any other asterisk stands for itself.
///
/// `host` is the name of a host in ASCII (A-labels), without a dot at its end. Any other octets are the
/// host of no certificate; among these is an address: see [`is_address_of`]. The commonName of a
/// subject is not compared. The function does not use `alloc`.
pub fn is_host_of(alloc: Global, names: &GeneralNames<'_>, host: &[u8]) -> bool
    ensures { IsHostOf names.now.octets.now host.now result }
{
    let mut found = false;
    'names: for name in names.iter(alloc) {
        found = found | presents_host(&name, host);
    }
    is_dns_host(host) && found
}

/// Whether one of the names, those of a subjectAltName, is an iPAddress with these octets (RFC 9525,
/// 6.4): 4 for an address of version 4, and 16 for one of version 6. Any other octets are the address
/// of no certificate. The function does not use `alloc`.
pub fn is_address_of(alloc: Global, names: &GeneralNames<'_>, address: &[u8]) -> bool
    ensures { IsAddressOf names.now.octets.now address.now result }
{
    let mut found = false;
    'names: for name in names.iter(alloc) {
        found = found | presents_address(&name, address);
    }
    is_address(address) && found
}

// Whether the octets are the name of a host, without an asterisk, and no address.
fn is_dns_host(octets: &[u8]) -> bool
    ensures { IsTrue result ↔ IsDnsHost octets.now }
{
    is_plain_host(octets) && is_domain_name(octets)
}

fn presents_host(name: &GeneralName<'_>, host: &[u8]) -> bool
    ensures { IsTrue result ↔ PresentsHost host.now name.now }
{
    match name {
        GeneralName::DnsName(presented) => host_matches(presented.0.octets(), host),
        _ => false,
    }
}

fn presents_address(name: &GeneralName<'_>, address: &[u8]) -> bool
    ensures { IsTrue result ↔ PresentsAddress address.now name.now }
{
    match name {
        GeneralName::IpAddress(presented) => presented.0.octets() == address,
        _ => false,
    }
}
