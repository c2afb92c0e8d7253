//! What is asked of a certificate beside its path.

use std::fmt::Write;
use std::net::IpAddr;
use x509::{GeneralNames, TbsCertificate, ext};
use x509_build::Pool;
use x509_names::{GeneralNameText, is_address_of, is_host_of};
use x509_path::{Purpose, purpose_allows};

/// What is asked of a certificate beside its path.
#[derive(Clone, Copy)]
pub struct Asked<'q> {
    /// The host that a client wants to reach: a name in ASCII, or an address.
    pub host: Option<&'q str>,
    /// The purpose of the key.
    pub purpose: Option<Purpose>,
}

// Prints whether the certificate has the host, and returns it. Without a host it is true.
pub(crate) fn put_host<W: Write>(out: &mut W, asked: &Asked<'_>, pool: &Pool<'_, '_>) -> bool {
    let Some(host) = asked.host else {
        return true;
    };
    let signed = &pool.target.certificate().tbs_certificate;
    let found = signed.find_extension::<ext::SubjectAltName>(pool.alloc);
    let Ok(Some(names)) = found else {
        let _ = write!(
            out,
            "Host {host}: refused: the certificate has no readable subjectAltName (RFC 9525, 6)\n"
        );
        return false;
    };
    if has_host(pool, &names.value, host) {
        let _ = write!(
            out,
            "Host {host}: is a name of the certificate (RFC 9525, 6)\n"
        );
        return true;
    }
    let _ = write!(
        out,
        "Host {host}: refused: no name of the certificate is this host (RFC 9525, 6):"
    );
    for name in names.value.iter(pool.alloc) {
        let _ = write!(out, " {}", GeneralNameText::new(pool.alloc, &name));
    }
    let _ = out.write_str("\n");
    false
}

// Whether a name is the host, which is an address if it is written as one.
fn has_host(pool: &Pool<'_, '_>, names: &GeneralNames<'_>, host: &str) -> bool {
    match host.parse::<IpAddr>() {
        Ok(IpAddr::V4(address)) => is_address_of(pool.alloc, names, &address.octets()),
        Ok(IpAddr::V6(address)) => is_address_of(pool.alloc, names, &address.octets()),
        Err(_) => is_host_of(pool.alloc, names, host.as_bytes()),
    }
}

// Prints whether the key may be used for the purpose, and returns it. Without a purpose it is true.
pub(crate) fn put_purpose<W: Write>(out: &mut W, asked: &Asked<'_>, pool: &Pool<'_, '_>) -> bool {
    let Some(purpose) = asked.purpose else {
        return true;
    };
    let signed: &TbsCertificate<'_> = &pool.target.certificate().tbs_certificate;
    let allows = purpose_allows(pool.alloc, signed, &purpose.identifier(), false);
    let _ = out.write_str(if allows {
        "Purpose: allowed (RFC 5280, 4.2.1.12)\n"
    } else {
        "Purpose: refused: the extKeyUsage does not have it (RFC 5280, 4.2.1.12)\n"
    });
    allows
}
