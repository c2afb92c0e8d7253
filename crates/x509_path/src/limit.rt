//! The pathLenConstraint (RFC 5280, 4.2.1.9).
ghost use Rattle.std.specs.Prelude.{◌≡◌, ◌↔◌, ℕ, true, IsTrue};
ghost use Rattle.std.specs.Option.{option_map};
ghost use Rattle.der_asn1.specs.Integer.{is_negative};
ghost use Rattle.path_rules.specs.Path.{HasRoom};
ghost use Rattle.x509.specs.ExtensionIdentifiers.{id_ce};
ghost use Rattle.x509_path.specs.PathLimits.{AllAllow, Allows, AllowsBy, AllowsPath, lesser, limit_number, limit_of};

use crate::extensions::is;
use der_asn1::{IntRef, lawful_from_der};
use std::alloc::Global;
use x509::values::id_ce_basic_constraints;
use x509::{BasicConstraints, Extension, Extensions, TbsCertificate};

// The least pathLenConstraint of the certificate, if there is one.
pub(crate) fn path_limit(alloc: Global, signed: &TbsCertificate<'_>) -> Option<u64>
    ensures { (n : ℕ) → HasRoom result n ↔ AllowsPath n signed.now }
{
    match &signed.extensions.0 {
        Some(extensions) => least_limit(alloc, &extensions.0),
        None => None,
    }
}

fn least_limit(alloc: Global, extensions: &Extensions<'_>) -> Option<u64>
    ensures { (n : ℕ) → HasRoom result n ↔ AllAllow n extensions.now }
{
    let mut limit = None;
    'extensions: for extension in extensions.items.iter(alloc) {
        limit = lesser(limit, extension_limit(alloc, &extension));
    }
    limit
}

// The lesser of two limits. `None` is no limit.
fn lesser(first: Option<u64>, second: Option<u64>) -> Option<u64>
    ensures { result ≡ lesser first second }
{
    match second {
        Some(second) => match first {
            Some(first) => Some(first.min(second)),
            None => Some(second),
        },
        None => first,
    }
}

fn extension_limit(alloc: Global, extension: &Extension<'_>) -> Option<u64>
    ensures { (n : ℕ) → HasRoom result n ↔ Allows n extension.now }
{
    if is_basic_constraints(extension) {
        return value_limit(alloc, extension.extn_value.octets());
    }
    None
}

fn is_basic_constraints(extension: &Extension<'_>) -> bool
    ensures { IsTrue result ↔ (extension.now.extn_id.octets.now ≡ id_ce 19) }
{
    is(extension.extn_id.octets(), &id_ce_basic_constraints())
}

// A value that is no basicConstraints has no limit; it is refused where extensions are.
fn value_limit<'c>(alloc: Global, value: &'c [u8]) -> Option<u64>
    ensures { (n : ℕ) → HasRoom result n ↔ AllowsBy value.now n }
{
    match lawful_from_der::<BasicConstraints<'c>>(alloc, value) {
        Ok(basic) => constraints_limit(&basic),
        Err(_) => None,
    }
}

fn constraints_limit(basic: &BasicConstraints<'_>) -> Option<u64>
    ensures { result ≡ option_map limit_number (limit_of basic.now) }
{
    match &basic.path_len_constraint.0 {
        Some(limit) => Some(number_of(limit)),
        None => None,
    }
}

// The number, 0 if it is negative, and the greatest number that fits if it does not fit.
pub(crate) fn number_of(limit: &IntRef<'_>) -> u64
    ensures { result ≡ limit_number limit.now.octets.now }
{
    if is_negative(limit.octets()) {
        return 0;
    }
    match limit.to_number::<u64>() {
        Some(number) => number,
        None => u64::MAX,
    }
}

pub(crate) fn is_negative(octets: &[u8]) -> bool
    ensures { result ≡ is_negative octets.now }
{
    match octets {
        [first, ..] => *first >= 128,
        [] => false,
    }
}
