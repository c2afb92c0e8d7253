//! Which candidates issue a certificate, by the names.
ghost use Rattle.std.specs.Prelude.{◌≡◌, ◌↔◌, Any, IsSomeAnd, IsTrue, slice_get};
ghost use Rattle.std.specs.Option.{option_map};
ghost use Rattle.x509_build.specs.Pools.{Has, HasIssuer, IsAt, IsSame, IsUsed, Issues, certificate_at, inputs_at, subject_at};
ghost use Rattle.x509_path.specs.CertificateFacts.{part};

use crate::pool::Pool;
use x509::{Name, TbsCertificate};
use x509_names::names_match;
use x509_path::{Inputs, PathCertificate};

// The certificate with a number; the one to be validated, if none has it.
pub(crate) fn certificate_at<'p, 'r, 'a>(
    pool: &'p Pool<'r, 'a>,
    candidate: usize,
) -> &'r PathCertificate<'a>
    ensures { result.now ≡ certificate_at pool.now candidate }
{
    if candidate < pool.certificates.len() {
        return &pool.certificates[candidate];
    }
    pool.target
}

// The certificate of a candidate, or the one to be validated.
pub(crate) fn subject_at<'p, 'r, 'a>(
    pool: &'p Pool<'r, 'a>,
    last: Option<usize>,
) -> &'r PathCertificate<'a>
    ensures { result.now ≡ subject_at pool.now last }
{
    match last {
        Some(candidate) => certificate_at(pool, candidate),
        None => pool.target,
    }
}

// The certificate with a number, if one has it.
fn certificate_of<'p, 'r, 'a>(
    pool: &'p Pool<'r, 'a>,
    candidate: usize,
) -> Option<&'r PathCertificate<'a>>
    ensures { option_map (λ d. d.now) result ≡ slice_get pool.now.certificates.now candidate }
{
    if candidate < pool.certificates.len() {
        return Some(&pool.certificates[candidate]);
    }
    None
}

// The trust anchor with a number.
pub(crate) fn inputs_at<'p, 'r, 'a>(
    pool: &'p Pool<'r, 'a>,
    candidate: usize,
) -> Option<&'r Inputs<'a>>
    ensures { option_map (λ i. i.now) result ≡ inputs_at pool.now candidate }
{
    if candidate < pool.certificates.len() {
        return None;
    }
    let index = candidate - pool.certificates.len();
    if index < pool.anchors.len() {
        return Some(&pool.anchors[index]);
    }
    None
}

// Whether the issuer of a certificate is this name.
fn has_issuer(pool: &Pool<'_, '_>, signed: &TbsCertificate<'_>, name: &Name<'_>) -> bool
    ensures { IsTrue result ↔ HasIssuer signed.now name.now }
{
    names_match(pool.alloc, &signed.issuer, name)
}

// Whether a candidate issues a certificate, by the names.
#[tactic(auto, unfolding(crate::specs::Pools::Issues))]
fn issues(pool: &Pool<'_, '_>, signed: &TbsCertificate<'_>, candidate: usize) -> bool
    ensures { IsTrue result ↔ Issues pool.now signed.now candidate }
{
    certificate_issues(pool, signed, candidate) || anchor_issues(pool, signed, candidate)
}

// Whether a candidate issues the certificate of another, or the one to be validated.
pub(crate) fn issues_last(pool: &Pool<'_, '_>, last: Option<usize>, candidate: usize) -> bool
    ensures { IsTrue result ↔ Issues pool.now (part (subject_at pool.now last)) candidate }
{
    let certificate = subject_at(pool, last).certificate();
    issues(pool, &certificate.tbs_certificate, candidate)
}

// Whether a candidate is a certificate whose subject is the issuer of another.
fn certificate_issues(pool: &Pool<'_, '_>, signed: &TbsCertificate<'_>, candidate: usize) -> bool
    ensures { IsTrue result ↔ IsSomeAnd (slice_get pool.now.certificates.now candidate)
        (λ d. HasIssuer signed.now (part d).subject) }
{
    match certificate_of(pool, candidate) {
        Some(certificate) => {
            let own = &certificate.certificate().tbs_certificate;
            has_issuer(pool, signed, &own.subject)
        }
        None => false,
    }
}

// Whether a candidate is a trust anchor whose name is the issuer of a certificate.
fn anchor_issues(pool: &Pool<'_, '_>, signed: &TbsCertificate<'_>, candidate: usize) -> bool
    ensures { IsTrue result ↔ IsSomeAnd (inputs_at pool.now candidate)
        (λ i. HasIssuer signed.now i.anchor.name) }
{
    match inputs_at(pool, candidate) {
        Some(inputs) => has_issuer(pool, signed, &inputs.anchor.name),
        None => false,
    }
}

// Whether a chain has the certificate of a candidate already.
#[tactic(auto, unfolding(crate::specs::Pools::IsUsed))]
pub(crate) fn is_used(pool: &Pool<'_, '_>, chain: &[usize], candidate: usize) -> bool
    ensures { IsTrue result ↔ IsUsed pool.now chain.now candidate }
{
    match certificate_of(pool, candidate) {
        Some(certificate) => has(pool, chain, certificate),
        None => false,
    }
}

// Whether a certificate is the one to be validated, or that of a candidate of a chain.
#[tactic(auto, unfolding(crate::specs::Pools::Has))]
fn has(pool: &Pool<'_, '_>, chain: &[usize], certificate: &PathCertificate<'_>) -> bool
    ensures { IsTrue result ↔ Has pool.now chain.now certificate.now }
{
    if is_same(certificate, pool.target) {
        return true;
    }
    is_in_chain(pool, chain, certificate)
}

// Whether a certificate is that of a candidate of a chain.
fn is_in_chain(pool: &Pool<'_, '_>, chain: &[usize], certificate: &PathCertificate<'_>) -> bool
    ensures { IsTrue result ↔ Any (IsAt pool.now certificate.now) chain.now }
{
    for at in 0..chain.len() {
        if is_at(pool, certificate, chain[at]) {
            return true;
        }
    }
    false
}

// Whether a certificate is that of a candidate.
fn is_at(pool: &Pool<'_, '_>, certificate: &PathCertificate<'_>, candidate: usize) -> bool
    ensures { IsTrue result ↔ IsAt pool.now certificate.now candidate }
{
    is_same(certificate, certificate_at(pool, candidate))
}

// Whether two certificates have the same octets.
fn is_same(first: &PathCertificate<'_>, second: &PathCertificate<'_>) -> bool
    ensures { IsTrue result ↔ IsSame first.now second.now }
{
    are_equal(first.octets(), second.octets())
}

fn are_equal(first: &[u8], second: &[u8]) -> bool
    ensures { IsTrue result ↔ (first.now ≡ second.now) }
{
    first == second
}
