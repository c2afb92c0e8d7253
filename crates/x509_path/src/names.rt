//! The nameConstraints of the certificates before a certificate (RFC 5280, 6.1.3 (b), (c); 4.2.1.10).
ghost use Rattle.std.specs.Prelude.{◌≡◌, ◌↔◌, IsTrue};
ghost use Rattle.x509_names.specs.Judgements.{first_refusal};
ghost use Rattle.x509_path.specs.Names.{HasPathVerdict};

use crate::certificate::PathCertificate;
use crate::verdicts::issuer_verdict;
use std::alloc::Global;
use x509::TbsCertificate;
use x509_names::Verdict;

// The verdict of some certificates on the names of another: the first refusal.
pub(crate) fn issuers_verdict(
    alloc: Global,
    issuers: &[PathCertificate<'_>],
    signed: &TbsCertificate<'_>,
) -> Verdict
    ensures { HasPathVerdict signed.now issuers.now result }
{
    let mut verdict = Verdict::Permitted;
    for issuer in issuers.iter() {
        verdict = first_refusal(
            verdict,
            issuer_verdict(alloc, &issuer.certificate.tbs_certificate, signed),
        );
    }
    verdict
}

pub(crate) fn first_refusal(before: Verdict, next: Verdict) -> Verdict
    ensures { result ≡ first_refusal before next }
{
    match before {
        Verdict::Permitted => next,
        _ => before,
    }
}

pub(crate) fn is_permitted(verdict: Verdict) -> bool
    ensures { IsTrue result ↔ (verdict ≡ Verdict.Permitted) }
{
    match verdict {
        Verdict::Permitted => true,
        Verdict::Outside => false,
        Verdict::Excluded => false,
        Verdict::Unclear => false,
    }
}
