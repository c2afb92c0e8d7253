//! All rules that a certificate breaks.
ghost use Rattle.std.specs.Prelude.{◌≡◌, ◌↔◌, All, IsTrue};
ghost use Rattle.std.specs.Iterator.{item_count};
ghost use Rattle.x509_lint.specs.CertificateChecks.{Keeps};
ghost use Rattle.x509_lint.specs.Lint.{GivesFinding};

use crate::broken::broken_at;
use crate::finding::Finding;
use crate::rule::Rule;
use crate::rules::RULES;
use std::alloc::Global;
use x509::Certificate;

/// An iterator over the rules that a certificate breaks, in the order of [`RULES`]. `next` returns
/// each rule at most once, with the first place where the certificate breaks it. `next` returns
/// `None` only after every rule was checked. Nothing is allocated.
#[derive(Drop)]
pub struct Lint<'a, 'c> {
    certificate: &'c Certificate<'a>,
    rules: &'static [Rule],
    alloc: Global,
}

/// An iterator over the rules of RFC 5280 that decoding does not check and that the certificate
/// breaks. The function does not use `alloc`.
pub fn findings<'a, 'c>(alloc: Global, certificate: &'c Certificate<'a>) -> Lint<'a, 'c>
    ensures certificate { result.certificate.now ≡ certificate.now }
    ensures rules { result.rules.now ≡ RULES }
{
    Lint {
        certificate,
        rules: &RULES,
        alloc,
    }
}

/// Whether the certificate keeps all [`RULES`]. This does not use `alloc`.
pub fn keeps_all_rules(alloc: Global, certificate: &Certificate<'_>) -> bool
    ensures { IsTrue result ↔ All (λ r. Keeps r certificate.now) RULES }
{
    findings(alloc, certificate).next().is_none()
}

impl<'a, 'c> Iterator for Lint<'a, 'c> {
    type Item = Finding;

    ghost next_gives = { λ before result after. (after.certificate.now ≡ before.certificate.now)
        × GivesFinding before.certificate.now before.rules.now result after.rules.now };

    ghost remaining = { item_count (λ i. i.rules.now) };

    fn next(&mut self) -> Option<Finding> {
        while let [rule, others @ ..] = self.rules {
            self.rules = others;
            if let Some(place) = broken_at(self.alloc, self.certificate, *rule) {
                return Some(Finding { rule: *rule, place });
            }
        }
        None
    }
}
