//! Comparison of a list of names with a nameConstraints.
ghost use Rattle.std.specs.Prelude.{◌≡◌};
ghost use Rattle.x509_names.specs.Judgements.{first_refusal};
ghost use Rattle.x509_names.specs.Verdicts.{HaveVerdict};

use crate::matching::verdict::{Verdict, name_verdict};
use std::alloc::Global;
use x509::{GeneralNames, NameConstraints};

/// Compares each name of a list, such as a subjectAltName, with the subtrees of a nameConstraints
/// (RFC 5280, 6.1.3 (b) and (c)). Returns [`Verdict::Permitted`] if all names are permitted, and
/// otherwise the verdict of the first name that is not permitted.
///
/// The subject of the certificate, and an emailAddress in the subject, are not in the list: call
/// [`subject_verdict`](crate::matching::subject_verdict) too. The function does not use `alloc`.
pub fn names_verdict(
    alloc: Global,
    constraints: &NameConstraints<'_>,
    names: &GeneralNames<'_>,
) -> Verdict
    ensures { HaveVerdict constraints.now names.now.octets.now result }
{
    let mut verdict = Verdict::Permitted;
    'names: for name in names.iter(alloc) {
        verdict = first_refusal(verdict, name_verdict(alloc, constraints, &name));
    }
    verdict
}

pub(crate) fn first_refusal(before: Verdict, next: Verdict) -> Verdict
    ensures { result ≡ first_refusal before next }
{
    match before {
        Verdict::Permitted => next,
        _ => before,
    }
}
