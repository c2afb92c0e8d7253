//! Comparison of a name with a nameConstraints.
ghost use Rattle.std.specs.Prelude.{◌≡◌, []};
ghost use Rattle.x509.specs.declared.asn1.general_name.GeneralName.{GeneralName as AGeneralName};
ghost use Rattle.x509_names.specs.Constraints.{IsTally};
ghost use Rattle.x509_names.specs.Verdicts.{HasVerdict, excluded_octets, permitted_octets, verdict_of};

use crate::matching::tally::{Tally, tally_of};
use std::alloc::Global;
use x509::{GeneralName, NameConstraints};

/// The result of a comparison of a name with a nameConstraints (RFC 5280, 4.2.1.10). A subtree has
/// the form of the name if its base has this form. For example, both are dNSNames.
#[derive(Clone, Copy, Debug, Drop, PartialEq, Eq)]
pub enum Verdict {
    /// The name is within a permitted subtree, or no permitted subtree has the form of the name.
    /// Furthermore, the name is within no excluded subtree. If the name is a dNSName whose first
    /// label is an asterisk, it stands for the names with any one label in its place (RFC 9525,
    /// 6.3): a permitted subtree has all of these, and no excluded subtree has any.
    Permitted,
    /// A permitted subtree has the form of the name, but no permitted subtree has the name, or all
    /// names for which it stands.
    Outside,
    /// The name, or one of the names for which it stands, is within an excluded subtree, and the
    /// result is not [`Verdict::Outside`].
    Excluded,
    /// A subtree has the form of the name, but the subtree and the name cannot be compared. RFC
    /// 5280 demands that the certificate is rejected if the extension is critical. The subtree and
    /// the name cannot be compared in these cases:
    ///
    /// - The form is otherName, x400Address, ediPartyName or registeredID. But a SmtpUTF8Mailbox, an
    ///   otherName to which the subtrees of rfc822Names apply too (RFC 9598, 6), can be compared
    ///   with a base that is a host name, or a dot and a host name.
    /// - The name is an rfc822Name, and the base is a SmtpUTF8Mailbox.
    /// - The subtree has a minimum other than 0, or a maximum.
    /// - The name is an rfc822Name or a SmtpUTF8Mailbox, but no mailbox at a host: for example, it
    ///   has two @, text in quotation marks, or an IP address.
    /// - The name is a dNSName, but no host name: for example, it ends with a dot. Its first label
    ///   may be an asterisk.
    /// - The name is no URI (RFC 3986), or its authority has no host name.
    /// - The name is an iPAddress that does not have 4 or 16 octets.
    /// - The base of an rfc822Name is no mailbox at a host, no host name, and no dot with a host name
    ///   after it. So it is unclear which names are within an empty base.
    /// - The base of a URI is no host name, and no dot with a host name after it. This includes the
    ///   empty base, an IP address, and a base with a scheme or an asterisk.
    /// - The base of a dNSName is no host name, and no dot with a host name after it. All names are
    ///   within the empty base, which can be compared.
    /// - The base is an iPAddress that does not have 8 or 32 octets, or whose mask has a one after a
    ///   zero.
    /// - The name is a directoryName, and it is not certain whether its levels match those of the
    ///   base. Two values match or differ with certainty if both are PrintableStrings, UTF8Strings
    ///   or IA5Strings of printed ASCII characters and spaces, or if their elements are identical.
    ///   If two levels differ with certainty, the name is certainly not within the base.
    Unclear,
}

/// Compares a name with the subtrees of a nameConstraints (RFC 5280, 4.2.1.10; 6.1.3 (b) and (c)).
/// Returns the first of [`Verdict::Unclear`], [`Verdict::Outside`] and [`Verdict::Excluded`] that
/// applies. Returns [`Verdict::Permitted`] if none of them applies. The function does not use
/// `alloc`.
pub fn name_verdict(
    alloc: Global,
    constraints: &NameConstraints<'_>,
    name: &GeneralName<'_>,
) -> Verdict
    ensures { HasVerdict constraints.now name.now result }
{
    let permitted = permitted_tally(alloc, constraints, name);
    let excluded = excluded_tally(alloc, constraints, name);
    verdict_of(permitted, excluded)
}

fn permitted_tally(
    alloc: Global,
    constraints: &NameConstraints<'_>,
    name: &GeneralName<'_>,
) -> Tally
    ensures { IsTally (permitted_octets constraints.now) name.now result }
{
    match &constraints.permitted_subtrees.0 {
        Some(subtrees) => tally_of(alloc, &subtrees.0, name),
        None => no_tally(),
    }
}

fn excluded_tally(alloc: Global, constraints: &NameConstraints<'_>, name: &GeneralName<'_>) -> Tally
    ensures { IsTally (excluded_octets constraints.now) name.now result }
{
    match &constraints.excluded_subtrees.0 {
        Some(subtrees) => tally_of(alloc, &subtrees.0, name),
        None => no_tally(),
    }
}

// The answers for a list without subtrees.
fn no_tally() -> Tally
    ensures { (n : AGeneralName) → IsTally [] n result }
{
    Tally {
        concerned: false,
        within: false,
        partly: false,
        unclear: false,
    }
}

fn verdict_of(permitted: Tally, excluded: Tally) -> Verdict
    ensures { result ≡ verdict_of permitted excluded }
{
    if permitted.unclear || excluded.unclear {
        Verdict::Unclear
    } else if permitted.concerned && !permitted.within {
        Verdict::Outside
    } else if excluded.partly {
        Verdict::Excluded
    } else {
        Verdict::Permitted
    }
}
