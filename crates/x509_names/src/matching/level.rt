//! Comparison of RelativeDistinguishedNames.
ghost use Rattle.std.specs.Prelude.{◌↔◌, IsTrue};
ghost use Rattle.x509.specs.CertificateLists.{level_octets};
ghost use Rattle.x509_names.specs.NameMatching.{AreAsMany, HasMatch, HaveMatches, LevelsAgree, LevelsMatch};

use crate::matching::attribute::attributes_agree;
use crate::matching::matching::Matching;
use std::alloc::Global;
use x509::{AttributeTypeAndValue, RelativeDistinguishedName};

/// Whether two RelativeDistinguishedNames match (RFC 5280, 7.1). They must have the same number of
/// attributes, and each attribute of the first must match an attribute of the second.
pub fn levels_match(
    alloc: Global,
    first: &RelativeDistinguishedName<'_>,
    second: &RelativeDistinguishedName<'_>,
) -> bool
    ensures { IsTrue result ↔ LevelsMatch first.now second.now }
{
    levels_agree(alloc, first, second, Matching::Prepared)
}

// Whether two levels match in this sense.
pub(crate) fn levels_agree(
    alloc: Global,
    first: &RelativeDistinguishedName<'_>,
    second: &RelativeDistinguishedName<'_>,
    matching: Matching,
) -> bool
    ensures { IsTrue result ↔ LevelsAgree matching first.now second.now }
{
    are_as_many(alloc, first, second) && have_matches(alloc, first, second, matching)
}

fn are_as_many(
    alloc: Global,
    first: &RelativeDistinguishedName<'_>,
    second: &RelativeDistinguishedName<'_>,
) -> bool
    ensures { IsTrue result ↔ AreAsMany (level_octets first.now) (level_octets second.now) }
{
    let mut others = second.attributes.iter(alloc);
    for attribute in first.attributes.iter(alloc) {
        match others.next() {
            Some(_other) => {}
            None => return false,
        }
    }
    match others.next() {
        Some(_other) => false,
        None => true,
    }
}

// Whether each attribute of one level has a match in the other.
fn have_matches(
    alloc: Global,
    first: &RelativeDistinguishedName<'_>,
    second: &RelativeDistinguishedName<'_>,
    matching: Matching,
) -> bool
    ensures { IsTrue result
        ↔ HaveMatches matching (level_octets first.now) (level_octets second.now) }
{
    for attribute in first.attributes.iter(alloc) {
        if !has_match(alloc, second, &attribute, matching) {
            return false;
        }
    }
    true
}

// Whether an attribute matches one of the level.
fn has_match(
    alloc: Global,
    level: &RelativeDistinguishedName<'_>,
    attribute: &AttributeTypeAndValue<'_>,
    matching: Matching,
) -> bool
    ensures { IsTrue result ↔ HasMatch matching (level_octets level.now) attribute.now }
{
    for other in level.attributes.iter(alloc) {
        if attributes_agree(attribute, &other, matching) {
            return true;
        }
    }
    false
}
