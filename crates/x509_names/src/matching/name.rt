//! Comparison of names.
ghost use Rattle.std.specs.Prelude.{◌↔◌, IsTrue};
ghost use Rattle.x509_names.specs.NameMatching.{HasLevelsOf, IsDecided, IsNameWithin, NamesMatch};

use crate::matching::level::levels_agree;
use crate::matching::matching::Matching;
use std::alloc::Global;
use x509::Name;

/// Whether two names match (RFC 5280, 7.1). They must have the same number of
/// RelativeDistinguishedNames, and these must match one after the other, in the same order. The
/// function does not use `alloc`.
pub fn names_match(alloc: Global, first: &Name<'_>, second: &Name<'_>) -> bool
    ensures { IsTrue result ↔ NamesMatch first.now second.now }
{
    has_levels_of(alloc, first, second, true, Matching::Prepared)
}

/// Whether `name` is within the subtree of `base` (RFC 5280, 7.1 and 4.2.1.10). The first
/// RelativeDistinguishedNames of `name` must match all RelativeDistinguishedNames of `base`, in the
/// same order. The function does not use `alloc`.
pub fn is_name_within(alloc: Global, base: &Name<'_>, name: &Name<'_>) -> bool
    ensures { IsTrue result ↔ IsNameWithin base.now name.now }
{
    has_levels_of(alloc, base, name, false, Matching::Prepared)
}

// Whether it is certain that the name is within the subtree of the base, or that it is not.
pub(crate) fn is_decided(alloc: Global, base: &Name<'_>, name: &Name<'_>) -> bool
    ensures { IsTrue result ↔ IsDecided base.now name.now }
{
    !has_levels_of(alloc, base, name, false, Matching::Possible)
        || has_levels_of(alloc, base, name, false, Matching::Certain)
}

// Whether the second name has levels that match those of the first, and, as a whole, no others.
fn has_levels_of(
    alloc: Global,
    first: &Name<'_>,
    second: &Name<'_>,
    whole: bool,
    matching: Matching,
) -> bool
    ensures { IsTrue result ↔ HasLevelsOf matching whole first.now second.now }
{
    let mut others = second.levels.iter(alloc);
    for level in first.levels.iter(alloc) {
        match others.next() {
            Some(other) => {
                if !levels_agree(alloc, &level, &other, matching) {
                    return false;
                }
            }
            None => return false,
        }
    }
    match others.next() {
        Some(_other) => !whole,
        None => true,
    }
}
