//! Checks of the RelativeDistinguishedNames of a name (RFC 5280, 4.1.2.4).
ghost use Rattle.std.specs.Prelude.{◌↔◌, IsTrue};
ghost use Rattle.x509.specs.CertificateLists.{AreAttributes, AreLevels, level_octets};
ghost use Rattle.x509.specs.Firsts.{FirstFailing};
ghost use Rattle.x509_lint.specs.NameChecks.{AttributeKeeps, FirstFailingAttribute, LevelKeeps, NameKeeps};

use crate::attribute_rule::AttributeRule;
use crate::checks::attribute::{has_characters_of_tag, has_length_of_type, has_type_of_attribute};
use crate::checks::presence::has_attribute;
use crate::name_rule::NameRule;
use std::alloc::Global;
use x509::{AttributeTypeAndValue, Name, RelativeDistinguishedName};

/// The index, counted from 0, of the first RelativeDistinguishedName that breaks the rule; `None`
/// if all RelativeDistinguishedNames keep the rule. The function does not use `alloc`.
pub fn first_failing_level(alloc: Global, name: &Name<'_>, rule: NameRule) -> Option<usize>
    ensures { (l : AreLevels name.now) → FirstFailing (LevelKeeps rule) l.items result }
{
    let mut place = 0;
    for level in name.levels.iter(alloc) {
        if !level_keeps(alloc, &level, rule) {
            return Some(place);
        }
        place += 1;
    }
    None
}

/// Finds the first attribute of a name that breaks the rule. Returns the index of its
/// RelativeDistinguishedName in the name, and its own index in that RelativeDistinguishedName. Both
/// indices count from 0. Returns `None` if all attributes keep the rule. The function does not use
/// `alloc`.
pub fn first_failing_attribute(
    alloc: Global,
    name: &Name<'_>,
    rule: AttributeRule,
) -> Option<(usize, usize)>
    ensures { (l : AreLevels name.now) → FirstFailingAttribute rule l.items result }
{
    let mut place = 0;
    for level in name.levels.iter(alloc) {
        if let Some(attribute) = first_failing_of_level(alloc, &level, rule) {
            return Some((place, attribute));
        }
        place += 1;
    }
    None
}

/// Whether all RelativeDistinguishedNames of the name keep the rule. This does not use `alloc`.
pub fn name_keeps(alloc: Global, name: &Name<'_>, rule: NameRule) -> bool
    ensures { IsTrue result ↔ NameKeeps rule name.now }
{
    first_failing_level(alloc, name, rule).is_none()
}

/// Whether the RelativeDistinguishedName keeps the rule. This does not use `alloc`.
pub fn level_keeps(alloc: Global, level: &RelativeDistinguishedName<'_>, rule: NameRule) -> bool
    ensures { IsTrue result ↔ LevelKeeps rule level.now }
{
    match rule {
        NameRule::Levels => has_attribute(level),
        NameRule::Attributes(rule) => first_failing_of_level(alloc, level, rule).is_none(),
    }
}

/// The index, counted from 0, of the first attribute of the RelativeDistinguishedName that breaks
/// the rule; `None` if all attributes keep the rule. The function does not use `alloc`.
pub fn first_failing_of_level(
    alloc: Global,
    level: &RelativeDistinguishedName<'_>,
    rule: AttributeRule,
) -> Option<usize>
    ensures { (l : AreAttributes (level_octets level.now))
        → FirstFailing (AttributeKeeps rule) l.items result }
{
    let mut place = 0;
    for attribute in level.attributes.iter(alloc) {
        if !attribute_keeps(&attribute, rule) {
            return Some(place);
        }
        place += 1;
    }
    None
}

/// Whether the attribute keeps the rule.
pub fn attribute_keeps(attribute: &AttributeTypeAndValue<'_>, rule: AttributeRule) -> bool
    ensures { IsTrue result ↔ AttributeKeeps rule attribute.now }
{
    match rule {
        AttributeRule::Length => has_length_of_type(attribute),
        AttributeRule::Characters => has_characters_of_tag(attribute),
        AttributeRule::StringType => has_type_of_attribute(attribute),
    }
}
