//! Checks of all extensions of a certificate (RFC 5280, 4.2).
ghost use Rattle.std.specs.Prelude.{◌≡◌, ◌↔◌, IsTrue};
ghost use Rattle.x509_lint.specs.CertificateChecks.{ExtensionKeeps, ExtensionsKeep};
ghost use Rattle.x509.specs.CertificateLists.{AreExtensions};
ghost use Rattle.x509_lint.specs.ExtensionChecks.{instances};
ghost use Rattle.x509.specs.Firsts.{FirstFailing};

use crate::checks::extension::{
    has_usage_if_key_usage, is_critical_if_authority, is_critical_if_required,
    is_not_critical_if_forbidden, is_not_empty,
};
use crate::checks::value::value_keeps;
use crate::extension_rule::ExtensionRule;
use std::alloc::Global;
use x509::{Extension, Extensions};

/// The index, counted from 0, of the first extension that breaks the rule; `None` if all extensions
/// keep the rule. The function does not use `alloc`.
pub fn first_failing_extension(
    alloc: Global,
    extensions: &Extensions<'_>,
    rule: ExtensionRule,
) -> Option<usize>
    ensures { (l : AreExtensions extensions.now)
        → FirstFailing (ExtensionKeeps rule l.items) l.items result }
{
    let mut place = 0;
    for extension in extensions.items.iter(alloc) {
        if !extension_keeps(alloc, extensions, &extension, rule) {
            return Some(place);
        }
        place += 1;
    }
    None
}

/// Whether all extensions keep the rule. This does not use `alloc`.
pub fn extensions_keep(alloc: Global, extensions: &Extensions<'_>, rule: ExtensionRule) -> bool
    ensures { IsTrue result ↔ ExtensionsKeep rule extensions.now }
{
    first_failing_extension(alloc, extensions, rule).is_none()
}

/// The number of extensions whose identifier is an OBJECT IDENTIFIER with the contents octets `id`.
/// The function does not use `alloc`.
pub fn instances(alloc: Global, extensions: &Extensions<'_>, id: &[u8]) -> usize
    ensures { (l : AreExtensions extensions.now) → result ≡ instances id.now l.items }
{
    let mut count = 0;
    for extension in extensions.items.iter(alloc) {
        if extension.extn_id.octets() == id {
            count += 1;
        }
    }
    count
}

// Whether an extension among these keeps the rule.
fn extension_keeps(
    alloc: Global,
    extensions: &Extensions<'_>,
    extension: &Extension<'_>,
    rule: ExtensionRule,
) -> bool
    ensures { (l : AreExtensions extensions.now)
        → (IsTrue result ↔ ExtensionKeeps rule l.items extension.now) }
{
    match rule {
        ExtensionRule::Instances => instances(alloc, extensions, extension.extn_id.octets()) <= 1,
        ExtensionRule::Critical => is_critical_if_required(extension),
        ExtensionRule::NotCritical => is_not_critical_if_forbidden(extension),
        ExtensionRule::NotEmpty => is_not_empty(extension),
        ExtensionRule::Usage => has_usage_if_key_usage(alloc, extension),
        ExtensionRule::AuthorityCritical => is_critical_if_authority(alloc, extension),
        ExtensionRule::Value(rule) => value_keeps(
            alloc,
            extension.extn_id.octets(),
            extension.extn_value.octets(),
            rule,
        ),
    }
}
