//! Comparison of a name with the subtrees of one list.
ghost use Rattle.std.specs.Prelude.{◌≡◌, ◌↔◌, ◌⊎◌, false, IsTrue};
ghost use Rattle.x509_names.specs.Constraints.{AreComparable, CanBeCompared, Concerns, Contains, HasBaseAlone, IsBase, IsMailName, IsTally, IsUnclear, IsUsable, form_of};

use crate::matching::general_name::{is_partly_within_base, is_within_base};
use crate::matching::name::is_decided;
use crate::matching::utf8_mailbox::{is_comparable_mailbox, is_smtp_utf8_mailbox};
use crate::{
    is_address, is_cidr_range, is_host, is_host_constraint, is_host_mailbox, is_host_or_domain,
    is_host_uri, is_mail_constraint, is_uri_constraint,
};
use std::alloc::Global;
use x509::{GeneralName, GeneralSubtree, GeneralSubtrees};

/// The result of a comparison of a name with each subtree of a list.
#[derive(Clone, Copy, Drop)]
pub(crate) struct Tally {
    /// Whether a subtree of the list has a base of the same form as the name.
    pub(crate) concerned: bool,
    /// Whether the name is within a subtree of the list: all names for which it stands.
    pub(crate) within: bool,
    /// Whether the name is within a subtree of the list, at least for one of these names.
    pub(crate) partly: bool,
    /// Whether a subtree of the list has a base of the same form as the name, but cannot be
    /// compared with the name.
    pub(crate) unclear: bool,
}

/// Compares a name with each subtree of a list. The function does not use `alloc`.
pub(crate) fn tally_of(
    alloc: Global,
    subtrees: &GeneralSubtrees<'_>,
    name: &GeneralName<'_>,
) -> Tally
    ensures { IsTally subtrees.now.items.octets.now name.now result }
{
    let mut concerned = false;
    let mut within = false;
    let mut partly = false;
    let mut unclear = false;
    'subtrees: for subtree in subtrees.items.iter(alloc) {
        concerned = concerned | is_concerned(&subtree, name);
        within = within | is_within_base(alloc, &subtree.base, name);
        partly = partly | is_partly_within_base(alloc, &subtree.base, name);
        unclear = unclear | is_unclear(alloc, &subtree, name);
    }
    Tally {
        concerned,
        within,
        partly,
        unclear,
    }
}

fn is_concerned(subtree: &GeneralSubtree<'_>, name: &GeneralName<'_>) -> bool
    ensures { IsTrue result ↔ Concerns name.now subtree.now }
{
    has_same_form(subtree, name) || are_mail_names(&subtree.base, name)
}

fn has_same_form(subtree: &GeneralSubtree<'_>, name: &GeneralName<'_>) -> bool
    ensures { IsTrue result ↔ (form_of subtree.now.base ≡ form_of name.now) }
{
    form_of(&subtree.base) == form_of(name)
}

fn are_mail_names(base: &GeneralName<'_>, name: &GeneralName<'_>) -> bool
    ensures { IsTrue result ↔ (IsMailName base.now × IsMailName name.now) }
{
    is_mail_name(base) && is_mail_name(name)
}

// Whether a name is a mailbox: an rfc822Name, or an otherName with the type of a SmtpUTF8Mailbox.
fn is_mail_name(name: &GeneralName<'_>) -> bool
    ensures { IsTrue result ↔ IsMailName name.now }
{
    match name {
        GeneralName::Rfc822Name(_) => true,
        GeneralName::OtherName(name) => is_smtp_utf8_mailbox(name.0.type_id.octets()),
        _ => false,
    }
}

fn is_unclear(alloc: Global, subtree: &GeneralSubtree<'_>, name: &GeneralName<'_>) -> bool
    ensures { IsTrue result ↔ IsUnclear name.now subtree.now }
{
    is_concerned(subtree, name) && !is_usable(alloc, subtree, name)
}

fn is_usable(alloc: Global, subtree: &GeneralSubtree<'_>, name: &GeneralName<'_>) -> bool
    ensures { IsTrue result ↔ IsUsable name.now subtree.now }
{
    has_base_alone(subtree) && has_comparison(alloc, &subtree.base, name)
}

fn has_comparison(alloc: Global, base: &GeneralName<'_>, name: &GeneralName<'_>) -> bool
    ensures { IsTrue result
        ↔ ((IsBase base.now × CanBeCompared name.now) × AreComparable base.now name.now) }
{
    have_syntax(base, name) && are_comparable(alloc, base, name)
}

fn have_syntax(base: &GeneralName<'_>, name: &GeneralName<'_>) -> bool
    ensures { IsTrue result ↔ (IsBase base.now × CanBeCompared name.now) }
{
    is_base(base) && can_be_compared(name)
}

// Whether a base and a name can be compared with each other, if both have the syntax of their form.
fn are_comparable(alloc: Global, base: &GeneralName<'_>, name: &GeneralName<'_>) -> bool
    ensures { IsTrue result ↔ AreComparable base.now name.now }
{
    match (base, name) {
        (GeneralName::Rfc822Name(base), GeneralName::OtherName(_name)) => {
            is_host_or_domain(base.0.octets())
        }
        (GeneralName::DirectoryName(base), GeneralName::DirectoryName(name)) => {
            is_decided(alloc, &base.0, &name.0)
        }
        _ => true,
    }
}

fn has_base_alone(subtree: &GeneralSubtree<'_>) -> bool
    ensures { IsTrue result ↔ HasBaseAlone subtree.now }
{
    subtree.minimum.0.0.value.number == 0 && subtree.maximum.0.is_none()
}

// The number of the form of a name: that of its tag.
fn form_of(name: &GeneralName<'_>) -> u8
    ensures { result ≡ form_of name.now }
{
    match name {
        GeneralName::OtherName(_) => 0,
        GeneralName::Rfc822Name(_) => 1,
        GeneralName::DnsName(_) => 2,
        GeneralName::X400Address(_) => 3,
        GeneralName::DirectoryName(_) => 4,
        GeneralName::EdiPartyName(_) => 5,
        GeneralName::UniformResourceIdentifier(_) => 6,
        GeneralName::IpAddress(_) => 7,
        GeneralName::RegisteredId(_) => 8,
    }
}

// Whether a name can be compared with constraints of its form.
fn can_be_compared(name: &GeneralName<'_>) -> bool
    ensures { IsTrue result ↔ CanBeCompared name.now }
{
    match name {
        GeneralName::OtherName(name) => is_comparable_mailbox(&name.0),
        GeneralName::Rfc822Name(name) => is_host_mailbox(name.0.octets()),
        GeneralName::DnsName(name) => is_host(name.0.octets()),
        GeneralName::DirectoryName(_) => true,
        GeneralName::UniformResourceIdentifier(name) => is_host_uri(name.0.octets()),
        GeneralName::IpAddress(name) => is_address(name.0.octets()),
        _ => false,
    }
}

// Whether a base can be compared with names.
fn is_base(base: &GeneralName<'_>) -> bool
    ensures { IsTrue result ↔ IsBase base.now }
{
    match base {
        GeneralName::Rfc822Name(base) => is_mail_constraint(base.0.octets()),
        GeneralName::DnsName(base) => is_host_constraint(base.0.octets()),
        GeneralName::DirectoryName(_) => true,
        GeneralName::UniformResourceIdentifier(base) => is_uri_constraint(base.0.octets()),
        GeneralName::IpAddress(base) => is_cidr_range(base.0.octets()),
        _ => false,
    }
}
