//! SmtpUTF8Mailbox: a mailbox in UTF-8, which is an otherName (RFC 9598).
ghost use Rattle.std.specs.Prelude.{◌≡◌, ◌↔◌, IsTrue};
ghost use Rattle.x509_names.specs.Constraints.{IsComparableMailbox};
ghost use Rattle.x509_names.specs.GeneralNames.{IsUtf8MailWithin, IsUtf8Mailbox, is_utf8_tag, smtp_utf8_mailbox};

use crate::{is_mail_within, is_utf8_host_mailbox};
use der::Tag;
use x509::OtherName;

// Whether a SmtpUTF8Mailbox is within the constraint of an rfc822Name (RFC 9598, 6).
pub(crate) fn is_utf8_mail_within(base: &[u8], name: &OtherName<'_>) -> bool
    ensures { IsTrue result ↔ IsUtf8MailWithin base.now name.now }
{
    is_utf8_mailbox(name) && is_mail_within(base, name.value.0.contents)
}

// Whether a name is a SmtpUTF8Mailbox at a host.
pub(crate) fn is_comparable_mailbox(name: &OtherName<'_>) -> bool
    ensures { IsTrue result ↔ IsComparableMailbox name.now }
{
    is_utf8_mailbox(name) && is_utf8_host_mailbox(name.value.0.contents)
}

fn is_utf8_mailbox(name: &OtherName<'_>) -> bool
    ensures { IsTrue result ↔ IsUtf8Mailbox name.now }
{
    is_smtp_utf8_mailbox(name.type_id.octets()) && is_utf8_tag(name.value.0.tag)
}

// Whether a type is that of a SmtpUTF8Mailbox, 1.3.6.1.5.5.7.8.9.
pub(crate) fn is_smtp_utf8_mailbox(type_id: &[u8]) -> bool
    ensures { IsTrue result ↔ (type_id.now ≡ smtp_utf8_mailbox) }
{
    type_id == [0x2B, 0x06, 0x01, 0x05, 0x05, 0x07, 0x08, 0x09].as_slice()
}

fn is_utf8_tag(tag: Tag) -> bool
    ensures { result ≡ is_utf8_tag tag }
{
    matches!(tag, Tag::Utf8String)
}
