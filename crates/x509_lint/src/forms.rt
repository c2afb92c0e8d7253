//! The forms of general names (RFC 5280, 4.2.1.6).
ghost use Rattle.std.specs.Prelude.{◌≡◌, ◌↔◌, IsTrue};
ghost use Rattle.der_asn1.specs.ContextSpecific.{context_tag};
ghost use Rattle.x509_lint.specs.GeneralNameForms.{FormKeeps};

use crate::elements::is_same_tag;
use crate::form_rule::FormRule;
use der::{Tag, TagNumber};
use x509_names::{has_host, has_scheme, is_address, is_host_name, is_mailbox, is_uri};

/// Whether a general name with this tag and these contents keeps the rule. True if the rule is for
/// names of another form.
pub fn form_keeps(tag: Tag, contents: &[u8], rule: FormRule) -> bool
    ensures { IsTrue result ↔ FormKeeps rule tag contents.now }
{
    match rule {
        FormRule::Mail => !is_context(tag, false, 1) || is_mailbox(contents),
        FormRule::Host => !is_context(tag, false, 2) || is_host_name(contents),
        FormRule::Scheme => !is_context(tag, false, 6) || has_scheme(contents),
        FormRule::Uri => !is_context(tag, false, 6) || is_uri(contents),
        FormRule::Authority => !is_context(tag, false, 6) || has_host(contents),
        FormRule::Address => { !is_context(tag, false, 7) || is_address(contents) }
        FormRule::Directory => !is_context(tag, true, 4) || contents != [0x30, 0x00].as_slice(),
    }
}

/// Whether `tag` is the context-specific tag with the number `number`. The tag must be constructed
/// if `constructed` is true, and primitive if `constructed` is false.
pub fn is_context(tag: Tag, constructed: bool, number: u32) -> bool
    ensures { IsTrue result ↔ (tag ≡ context_tag constructed number) }
{
    is_same_tag(tag, context(constructed, number))
}

/// Returns the context-specific tag with the number `number`. The tag is constructed if
/// `constructed` is true, otherwise primitive.
pub fn context(constructed: bool, number: u32) -> Tag
    ensures { result ≡ context_tag constructed number }
{
    Tag::ContextSpecific {
        constructed,
        number: TagNumber::new(number),
    }
}
