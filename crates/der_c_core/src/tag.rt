//! Tags as tag words, which are numbers of 64 bits for C.
ghost use Rattle.std.specs.Prelude.{◌≡◌, IfSome, None, true, false};
ghost use Rattle.der_base.specs.declared.tag.Tag.{Tag as ATag};
ghost use Rattle.der_c_core.specs.TagWord.{IsTagWord, NoTagWord, said_tag, tag_octet, long_number, tag_word};

use der_base::{Class, Tag, TagNumber};
use der_core::universal_tag;

/// The tag whose tag word is `word`. [`word_of`] says what the tag word of a tag is. `None` if no
/// tag has the tag word `word`.
#[inline(always)]
pub(crate) fn tag_of_word(word: u64) -> Option<Tag>
    ensures is { IfSome result (λ t. IsTagWord word t) }
    ensures none { result ≡ None → NoTagWord word }
{
    let (octet, long) = ((word % 256) as u8, word / 256);
    if long > u32::MAX as u64 {
        return None;
    }
    let tag = tag_of(octet, long as u32)?;
    if word_of(tag) == word {
        Some(tag)
    } else {
        None
    }
}

/// Whether `word` is the tag word of a tag. A tag word is the first octet of the identifier, plus
/// 256 times the tag number if the number is 31 or more.
#[cold]
pub fn is_tag(word: u64) -> bool
    ensures some { result ≡ true → (t : ATag) × IsTagWord word t }
    ensures none { result ≡ false → NoTagWord word }
{
    tag_of_word(word).is_some()
}

/// The tag whose identifier begins with `octet`. If the low five bits of `octet` are all set, the
/// identifier has the long form, and the tag number is `long`. Otherwise the low five bits are the
/// tag number, and `long` is ignored. `None` if the class of `octet` is UNIVERSAL and no universal
/// tag begins with `octet`.
pub(crate) fn tag_of(octet: u8, long: u32) -> Option<Tag>
    ensures { result ≡ said_tag octet long }
{
    if octet < 0x40 {
        return universal_tag(octet);
    }
    let constructed = octet / 32 % 2 == 1;
    let low = octet % 32;
    let number = TagNumber(if low < 31 { low as u32 } else { long });
    Some(if octet < 0x80 {
        Tag::Application {
            constructed,
            number,
        }
    } else if octet < 0xC0 {
        Tag::ContextSpecific {
            constructed,
            number,
        }
    } else {
        Tag::Private {
            constructed,
            number,
        }
    })
}

/// The first octet of the identifier of `tag`.
#[inline(always)]
pub(crate) fn first_octet(tag: Tag) -> u8
    ensures { result ≡ tag_octet tag }
{
    let number = tag.number().0;
    let low = if number < 31 { number as u8 } else { 31 };
    let class = match tag.class() {
        Class::Universal => 0u8,
        Class::Application => 0x40,
        Class::ContextSpecific => 0x80,
        Class::Private => 0xC0,
    };
    let form = if tag.is_constructed() { 0x20u8 } else { 0 };
    class + form + low
}

/// The tag number of `tag`, if it is 31 or more: the identifier then has the long form. Returns 0
/// if the tag number is below 31.
#[inline(always)]
pub(crate) fn number_in_long_form(tag: Tag) -> u32
    ensures { result ≡ long_number tag }
{
    let number = tag.number().0;
    if number < 31 { 0 } else { number }
}

/// The tag word of `tag`: the first octet of its identifier, plus 256 times the tag number if the
/// number is 31 or more.
#[inline(always)]
pub fn word_of(tag: Tag) -> u64
    ensures { result ≡ tag_word tag }
{
    first_octet(tag) as u64 + 256 * number_in_long_form(tag) as u64
}
