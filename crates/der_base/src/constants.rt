//! The values of constants and defaults. Each function here returns a constant or a default, and
//! its contract states which value that is. Nothing calls the functions of this module.
ghost use Rattle.std.specs.Prelude.{◌≡◌};
ghost use Rattle.der_base.specs.Length.{definite_length};
ghost use Rattle.der_base.specs.declared.encoding_rules.EncodingRules.TheVariants.{Der};
ghost use Rattle.der_base.specs.declared.tag.mode.TagMode.TheVariants.{Explicit};

use crate::encoding_rules::EncodingRules;
use crate::length::Length;
use crate::tag::{
    CLASS_APPLICATION, CLASS_CONTEXT_SPECIFIC, CLASS_PRIVATE, CLASS_UNIVERSAL, TagMode,
};

/// Returns [`Length::ZERO`]. The contract of this function states that it is the definite length of
/// zero octets.
fn zero() -> Length
    ensures { result ≡ definite_length 0 }
{
    Length::ZERO
}

/// Returns [`Length::ONE`]. The contract of this function states that it is the definite length of
/// one octet.
fn one() -> Length
    ensures { result ≡ definite_length 1 }
{
    Length::ONE
}

/// Returns [`Length::MAX`]. The contract of this function states that it is the greatest definite
/// length, 4294967295 octets.
fn max() -> Length
    ensures { result ≡ definite_length 4294967295 }
{
    Length::MAX
}

/// Returns [`CLASS_UNIVERSAL`]. The contract of this function states that it is `0x00`: in an
/// identifier octet of class UNIVERSAL bits 8 and 7 are both 0 (X.690 8.1.2.2, table 1).
fn class_universal() -> u8
    ensures { result ≡ 0x00 }
{
    CLASS_UNIVERSAL
}

/// Returns [`CLASS_APPLICATION`]. The contract of this function states that it is `0x40`: in an
/// identifier octet of class APPLICATION bit 8 is 0 and bit 7 is 1 (X.690 8.1.2.2, table 1).
fn class_application() -> u8
    ensures { result ≡ 0x40 }
{
    CLASS_APPLICATION
}

/// Returns [`CLASS_CONTEXT_SPECIFIC`]. The contract of this function states that it is `0x80`: in
/// an identifier octet of class CONTEXT-SPECIFIC bit 8 is 1 and bit 7 is 0 (X.690 8.1.2.2, table
/// 1).
fn class_context_specific() -> u8
    ensures { result ≡ 0x80 }
{
    CLASS_CONTEXT_SPECIFIC
}

/// Returns [`CLASS_PRIVATE`]. The contract of this function states that it is `0xC0`: in an
/// identifier octet of class PRIVATE bits 8 and 7 are both 1 (X.690 8.1.2.2, table 1).
fn class_private() -> u8
    ensures { result ≡ 0xC0 }
{
    CLASS_PRIVATE
}

/// Returns the default [`Length`]. The contract of this function states that it is the definite
/// length 0.
fn default_length() -> Length
    ensures { result ≡ definite_length 0 }
{
    Length::default()
}

/// Returns the default [`TagMode`]. The contract of this function states that it is explicit
/// tagging.
fn default_mode() -> TagMode
    ensures { result ≡ Explicit }
{
    TagMode::default()
}

/// Returns the default [`EncodingRules`]. The contract of this function states that they are the
/// Distinguished Encoding Rules.
fn default_rules() -> EncodingRules
    ensures { result ≡ Der }
{
    EncodingRules::default()
}
