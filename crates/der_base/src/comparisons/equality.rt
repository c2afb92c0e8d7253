//! What `==` returns: true if and only if the two values are the same value.
ghost use Rattle.std.specs.Prelude.{◌≡◌, ◌↔◌, IsTrue};
ghost use Rattle.der_base.specs.Length.{number, is_indefinite};

use crate::encoding_rules::EncodingRules;
use crate::error::{Error, ErrorKind};
use crate::length::Length;
use crate::tag::{Class, Tag, TagMode, TagNumber};

/// Calls `==`. The contract of this function states that lengths compare as equal if and only if
/// they have the same number of octets, and are both definite or both indefinite.
fn length_equality(a: Length, b: Length) -> bool
    ensures parts { IsTrue result
        ↔ ((number a ≡ number b) × (is_indefinite a ≡ is_indefinite b)) }
    ensures equality { IsTrue result ↔ (a ≡ b) }
{
    a == b
}

/// Calls `==`. The contract of this function states that tags compare as equal if and only if they
/// have the same variant, constructed bit and number.
fn tag_equality(a: Tag, b: Tag) -> bool
    ensures { IsTrue result ↔ (a ≡ b) }
{
    a == b
}

/// Calls `==`. The contract of this function states that tag numbers compare as equal if and only
/// if they are the same number.
fn tag_number_equality(a: TagNumber, b: TagNumber) -> bool
    ensures { IsTrue result ↔ (a ≡ b) }
{
    a == b
}

/// Calls `==`. The contract of this function states that classes compare as equal if and only if
/// they are the same class.
fn class_equality(a: Class, b: Class) -> bool
    ensures { IsTrue result ↔ (a ≡ b) }
{
    a == b
}

/// Calls `==`. The contract of this function states that modes compare as equal if and only if they
/// are the same mode.
fn mode_equality(a: TagMode, b: TagMode) -> bool
    ensures { IsTrue result ↔ (a ≡ b) }
{
    a == b
}

/// Calls `==`. The contract of this function states that encoding rules compare as equal if and
/// only if they are the same rules.
fn rules_equality(a: EncodingRules, b: EncodingRules) -> bool
    ensures { IsTrue result ↔ (a ≡ b) }
{
    a == b
}

/// Calls `==`. The contract of this function states that kinds of error compare as equal if and
/// only if they are the same variant and their fields are equal. The fields are lengths, tags, an
/// octet or a UTF-8 error.
fn error_kind_equality(a: ErrorKind, b: ErrorKind) -> bool
    ensures { IsTrue result ↔ (a ≡ b) }
{
    a == b
}

/// Calls `==`. The contract of this function states that errors compare as equal if and only if
/// they have the same kind, and they have the same position or both have no position.
fn error_equality(a: Error, b: Error) -> bool
    ensures { IsTrue result ↔ (a ≡ b) }
{
    a == b
}
