//! What `Clone` returns: a clone equals the original, and cloning allocates nothing.
ghost use Rattle.std.specs.Prelude.{◌≡◌, Ok};

use crate::encoding_rules::EncodingRules;
use crate::error::{Error, ErrorKind};
use crate::length::Length;
use crate::tag::{Class, Tag, TagMode, TagNumber};
use std::alloc::AllocError;

/// Calls `Clone::clone`. The contract of this function states that cloning a [`Length`] succeeds
/// and that the clone equals the original.
fn length_clone(length: &Length) -> Result<Length, AllocError>
    ensures { result ≡ Ok length.now }
{
    length.clone()
}

/// Calls `Clone::clone`. The contract of this function states that cloning a [`Tag`] succeeds and
/// that the clone equals the original.
fn tag_clone(tag: &Tag) -> Result<Tag, AllocError>
    ensures { result ≡ Ok tag.now }
{
    tag.clone()
}

/// Calls `Clone::clone`. The contract of this function states that cloning a [`TagNumber`] succeeds
/// and that the clone equals the original.
fn tag_number_clone(number: &TagNumber) -> Result<TagNumber, AllocError>
    ensures { result ≡ Ok number.now }
{
    number.clone()
}

/// Calls `Clone::clone`. The contract of this function states that cloning a [`Class`] succeeds and
/// that the clone equals the original.
fn class_clone(class: &Class) -> Result<Class, AllocError>
    ensures { result ≡ Ok class.now }
{
    class.clone()
}

/// Calls `Clone::clone`. The contract of this function states that cloning a [`TagMode`] succeeds
/// and that the clone equals the original.
fn mode_clone(mode: &TagMode) -> Result<TagMode, AllocError>
    ensures { result ≡ Ok mode.now }
{
    mode.clone()
}

/// Calls `Clone::clone`. The contract of this function states that cloning [`EncodingRules`]
/// succeeds and that the clone equals the original.
fn rules_clone(rules: &EncodingRules) -> Result<EncodingRules, AllocError>
    ensures { result ≡ Ok rules.now }
{
    rules.clone()
}

/// Calls `Clone::clone`. The contract of this function states that cloning an [`ErrorKind`]
/// succeeds and that the clone equals the original.
fn error_kind_clone(kind: &ErrorKind) -> Result<ErrorKind, AllocError>
    ensures { result ≡ Ok kind.now }
{
    kind.clone()
}

/// Calls `Clone::clone`. The contract of this function states that cloning an [`Error`] succeeds
/// and that the clone equals the original.
fn error_clone(error: &Error) -> Result<Error, AllocError>
    ensures { result ≡ Ok error.now }
{
    error.clone()
}
