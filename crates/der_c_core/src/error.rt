//! The struct for errors in the C interface.
ghost use Rattle.std.specs.Prelude.{◌≡◌, ◌≢◌, ◌↔◌, true, IsTrue, None, IfSome};
ghost use Rattle.std.specs.Option.{option_map};
ghost use Rattle.der_base.specs.Error.{kind_of as kind_of_error};
ghost use Rattle.der_base.specs.declared.error.Error.{Error as AnyError};
ghost use Rattle.der_c_core.specs.CodeKind.{error_with, kind_known, kind_among, tag_rows};
ghost use Rattle.der_c_core.specs.ErrorText.{NamesOctet};
ghost use Rattle.der_base.specs.Error.{error_of_kind};
ghost use Rattle.der_base.specs.declared.error.ErrorKind.TheVariants.{Reader};
ghost use Rattle.der_c_core.specs.ErrorCode.{error_code, unbalanced_code, kind_code, tag_code, coded as coded_error};

use crate::tag::{first_octet, number_in_long_form, tag_of};
use der_base::{Error, ErrorKind, Length, Tag};

/// An error, or no error if `kind` is 0. In C it is a struct of 16 octets.
#[repr(C)]
#[derive(Clone, Copy)]
pub struct DerError {
    /// The number of the error kind, as listed in `bindings/c/yotremul/der.h`. It is 0 if there is
    /// no error.
    pub kind: u8,
    /// Whether the position of the error is known. If not, `position` is 0.
    pub has_position: bool,
    /// The first octet of the identifier of the tag that was expected. It is 0 if the error names
    /// no expected tag.
    pub expected: u8,
    /// The first octet of the identifier of the tag that was found. It is 0 if the error names no
    /// found tag.
    pub actual: u8,
    /// The position of the error, in octets from the start of the input or of the output. It is 0
    /// if the position is not known.
    pub position: u32,
    /// A number whose meaning depends on the kind of the error. It is 0 for all kinds that are not
    /// listed here:
    ///
    /// - `Incomplete`: the number of octets that the whole input would need.
    /// - `TrailingData`: the number of octets that were read.
    /// - `TagUnknown`: the octet that was read, with which no tag begins.
    /// - `TagUnexpected`: the number of the expected tag, if that number is 31 or more. It is 0 if
    ///   the number is below 31, or if the error names no expected tag.
    pub first: u32,
    /// A number whose meaning depends on the kind of the error. It is 0 for all kinds that are not
    /// listed here:
    ///
    /// - `Incomplete`: the number of octets that the input has.
    /// - `TrailingData`: the number of octets that are left.
    /// - Kinds with a tag that was found: the number of this tag if the number is 31 or more. It is
    ///   0 if the number is below 31.
    pub second: u32,
}

impl DerError {
    /// The value for no error.
    pub const NONE: DerError = DerError {
        kind: 0,
        has_position: false,
        expected: 0,
        actual: 0,
        position: 0,
        first: 0,
        second: 0,
    };

    // the error of an element that is not ended, or ended out of order
    pub(crate) fn unbalanced(position: u32) -> DerError
        ensures { result ≡ unbalanced_code position }
    {
        DerError {
            has_position: true,
            position,
            ..coded(23, 0, 0, 0, 0)
        }
    }
}

// An error of a kind, with the first octets of two tags and with two numbers, and no position.
fn coded(kind: u8, expected: u8, actual: u8, first: u32, second: u32) -> DerError
    ensures { result ≡ coded_error kind expected actual first second }
{
    DerError {
        kind,
        has_position: false,
        expected,
        actual,
        position: 0,
        first,
        second,
    }
}

// An error of a kind that names one tag.
fn coded_tag(kind: u8, tag: Tag) -> DerError
    ensures { result ≡ tag_code kind tag }
{
    coded(kind, 0, first_octet(tag), 0, number_in_long_form(tag))
}

// The C form of a kind.
fn coded_kind(kind: ErrorKind) -> DerError
    ensures { result ≡ kind_code kind }
{
    match kind {
        ErrorKind::DateTime => coded(1, 0, 0, 0, 0),
        ErrorKind::EncodingRules => coded(2, 0, 0, 0, 0),
        ErrorKind::Failed => coded(3, 0, 0, 0, 0),
        ErrorKind::Incomplete {
            expected_len,
            actual_len,
        } => coded(4, 0, 0, u32::from(expected_len), u32::from(actual_len)),
        ErrorKind::IndefiniteLength => coded(5, 0, 0, 0, 0),
        ErrorKind::Length { tag } => coded_tag(6, tag),
        ErrorKind::NestingDepth => coded(7, 0, 0, 0, 0),
        ErrorKind::Noncanonical { tag } => coded_tag(8, tag),
        ErrorKind::OidMalformed => coded(9, 0, 0, 0, 0),
        ErrorKind::SetDuplicate => coded(10, 0, 0, 0, 0),
        ErrorKind::SetOrdering => coded(11, 0, 0, 0, 0),
        ErrorKind::Overflow => coded(12, 0, 0, 0, 0),
        ErrorKind::Overlength => coded(13, 0, 0, 0, 0),
        ErrorKind::Reader => coded(14, 0, 0, 0, 0),
        ErrorKind::TagModeUnknown => coded(15, 0, 0, 0, 0),
        ErrorKind::TagNumberInvalid => coded(16, 0, 0, 0, 0),
        ErrorKind::TagUnexpected { expected, actual } => coded_tags(expected, actual),
        ErrorKind::TagUnknown { byte } => coded(18, 0, 0, byte as u32, 0),
        ErrorKind::TrailingData { decoded, remaining } => {
            coded(19, 0, 0, u32::from(decoded), u32::from(remaining))
        }
        ErrorKind::Utf8(_) => coded(20, 0, 0, 0, 0),
        ErrorKind::Value { tag } => coded_tag(21, tag),
        ErrorKind::OutOfMemory => coded(22, 0, 0, 0, 0),
    }
}

// The error for an unexpected tag, with the expected tag if it is known.
fn coded_tags(expected: Option<Tag>, actual: Tag) -> DerError
    ensures { result ≡ kind_code (ErrorKind.TagUnexpected expected actual) }
{
    match expected {
        Some(tag) => coded(
            17,
            first_octet(tag),
            first_octet(actual),
            number_in_long_form(tag),
            number_in_long_form(actual),
        ),
        None => coded_tag(17, actual),
    }
}

/// Converts an error to the struct [`DerError`] of the C interface.
#[cold]
#[inline(never)]
pub fn c_error(error: Error) -> DerError
    ensures { result ≡ error_code error }
{
    let code = coded_kind(error.kind());
    match error.position() {
        Some(position) => DerError {
            has_position: true,
            position: u32::from(position),
            ..code
        },
        None => code,
    }
}

/// The error `Reader` without a position. It is the error for an element that does not lie in the
/// octets of the reader.
#[inline(always)]
pub(crate) fn foreign() -> DerError
    ensures { result ≡ error_code (error_of_kind Reader) }
{
    c_error(ErrorKind::Reader.to_error())
}

/// Converts the C struct `code` back to an error that [`c_error`] converts to `code`. If there are
/// several, they have the same text. Returns `None` if there is no such error, or if the kind of
/// `code` is `Utf8` (20).
pub(crate) fn known_error(code: DerError) -> Option<Error>
    ensures some { IfSome result (λ e. (error_code e ≡ code) × (code.kind ≢ 20)) }
    ensures none { result ≡ None → (e : AnyError) → NamesOctet (kind_of_error e)
        → error_code e ≡ code → code.kind ≡ 20 }
{
    let error = error_of(code)?;
    if is_same(c_error(error), code) {
        Some(error)
    } else {
        None
    }
}

// Whether two errors have the same C form.
fn is_same(a: DerError, b: DerError) -> bool
    ensures { IsTrue result ↔ (a ≡ b) }
{
    a.kind == b.kind
        && a.has_position == b.has_position
        && a.expected == b.expected
        && a.actual == b.actual
        && a.position == b.position
        && a.first == b.first
        && a.second == b.second
}

// An error of the kind of this code, with the tags and numbers that the kind has.
fn error_of(code: DerError) -> Option<Error>
    ensures { result ≡ option_map (λ k. error_with code k) (kind_known code) }
{
    let kind = kind_of(code)?;
    Some(if code.has_position {
        kind.at(Length::new(code.position))
    } else {
        kind.to_error()
    })
}

// The kind of this code, with its tags and numbers.
fn kind_of(code: DerError) -> Option<ErrorKind>
    ensures { result ≡ kind_known code }
{
    let (first, second) = (code.first, code.second);
    match code.kind {
        1 => Some(ErrorKind::DateTime),
        2 => Some(ErrorKind::EncodingRules),
        3 => Some(ErrorKind::Failed),
        4 => Some(ErrorKind::Incomplete {
            expected_len: Length::new(first),
            actual_len: Length::new(second),
        }),
        5 => Some(ErrorKind::IndefiniteLength),
        7 => Some(ErrorKind::NestingDepth),
        9 => Some(ErrorKind::OidMalformed),
        10 => Some(ErrorKind::SetDuplicate),
        11 => Some(ErrorKind::SetOrdering),
        12 => Some(ErrorKind::Overflow),
        13 => Some(ErrorKind::Overlength),
        14 => Some(ErrorKind::Reader),
        15 => Some(ErrorKind::TagModeUnknown),
        16 => Some(ErrorKind::TagNumberInvalid),
        18 => Some(ErrorKind::TagUnknown {
            byte: (first % 256) as u8,
        }),
        19 => Some(ErrorKind::TrailingData {
            decoded: Length::new(first),
            remaining: Length::new(second),
        }),
        22 => Some(ErrorKind::OutOfMemory),
        _ => kind_of_tag(code),
    }
}

// The kind of a code that names a tag.
fn kind_of_tag(code: DerError) -> Option<ErrorKind>
    ensures { result ≡ kind_among (tag_rows code) code.kind }
{
    let tag = tag_of(code.actual, code.second)?;
    match code.kind {
        6 => Some(ErrorKind::Length { tag }),
        8 => Some(ErrorKind::Noncanonical { tag }),
        17 => Some(ErrorKind::TagUnexpected {
            expected: tag_of(code.expected, code.first),
            actual: tag,
        }),
        21 => Some(ErrorKind::Value { tag }),
        _ => None,
    }
}
