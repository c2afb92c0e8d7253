//! The type [`Error`], its kinds, and their printed messages.
ghost use Rattle.std.specs.Prelude.{◌≡◌, Option, Some, None};
ghost use Rattle.der_base.specs.declared.error.ErrorKind.TheVariants.{Overflow, Utf8};

use crate::length::Length;
use crate::tag::Tag;
use std::fmt;
use std::num::TryFromIntError;
pub use std::str::Utf8Error;

/// A result whose error is [`Error`].
pub type Result<T> = std::result::Result<T, Error>;

/// An error of a call of this library: its kind, and its position if the position is known. The
/// position of an error in reading counts octets from the start of the input. The position of an
/// error in writing counts octets from the start of the output.
#[derive(Clone, Copy, Debug, PartialEq, Eq)]
pub struct Error {
    kind: ErrorKind,
    position: Option<Length>,
}

impl Error {
    ghost use Rattle.der_base.specs.Error.{error_at, kind_of, position_of, error_at_end};

    /// An error of the kind `kind` at the position `position`.
    pub const fn new(kind: ErrorKind, position: Length) -> Self
        ensures { result ≡ error_at kind position }
    {
        Error {
            kind,
            position: Some(position),
        }
    }

    /// The error of an input that has `actual_len` octets and needs one more. The kind is
    /// `Incomplete`, and the field `expected_len` is `actual_len` plus one. If that sum exceeds
    /// 4294967295, the kind is `Overflow` instead. The position is `actual_len`, the end of the
    /// input.
    pub fn incomplete(actual_len: Length) -> Self
        ensures { result ≡ error_at_end actual_len }
    {
        match actual_len + Length::ONE {
            Ok(expected_len) => ErrorKind::Incomplete {
                expected_len,
                actual_len,
            }
            .at(actual_len),
            Err(error) => error.kind().at(actual_len),
        }
    }

    /// The kind of the error: what went wrong.
    pub const fn kind(self) -> ErrorKind
        ensures { result ≡ kind_of self }
    {
        self.kind
    }

    /// The position of the error, counted in octets from the start of the input or output; `None`
    /// if the position is not known.
    pub const fn position(self) -> Option<Length>
        ensures { result ≡ position_of self }
    {
        self.position
    }
}

/// Converts a kind to an error of that kind, without a position.
impl From<ErrorKind> for Error {
    ghost use Rattle.der_base.specs.Error.{error_of_kind};

    ghost from_gives = { λ kind e. e ≡ error_of_kind kind };

    fn from(kind: ErrorKind) -> Self {
        kind.to_error()
    }
}

/// Converts the error of a failed integer conversion to an error of the kind `Overflow`, without a
/// position.
impl From<TryFromIntError> for Error {
    ghost use Rattle.der_base.specs.Error.{error_of_kind};

    ghost from_gives = { λ _ e. e ≡ error_of_kind Overflow };

    fn from(_error: TryFromIntError) -> Self {
        ErrorKind::Overflow.to_error()
    }
}

/// Converts a UTF-8 error to an error of the kind `Utf8`, without a position.
impl From<Utf8Error> for Error {
    ghost use Rattle.der_base.specs.Error.{error_of_kind};

    ghost from_gives = { λ error e. e ≡ error_of_kind (Utf8 error) };

    fn from(error: Utf8Error) -> Self {
        ErrorKind::Utf8(error).to_error()
    }
}

/// The kind of an [`Error`]: what went wrong.
#[derive(Clone, Copy, Debug, PartialEq, Eq)]
pub enum ErrorKind {
    /// A value is not a valid date or time, or not a valid part of one, such as a month.
    DateTime,
    /// A text is not the name of encoding rules. The names are `ber`, `BER`, `der` and `DER`.
    EncodingRules,
    /// The reader or writer had already failed, in an earlier call.
    Failed,
    /// The input, or the contents of the element that is being read, end too early. Both fields
    /// count octets from the start of the input.
    Incomplete {
        /// The position up to which octets are required. Octets after it may be required too.
        expected_len: Length,
        /// The position where the input, or the contents of that element, end.
        actual_len: Length,
    },
    /// An indefinite length occurs where none is allowed, or is not closed by two end-of-contents
    /// octets. Or a definite length occurs where only an indefinite one is allowed.
    IndefiniteLength,
    /// The length of an element is not encoded as required, or differs from the number of contents
    /// octets.
    Length {
        /// The element's tag.
        tag: Tag,
    },
    /// Elements are nested more deeply than this library supports.
    NestingDepth,
    /// A value is not encoded canonically.
    Noncanonical {
        /// The value's tag.
        tag: Tag,
    },
    /// An object identifier is malformed.
    OidMalformed,
    /// A SET OF contains an element twice.
    SetDuplicate,
    /// The elements of a SET OF are not in ascending order of their encodings (X.690 11.6).
    SetOrdering,
    /// A number is too great, such as a number of octets that exceeds 4294967295. Or a difference
    /// of lengths is below zero.
    Overflow,
    /// A length that was read without a tag is encoded in more octets than it needs, or in more
    /// than five octets. Or a write needs more space than the output has.
    Overlength,
    /// The reader does not support the requested operation, such as returning slices of its input.
    Reader,
    /// A text is not the name of a tagging mode.
    TagModeUnknown,
    /// A tag number is not encoded as required, or exceeds 32 bits.
    TagNumberInvalid,
    /// A tag occurs where another was expected, or where it is not allowed.
    TagUnexpected {
        /// The expected tag; `None` if the error names no expected tag.
        expected: Option<Tag>,
        /// The tag that was read.
        actual: Tag,
    },
    /// No universal tag has the identifier octet that was read.
    TagUnknown {
        /// The identifier octet that was read.
        byte: u8,
    },
    /// Octets are left where the input, or the contents of an element, should end.
    TrailingData {
        /// The number of octets that were read since the start of the input.
        decoded: Length,
        /// The number of unread octets, up to the end of the input or of the element's contents.
        remaining: Length,
    },
    /// A text is not UTF-8.
    Utf8(Utf8Error),
    /// A value is malformed.
    Value {
        /// The value's tag.
        tag: Tag,
    },
    /// An allocation failed.
    OutOfMemory,
}

impl ErrorKind {
    ghost use Rattle.der_base.specs.Error.{error_of_kind, error_at};

    /// An error of this kind at the position `position`.
    pub const fn at(self, position: Length) -> Error
        ensures { result ≡ error_at self position }
    {
        Error::new(self, position)
    }

    /// An error of this kind, without a position.
    pub const fn to_error(self) -> Error
        ensures { result ≡ error_of_kind self }
    {
        Error {
            kind: self,
            position: None,
        }
    }
}

/// Prints the message of the kind. A length, a tag or a UTF-8 error in the message is printed by
/// its own `Display`.
impl fmt::Display for ErrorKind {
    ghost use Rattle.der_base.specs.Text.{kind_text};

    ghost output = { kind_text };

    fn fmt<W: fmt::Write>(&self, f: &mut fmt::Formatter<W>) -> fmt::Result {
        match self {
            Self::DateTime => f.write_str("date/time error"),
            Self::EncodingRules => f.write_str("invalid encoding rules"),
            Self::Failed => f.write_str("operation failed"),
            Self::Incomplete {
                expected_len,
                actual_len,
            } => write!(
                f,
                "ASN.1 DER message is incomplete: expected {expected_len}, actual {actual_len}"
            ),
            Self::IndefiniteLength => f.write_str("indefinite length disallowed/malformed"),
            Self::Length { tag } => write!(f, "incorrect length for {tag}"),
            Self::NestingDepth => f.write_str("too many nested productions encountered"),
            Self::Noncanonical { tag } => write!(f, "ASN.1 {tag} not canonically encoded as DER"),
            Self::OidMalformed => f.write_str("malformed OID"),
            Self::SetDuplicate => f.write_str("SET OF contains duplicate"),
            Self::SetOrdering => f.write_str("SET OF ordering error"),
            Self::Overflow => f.write_str("integer overflow"),
            Self::Overlength => f.write_str("ASN.1 DER message is too long"),
            Self::Reader => f.write_str("reader does not support the requested operation"),
            Self::TagModeUnknown => f.write_str("unknown tag mode"),
            Self::TagNumberInvalid => f.write_str("invalid tag number"),
            Self::TagUnexpected { expected, actual } => match expected {
                Some(tag) => write!(f, "unexpected ASN.1 DER tag: expected {tag}, got {actual}"),
                None => write!(f, "unexpected ASN.1 DER tag: got {actual}"),
            },
            Self::TagUnknown { byte } => write!(
                f,
                "unknown/unsupported ASN.1 DER tag: 0x{byte:02x}"
            ),
            Self::TrailingData { decoded, remaining } => write!(
                f,
                "trailing data at end of DER message: decoded {decoded} bytes, \
                 {remaining} bytes remaining"
            ),
            Self::Utf8(error) => write!(f, "{error}"),
            Self::Value { tag } => write!(f, "malformed ASN.1 DER value for {tag}"),
            Self::OutOfMemory => f.write_str("out of memory"),
        }
    }
}

/// Prints the message of the kind, and then ` at DER byte ` and the position, if the position is
/// known.
impl fmt::Display for Error {
    ghost use Rattle.der_base.specs.Text.{error_text};

    ghost output = { error_text };

    fn fmt<W: fmt::Write>(&self, f: &mut fmt::Formatter<W>) -> fmt::Result {
        let kind = &self.kind;
        match self.position {
            Some(position) => write!(f, "{kind} at DER byte {position}"),
            None => write!(f, "{kind}"),
        }
    }
}

impl std::error::Error for Error {}
