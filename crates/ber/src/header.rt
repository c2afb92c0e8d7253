//! Headers.
ghost use Rattle.std.specs.Prelude.{◌≡◌, ◌≤◌, ◌↔◌, ◌++◌, length, IsTrue, IfOk, IfErr};
ghost use Rattle.der_base.specs.Tag.{is_constructed};
ghost use Rattle.ber.specs.Identifier.{identifier_octets, label_at};
ghost use Rattle.ber.specs.Header.{IsNext};
ghost use Rattle.ber.specs.Fault.{IsFault};
ghost use Rattle.ber.specs.declared.fault.Fault.{Fault};

use crate::fault::Fault;
use crate::form::Form;
use crate::length::Length;
use crate::length_octets::LengthOctets;
use crate::tag_number::tag_number;
use crate::universal::Universal;
use der_base::Class;

/// The header of an element: its identifier and its length (X.690 8.1.2, 8.1.3).
#[derive(Debug, Clone, Copy, PartialEq, Eq)]
pub struct Header {
    /// The class of the tag.
    pub class: Class,
    /// Whether the encoding is constructed; otherwise it is primitive (X.690 8.1.2.5).
    pub constructed: bool,
    /// The number of the tag.
    pub number: u32,
    /// The length of the contents.
    pub length: Length,
    /// Whether a definite length is encoded in the fewest octets possible (X.690 10.1). True if the
    /// length is indefinite.
    pub minimal: bool,
    /// The number of octets of the header, 2 to 133.
    pub header_len: usize,
}

impl Header {
    ghost use Rattle.ber.specs.Header.{label_of_header};
    ghost use Rattle.ber.specs.Der.{type_of, HasReservedTag, HasWrongForm, IsConstructedString, IsDer};

    /// Returns the universal type that has this tag. It is `None` if the tag is of another class
    /// than UNIVERSAL, or if its number is reserved.
    pub const fn universal(self) -> Option<Universal>
        ensures { result ≡ type_of (label_of_header self) }
    {
        match self.class {
            Class::Universal => Universal::from_number(self.number),
            _ => None,
        }
    }

    /// Whether the tag is of class UNIVERSAL and its number is reserved (X.680 8.6, table 1).
    /// Number 0, which end-of-contents octets have, is reserved. The encoding rules do not forbid
    /// reserved tags, so [`Header::is_der`] accepts them.
    pub const fn has_reserved_tag(self) -> bool
        ensures { IsTrue result ↔ HasReservedTag (label_of_header self) }
    {
        matches!(self.class, Class::Universal) && matches!(self.universal(), None)
    }

    /// Whether the length is indefinite. The Distinguished Encoding Rules forbid this (X.690 10.1).
    pub const fn is_indefinite(self) -> bool
        ensures { IsTrue result ↔ (self.length ≡ Length.Indefinite) }
    {
        matches!(self.length, Length::Indefinite)
    }

    /// Whether the tag is that of a universal type and the encoding has the wrong form: it is
    /// constructed where this type must be primitive, or primitive where this type must be
    /// constructed (X.690 8.2 to 8.26). The Basic Encoding Rules forbid both.
    pub const fn has_wrong_form(self) -> bool
        ensures { IsTrue result ↔ HasWrongForm (label_of_header self) }
    {
        match self.universal() {
            Some(universal) => !universal.form().allows(self.constructed),
            None => false,
        }
    }

    /// Whether the tag is that of a universal string type and the encoding is constructed, which
    /// the Distinguished Encoding Rules forbid (X.690 10.2).
    pub const fn is_constructed_string(self) -> bool
        ensures { IsTrue result ↔ IsConstructedString (label_of_header self) }
    {
        match self.universal() {
            Some(universal) => self.constructed && matches!(universal.form(), Form::Either),
            None => false,
        }
    }

    /// Whether the header breaks none of the Distinguished Encoding Rules that can be checked
    /// without knowing the type: the length is definite and minimal, and the encoding has the form
    /// of its universal type. A constructed string is not noticed if its tag is not of class
    /// UNIVERSAL. A reserved tag is accepted.
    pub const fn is_der(self) -> bool
        ensures { IsTrue result ↔ IsDer self }
    {
        self.minimal
            && !self.is_indefinite()
            && !self.has_wrong_form()
            && !self.is_constructed_string()
    }
}

/// Reads the header at the front of `octets`.
///
/// # Errors
///
/// The first fault, if the octets do not begin with a header. These are no faults:
///
/// - a reserved tag;
/// - a constructed encoding of a primitive type, or a primitive encoding of a constructed type.
#[inline(always)]
pub fn read_header(octets: &[u8]) -> Result<Header, Fault>
    ensures found { IfOk result (λ h. IsNext h octets.now) }
    ensures within { IfOk result
        (λ h. (2 ≤ h.header_len) × (h.header_len ≤ length octets.now)) }
    ensures none { IfErr result (λ f. (h : Header) → IsNext h octets.now → ⊥) }
    ensures fault { IfErr result (λ f. IsFault octets.now f) }

    // Both ways: it returns the header, or the fault, that there is.
    ensures complete { (h : Header) → IsNext h octets.now → result ≡ Ok h }
    ensures refused { (f : Fault) → IsFault octets.now f → result ≡ Err f }
{
    match octets {
        [first, size, ..] if *first % 32 < 31 && *size < 0x80 => Ok(Header {
            class: Class::from_bits(*first),
            constructed: has_constructed_bit(*first),
            number: (*first % 32) as u32,
            length: Length::Definite(*size as u32),
            minimal: true,
            header_len: 2,
        }),
        _ => any_header(octets),
    }
}

// The header at the front of octets, in any form.
#[inline(never)]
fn any_header(octets: &[u8]) -> Result<Header, Fault>
    ensures found { IfOk result (λ h. IsNext h octets.now) }
    ensures fault { IfErr result (λ f. IsFault octets.now f) }
{
    match octets {
        [first, after @ ..] if *first % 32 < 31 => {
            header_after(*first, (*first % 32) as u32, 1, after)
        }
        [first, after @ ..] => {
            let (number, count) = tag_number(after)?;
            header_after(*first, number, 1 + count, &after[count..])
        }
        [] => Err(Fault::truncated(0, 2)),
    }
}

// The header whose identifier, with this first octet and number, has `at` octets, and which
// continues with `after`.
#[inline(always)]
fn header_after(first: u8, number: u32, at: usize, after: &[u8]) -> Result<Header, Fault>
    requires near { at ≤ 6 }
    requires known { at ≡ length (identifier_octets (label_at first number)) }
    ensures found { IfOk result
        (λ h. IsNext h (identifier_octets (label_at first number) ++ after.now)) }
    ensures fault { IfErr result
        (λ f. IsFault (identifier_octets (label_at first number) ++ after.now) f) }
{
    let constructed = has_constructed_bit(first);
    let size = LengthOctets::read(constructed, at, after)?;
    Ok(Header {
        class: Class::from_bits(first),
        constructed,
        number,
        length: size.length,
        minimal: size.minimal,
        header_len: at + size.count,
    })
}

// Bit 6 of the first identifier octet (X.690 8.1.2.3).
#[inline(always)]
fn has_constructed_bit(first: u8) -> bool
    ensures { result ≡ is_constructed first }
{
    first / 32 % 2 == 1
}
