//! Values of elements.
ghost use Rattle.std.specs.Prelude.{◌≡◌, ◌+◌, IfSome};
ghost use Rattle.schema_cursor.specs.Children.{IsFirstChild};
ghost use Rattle.schema_cursor.specs.Cursor.{IsAt};
ghost use Rattle.schema_cursor.specs.Values.{IsTagged, IsInside, AreInside};

use crate::bits::BitNames;
use crate::cursor::Cursor;
use crate::path::LEVELS;
use crate::rows::number_name;
use ber::{Universal, read_header};
use der_asn1::{
    BitStringRef, DateTime, EnumeratedRef, GeneralizedTimeFormat, IntRef, ObjectIdentifierRef,
    TimeFormat, UtcTimeFormat,
};
use schema_types::NodeKind;

/// Reads the value of an element. A function for a value looks inside EXPLICIT tags. It returns
/// `None` in these cases:
///
/// - The element is of another type, or its encoding is constructed.
/// - DER does not allow the contents of the element. For [`Cursor::boolean`] and [`Cursor::text`],
///   see there.
impl<'a> Cursor<'a> {
    /// The value inside all EXPLICIT tags of the element. If the element has no EXPLICIT tag, it is
    /// the element itself.
    pub fn untagged(self) -> Self
        ensures inside { IsInside self.entry result }
        ensures same { IsAt self.entry result.index result }
    {
        let mut found = self;
        for _ in 0..LEVELS {
            match found.tagged() {
                Some(inner) => found = inner,
                None => return found,
            }
        }
        found
    }

    // The value inside an EXPLICIT tag.
    fn tagged(self) -> Option<Self>
        ensures { IfSome result (λ c. IsTagged self.entry × IsAt self.entry c.index c
            × IsFirstChild self.entry.entries.now self.entry.index (self.entry.index + 1) c.index) }
    {
        let node = self.node()?;
        match node.kind {
            NodeKind::Explicit => self.item(0),
            _ => None,
        }
    }

    /// The universal type of the element. It comes from the type in the table or, if the table has
    /// no universal type for the element, from its tag. EXPLICIT tags are not looked through: the
    /// result for an EXPLICIT tag is `None`.
    pub fn universal(self) -> Option<Universal> {
        match self.kind() {
            Some(NodeKind::Universal(universal)) => Some(universal),
            Some(NodeKind::SequenceOf) => Some(Universal::Sequence),
            Some(NodeKind::SetOf) => Some(Universal::Set),
            Some(NodeKind::Explicit) => None,
            _ => match read_header(self.octets()) {
                Ok(header) => header.universal(),
                Err(_) => None,
            },
        }
    }

    /// Whether the encoding of the element is constructed. EXPLICIT tags are not looked through.
    pub fn is_constructed(self) -> bool {
        match read_header(self.octets()) {
            Ok(header) => header.constructed,
            Err(_) => false,
        }
    }

    // The contents of a value of a type, in the primitive form.
    fn primitive(self, universal: Universal) -> Option<&'a [u8]>
        ensures { IfSome result (λ o. AreInside self.entry o.now) }
    {
        let value = self.untagged();
        if value.universal() == Some(universal) && !value.is_constructed() {
            Some(value.contents())
        } else {
            None
        }
    }

    /// The value of a BOOLEAN. Each octet other than 0 is read as true, as BER allows.
    pub fn boolean(self) -> Option<bool> {
        match self.primitive(Universal::Boolean)? {
            [octet] => Some(*octet != 0),
            _ => None,
        }
    }

    /// The value of an INTEGER of any size.
    pub fn integer(self) -> Option<IntRef<'a>>
        ensures { IfSome result (λ v. AreInside self.entry v.octets.now) }
    {
        IntRef::new(self.primitive(Universal::Integer)?)
    }

    /// The value of an ENUMERATED.
    pub fn enumerated(self) -> Option<EnumeratedRef<'a>>
        ensures { IfSome result (λ v. AreInside self.entry v.octets.now) }
    {
        EnumeratedRef::new(self.primitive(Universal::Enumerated)?)
    }

    /// The number of an INTEGER or an ENUMERATED. `None` if the number does not fit in an `i64`.
    pub fn number(self) -> Option<i64> {
        match self.integer() {
            Some(integer) => integer.to_number(),
            None => self.enumerated()?.to_number(),
        }
    }

    /// The name that the type gives to the number of an INTEGER or an ENUMERATED. `None` if the
    /// number has no name.
    pub fn number_name(self) -> Option<&'a str> {
        let number = self.number()?;
        number_name(self.schema, self.untagged().node()?, number)
    }

    /// The value of an OBJECT IDENTIFIER. It is printed as its arcs.
    pub fn object_identifier(self) -> Option<ObjectIdentifierRef<'a>>
        ensures { IfSome result (λ v. AreInside self.entry v.octets.now) }
    {
        ObjectIdentifierRef::new(self.primitive(Universal::ObjectIdentifier)?)
    }

    /// The bits of a BIT STRING.
    pub fn bits(self) -> Option<BitStringRef<'a>>
        ensures { IfSome result (λ v. AreInside self.entry v.octets.now) }
    {
        BitStringRef::new(self.primitive(Universal::BitString)?)
    }

    /// The names of those bits of a BIT STRING that are one, in the order of the table of types.
    /// Bits without a name are skipped.
    pub fn bit_names(self) -> Option<BitNames<'a>> {
        let bits = self.bits()?;
        Some(BitNames::new(self.schema, self.untagged().node()?, bits))
    }

    /// The octets of an OCTET STRING.
    pub fn octet_string(self) -> Option<&'a [u8]>
        ensures { IfSome result (λ o. AreInside self.entry o.now) }
    {
        self.primitive(Universal::OctetString)
    }

    /// The text of a UTF8String, NumericString, PrintableString, IA5String or VisibleString. It
    /// must be UTF-8. It is not checked whether the type allows all its characters.
    pub fn text(self) -> Option<&'a str>
        ensures { IfSome result (λ s. AreInside self.entry s.now) }
    {
        let universal = self.untagged().universal()?;
        match universal {
            Universal::Utf8String
            | Universal::NumericString
            | Universal::PrintableString
            | Universal::Ia5String
            | Universal::VisibleString => as_text(self.primitive(universal)?),
            _ => None,
        }
    }

    /// The time of a UTCTime or a GeneralizedTime. `None` if the time has a fraction of a second.
    pub fn time(self) -> Option<DateTime> {
        match self.primitive(Universal::UtcTime) {
            Some(contents) => UtcTimeFormat::from_contents(contents),
            None => {
                GeneralizedTimeFormat::from_contents(self.primitive(Universal::GeneralizedTime)?)
            }
        }
    }
}

// Octets as a text, if they are UTF-8.
fn as_text(octets: &[u8]) -> Option<&str>
    ensures { IfSome result (λ s. s.now ≡ octets.now) }
{
    match std::str::from_utf8(octets) {
        Ok(text) => Some(text),
        Err(_) => None,
    }
}
