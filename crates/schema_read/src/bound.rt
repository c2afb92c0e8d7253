//! Kinds of constraints.
ghost use Rattle.std.specs.Prelude.{◌≡◌};
ghost use Rattle.schema_read.specs.Constraints.{bound_of};

use ber::Universal;

/// What the constraints of a universal type limit.
#[derive(Clone, Copy)]
pub(crate) enum Bound {
    /// The constraints limit the number of an INTEGER.
    Numbers,
    /// The constraints limit the number of an ENUMERATED.
    Items,
    /// The constraints limit the size of a BIT STRING. A BIT STRING may also have named bits.
    Bits,
    /// The constraints limit the number of characters of a restricted character string, and which
    /// characters it has.
    Characters,
    /// The constraints limit the size of a value of any other type.
    Sizes,
}

impl Bound {
    /// What the constraints of this universal type limit.
    pub fn of(universal: Universal) -> Self
        ensures { result ≡ bound_of universal }
    {
        match universal {
            Universal::Integer => Bound::Numbers,
            Universal::Enumerated => Bound::Items,
            Universal::BitString => Bound::Bits,
            Universal::Utf8String
            | Universal::NumericString
            | Universal::PrintableString
            | Universal::TeletexString
            | Universal::VideotexString
            | Universal::Ia5String
            | Universal::GraphicString
            | Universal::VisibleString
            | Universal::GeneralString
            | Universal::UniversalString
            | Universal::BmpString => Bound::Characters,
            _ => Bound::Sizes,
        }
    }
}
