//! How contents octets are rewritten.
ghost use Rattle.std.specs.Prelude.{◌≡◌};
ghost use Rattle.schema_write.specs.Rewriting.{rewriting_of};

use ber::Universal;

/// How the contents octets of a value of a universal type change from BER to DER.
#[derive(Clone, Copy)]
pub(crate) enum Rewriting {
    /// The contents are a BOOLEAN. An octet other than 0 becomes `FF`.
    Boolean,
    /// The contents are a BIT STRING. Unused bits become 0. If the bits have names, zero bits at
    /// the end are removed.
    Bits,
    /// The contents are a UTCTime. It is converted to UTC. Missing seconds are added as `00`.
    UtcTime,
    /// The contents are a GeneralizedTime. It is converted to UTC. Missing minutes and seconds are
    /// added. The digits 0 at the end of a fraction are removed.
    GeneralizedTime,
    /// The contents stay as they are.
    Same,
}

impl Rewriting {
    /// How the contents octets of this type change from BER to DER.
    pub fn of(universal: Universal) -> Self
        ensures { result ≡ rewriting_of universal }
    {
        match universal {
            Universal::Boolean => Rewriting::Boolean,
            Universal::BitString => Rewriting::Bits,
            Universal::UtcTime => Rewriting::UtcTime,
            Universal::GeneralizedTime => Rewriting::GeneralizedTime,
            _ => Rewriting::Same,
        }
    }
}
