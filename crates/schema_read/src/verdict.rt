//! Which encoding rules octets keep.
ghost use Rattle.std.specs.Prelude.{◌≡◌};
ghost use Rattle.der_base.specs.declared.encoding_rules.EncodingRules.TheVariants.{Der, Ber};
ghost use Rattle.schema_read.specs.Verdict.{holds, worst};

/// Which encoding rules octets keep, if they are read as a value of a type.
#[derive(Debug, Clone, Copy, PartialEq, Eq)]
pub enum Verdict {
    /// The octets are an encoding of a value by DER. Each encoding by DER is also one by BER.
    Der,
    /// The octets are an encoding of a value by BER, but not by DER.
    Ber,
    /// The octets are not an encoding of a value, by DER or by BER.
    Neither,
}

impl Verdict {
    /// Whether octets with this verdict are an encoding by DER.
    #[inline(always)]
    pub fn is_der(self) -> bool
        ensures { result ≡ holds Der self }
    {
        match self {
            Verdict::Der => true,
            Verdict::Ber | Verdict::Neither => false,
        }
    }

    /// Whether octets with this verdict are an encoding by BER.
    #[inline(always)]
    pub fn is_ber(self) -> bool
        ensures { result ≡ holds Ber self }
    {
        match self {
            Verdict::Der | Verdict::Ber => true,
            Verdict::Neither => false,
        }
    }

    // The verdict on two parts together.
    #[inline(always)]
    pub(crate) fn and(self, other: Self) -> Self
        ensures { result ≡ worst self other }
    {
        match self {
            Verdict::Der => other,
            Verdict::Ber => match other {
                Verdict::Der => Verdict::Ber,
                Verdict::Ber => Verdict::Ber,
                Verdict::Neither => Verdict::Neither,
            },
            Verdict::Neither => match other {
                _ => Verdict::Neither,
            },
        }
    }
}
