//! Whether fields may be absent.
ghost use Rattle.std.specs.Prelude.{◌≡◌};
ghost use Rattle.schema_types.specs.Presence.{presence_at, default_room};

/// Whether a field may be absent (X.680 25.1). A table stores the presence as a number.
#[derive(Debug, Clone, Copy, PartialEq, Eq)]
pub enum Presence {
    /// The field must be present. Alternatives of a CHOICE have this presence too. Its number is 0.
    Required,
    /// The field is `OPTIONAL`. The number of this presence is 1.
    Optional,
    /// The field has a `DEFAULT` value. The number of this presence is 2.
    Default,
}

impl Presence {
    /// Returns the presence that has this number in a table, if there is one.
    pub fn from_number(number: u32) -> Option<Self>
        ensures { result ≡ presence_at number }
    {
        match number {
            0 => Some(Presence::Required),
            1 => Some(Presence::Optional),
            2 => Some(Presence::Default),
            _ => None,
        }
    }

    // How many octets of a pool there are of which a default may be.
    pub(crate) fn default_room(self, pool: usize) -> usize
        ensures { result ≡ default_room pool self }
    {
        match self {
            Presence::Default => pool,
            _ => 0,
        }
    }
}
