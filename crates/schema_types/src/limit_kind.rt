//! Kinds of limits.
ghost use Rattle.std.specs.Prelude.{◌≡◌};
ghost use Rattle.schema_types.specs.LimitKind.{limit_kind_at};

/// What a limit of a type applies to. A table stores the kind as a number.
#[derive(Debug, Clone, Copy, PartialEq, Eq)]
pub enum LimitKind {
    /// The limit is for the value of an INTEGER (X.680 51.4). Its number is 0.
    Value,
    /// The limit is for the number of octets, bits, characters or items of a value (X.680 51.5).
    /// Its number is 1.
    Size,
    /// The limit is for the number of each character of a string (X.680 51.7). Its number is 2.
    Alphabet,
}

impl LimitKind {
    /// Returns the kind that has this number in a table, if there is one.
    pub fn from_number(number: u32) -> Option<Self>
        ensures { result ≡ limit_kind_at number }
    {
        match number {
            0 => Some(LimitKind::Value),
            1 => Some(LimitKind::Size),
            2 => Some(LimitKind::Alphabet),
            _ => None,
        }
    }
}
