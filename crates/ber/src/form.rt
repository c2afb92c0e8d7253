//! Primitive and constructed encodings.
ghost use Rattle.std.specs.Prelude.{◌≡◌};

/// Whether the encodings of a type are primitive or constructed (X.690 8.1.2.5).
#[derive(Debug, Clone, Copy, PartialEq, Eq)]
pub enum Form {
    /// Encodings of the type are always primitive.
    Primitive,
    /// Encodings of the type are always constructed.
    Constructed,
    /// Encodings of the type are primitive or constructed, as the sender chooses. The string types
    /// have this form.
    Either,
}

impl Form {
    ghost use Rattle.ber.specs.Form.{allows};

    /// Whether this form allows a constructed encoding (if `constructed` is true) or a primitive
    /// one (if it is false).
    pub const fn allows(self, constructed: bool) -> bool
        ensures { result ≡ allows self constructed }
    {
        match self {
            Form::Primitive => !constructed,
            Form::Constructed => constructed,
            Form::Either => true,
        }
    }
}
