//! Tag classes.
ghost use Rattle.std.specs.Prelude.{◌≡◌, ◌*◌, ◌/◌, Some};

use std::fmt;

/// `0x00`: the class UNIVERSAL in the two highest bits, where the first identifier octet has it.
/// The six other bits of this constant are 0.
pub const CLASS_UNIVERSAL: u8 = 0x00;

/// `0x40`: the class APPLICATION in the two highest bits, where the first identifier octet has it.
/// The six other bits of this constant are 0.
pub const CLASS_APPLICATION: u8 = 0x40;

/// `0x80`: the class CONTEXT-SPECIFIC in the two highest bits, where the first identifier octet has
/// it. The six other bits of this constant are 0.
pub const CLASS_CONTEXT_SPECIFIC: u8 = 0x80;

/// `0xC0`: the class PRIVATE in the two highest bits, where the first identifier octet has it. The
/// six other bits of this constant are 0.
pub const CLASS_PRIVATE: u8 = 0xC0;

/// The class of a tag (X.690 8.1.2.2, table 1).
#[derive(Clone, Copy, Debug, PartialEq, Eq, PartialOrd, Ord)]
pub enum Class {
    /// The class UNIVERSAL: the tag has the same meaning in all applications.
    Universal,
    /// The class APPLICATION: the meaning of the tag is specific to an application.
    Application,
    /// The class CONTEXT-SPECIFIC: the meaning of the tag depends on the context.
    ContextSpecific,
    /// The class PRIVATE: the meaning of the tag is specific to an enterprise.
    Private,
}

impl Class {
    ghost use Rattle.der_base.specs.Class.{class_number};

    /// The class as the two highest bits of an octet: `0x00`, `0x40`, `0x80` or `0xC0`. The other
    /// bits are 0.
    pub const fn bits(&self) -> u8
        ensures { result ≡ 64 * class_number self.now }
    {
        match self {
            Class::Universal => CLASS_UNIVERSAL,
            Class::Application => CLASS_APPLICATION,
            Class::ContextSpecific => CLASS_CONTEXT_SPECIFIC,
            Class::Private => CLASS_PRIVATE,
        }
    }

    /// The class in the two highest bits of `bits`. The other bits are ignored.
    pub const fn from_bits(bits: u8) -> Self
        ensures { class_number result ≡ bits / 64 }
    {
        match bits >> 6 {
            0 => Class::Universal,
            1 => Class::Application,
            2 => Class::ContextSpecific,
            _ => Class::Private,
        }
    }
}

/// Converts an octet to the class in its two highest bits. The other bits are ignored.
impl From<u8> for Class {
    ghost use Rattle.der_base.specs.Class.{class_number};

    ghost from_gives = { λ octet class. class_number class ≡ octet / 64 };

    fn from(octet: u8) -> Self {
        Class::from_bits(octet)
    }
}

/// Prints `UNIVERSAL`, `APPLICATION`, `CONTEXT-SPECIFIC` or `PRIVATE`.
impl fmt::Display for Class {
    ghost use Rattle.der_base.specs.Text.{class_text};

    ghost output = { λ c. Some (class_text c) };

    fn fmt<W: fmt::Write>(&self, f: &mut fmt::Formatter<W>) -> fmt::Result {
        f.write_str(match self {
            Class::Universal => "UNIVERSAL",
            Class::Application => "APPLICATION",
            Class::ContextSpecific => "CONTEXT-SPECIFIC",
            Class::Private => "PRIVATE",
        })
    }
}
